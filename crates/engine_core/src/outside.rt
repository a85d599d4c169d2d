ghost use Rattle.std.specs.Prelude.{◌≡◌, true, false, IfOk};
ghost use Rattle.own_model.specs.declared.history.Verdict.TheVariants.{Took};
ghost use Rattle.own_model.specs.declared.limit.TheConstants.{STATEMENT_BYTES};
ghost use Rattle.own_model.specs.declared.request.Request.TheVariants.{Run};
ghost use Rattle.grammar_model.specs.Readable.{IsWritten};
ghost use Rattle.state_model.specs.Sound.{IsWellFormed, Sound};
ghost use Rattle.run_model.specs.Run.{run, run_bound};
ghost use Rattle.history_model.specs.Commits.{is_create};
ghost use Rattle.history_model.specs.History.{world};
ghost use Rattle.history_model.specs.Reply.{reply_outside};
ghost use Rattle.txn_core.specs.SessionStates.{state_by};
ghost use Rattle.txn_core.specs.declared.session_state.SessionState.TheVariants.{Nothing};
ghost use Rattle.crash_model.specs.Room.{written_by};
ghost use Rattle.engine_core.specs.Answered.{Erases, ErasesBound, Tells, bound_reply, bound_written};
ghost use Rattle.engine_core.specs.Asked.{IsBound, IsCreate, IsMeant, RunsByItself, reads_alone};
ghost use Rattle.engine_core.specs.RepresentsWorld.{IsEvent, Serves, RepresentsWorld};
ghost use Rattle.engine_core.specs.Stored.{IsUp, Stores};

use crate::answer::Answer;
use crate::asker::Asker;
use crate::checkpoint::checkpoint;
use crate::creating::create;
use crate::installing::install;
use crate::state::State;
use crate::subjects::forget;
use crate::writing::write;
use outer_world::Disk;
use own_base::Place;
use own_model::{Bound, Entry, Refusal, Reply, Statement, Verdict};
use plan_bind::bind;
use std::alloc::{AllocError, Global};
use std::mem::drop;
use store_disk::StoreDisk;

/// The answer to a bound statement outside a transaction that changes rows.
#[tactic(auto, unfolding(run_model::specs::Run::run_bound))]
fn answer_meant(alloc: Global, asker: &Asker<'_>, bound: &Bound) -> Result<Answer, AllocError>
    requires sound { Sound asker.now.state.now.version }
    requires stands { RepresentsWorld asker.now.state.now (world asker.now.state.now.opened asker.now.history.now) }
    requires meant { IsMeant asker.now.state.now.version.schema bound.now }
    requires well_formed { IsWellFormed (run_bound asker.now.state.now.version bound.now).db }
    ensures tells { IfOk result (Tells asker.now.state.now.version false (bound_written asker.now.state.now.version asker.now.commits bound.now (run_bound asker.now.state.now.version bound.now).db) (bound_reply (world asker.now.state.now.opened asker.now.history.now) asker.now.state.now.version asker.now.session.0 bound.now) (run_bound asker.now.state.now.version bound.now).db) }
    ensures erases { IfOk result (ErasesBound asker.now.state.now.version bound.now) }
{
    match bound {
        Bound::Insert { .. } | Bound::Update { .. } | Bound::Delete { .. } => {
            write(alloc, asker, bound)
        }
        Bound::Forget(subject) => forget(
            alloc,
            &asker.state.version,
            asker.state.weighs,
            asker.commits,
            subject,
        ),
        _ => unreachable!(),
    }
}

/// The answer to a statement outside a transaction by what it means, or why binding refuses it.
fn answer_by_meaning(
    alloc: Global,
    asker: &Asker<'_>,
    statement: &Statement,
) -> Result<Answer, AllocError>
    requires sound { Sound asker.now.state.now.version }
    requires stands { RepresentsWorld asker.now.state.now (world asker.now.state.now.opened asker.now.history.now) }
    requires written { IsWritten STATEMENT_BYTES statement.now }
    requires bound { IsBound statement.now }
    ensures tells { IfOk result (Tells asker.now.state.now.version false (written_by asker.now.state.now.version (Run statement.now) (run asker.now.state.now.version statement.now).db asker.now.commits) (λ verdict. reply_outside (world asker.now.state.now.opened asker.now.history.now) asker.now.session.0 verdict statement.now) (run asker.now.state.now.version statement.now).db) }
    ensures erases { IfOk result (Erases asker.now.state.now.version (Run statement.now)) }
{
    match bind(alloc, asker.state.version.catalog().schema(), statement) {
        Ok(bound) => {
            let answer = answer_meant(alloc, asker, &bound);
            drop(bound);
            answer
        }
        Err(why) => Answer::refused(alloc, why),
    }
}

/// The answer to a CREATE: it is refused while another session's transaction is open.
fn answer_to_create(
    alloc: Global,
    asker: &Asker<'_>,
    statement: &Statement,
) -> Result<Answer, AllocError>
    requires sound { Sound asker.now.state.now.version }
    requires stands { RepresentsWorld asker.now.state.now (world asker.now.state.now.opened asker.now.history.now) }
    requires written { IsWritten STATEMENT_BYTES statement.now }
    requires create { IsCreate statement.now }
    ensures tells { IfOk result (Tells asker.now.state.now.version true (written_by asker.now.state.now.version (Run statement.now) (run asker.now.state.now.version statement.now).db asker.now.commits) (λ verdict. reply_outside (world asker.now.state.now.opened asker.now.history.now) asker.now.session.0 verdict statement.now) (run asker.now.state.now.version statement.now).db) }
    ensures erases { IfOk result (Erases asker.now.state.now.version (Run statement.now)) }
{
    let state = asker.state;
    match state.txns.lowest_other(asker.session) {
        Some(other) => Ok(Answer::told(alloc, Reply::Refused(Refusal::Busy(other)))),
        None => create(alloc, &state.version, state.weighs, statement),
    }
}

/// The answer to a statement outside a transaction that runs by itself, and doesn't read alone.
fn answer(alloc: Global, asker: &Asker<'_>, statement: &Statement) -> Result<Answer, AllocError>
    requires sound { Sound asker.now.state.now.version }
    requires stands { RepresentsWorld asker.now.state.now (world asker.now.state.now.opened asker.now.history.now) }
    requires written { IsWritten STATEMENT_BYTES statement.now }
    requires itself { RunsByItself statement.now }
    requires changes { reads_alone statement.now ≡ false }
    ensures tells { IfOk result (Tells asker.now.state.now.version (is_create (Run statement.now)) (written_by asker.now.state.now.version (Run statement.now) (run asker.now.state.now.version statement.now).db asker.now.commits) (λ verdict. reply_outside (world asker.now.state.now.opened asker.now.history.now) asker.now.session.0 verdict statement.now) (run asker.now.state.now.version statement.now).db) }
    ensures erases { IfOk result (Erases asker.now.state.now.version (Run statement.now)) }
{
    match statement {
        Statement::CreateTable(_) | Statement::CreateView(_) => {
            answer_to_create(alloc, asker, statement)
        }
        _ => answer_by_meaning(alloc, asker, statement),
    }
}

/// Serves a statement of a session that is outside a transaction, where it doesn't read alone.
pub(crate) fn serve_outside<D: Disk>(
    alloc: Global,
    state: &mut State,
    store: &mut StoreDisk<D>,
    history: &[Entry],
    entry: &Entry,
    statement: &Statement,
) -> Result<(Verdict, Reply), AllocError>
    requires event { IsEvent state.old history.now entry.now }
    requires took { entry.now.verdict ≡ Took }
    requires store { IsUp D.holds D.leaves D.honest store.old state.old.version }
    requires outside { state_by state.old.txns.states entry.now.session.0 ≡ Nothing }
    requires asks { entry.now.request ≡ Run statement.now }
    requires changes { reads_alone statement.now ≡ false }
    ensures served { Serves state.old.opened state.new history.now entry.now result }
    ensures stored { Stores D.holds D.leaves D.moment D.might_have_left D.honest D.faults (world state.old.opened history.now) entry.now store.old result store.new }
    ensures opened { state.new.opened ≡ state.old.opened }
{
    match statement {
        Statement::Begin => {
            state.txns.begin(alloc, entry.session);
            Ok((Verdict::Took, Reply::Done))
        }
        Statement::Commit | Statement::Rollback => {
            Ok((Verdict::Took, Reply::Refused(Refusal::Outside)))
        }
        Statement::Checkpoint => checkpoint(alloc, &state.version, store),
        _ => {
            let asker = Asker {
                state,
                history,
                session: entry.session,
                commits: store.commits(),
            };
            let answer = answer(alloc, &asker, statement)?;
            let place = Place(history.len() as u64);
            install(alloc, state, store, place, answer)
        }
    }
}
