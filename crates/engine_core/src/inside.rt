ghost use Rattle.std.specs.Prelude.{◌≡◌, true, false};
ghost use Rattle.own_model.specs.declared.history.Verdict.TheVariants.{Took};
ghost use Rattle.own_model.specs.declared.request.Request.TheVariants.{Run};
ghost use Rattle.own_model.specs.declared.statement.Statement.TheVariants.{Commit};
ghost use Rattle.run_model.specs.Items.{TakesRows};
ghost use Rattle.history_model.specs.AsksDisk.{asks_disk};
ghost use Rattle.history_model.specs.History.{world};
ghost use Rattle.txn_core.specs.SessionStates.{is_open, state_by};
ghost use Rattle.engine_core.specs.Asked as spec;
ghost use Rattle.engine_core.specs.RepresentsWorld.{IsEvent, Serves, ServesAlone};
ghost use Rattle.engine_core.specs.Stored.{IsUp, Stores};

use crate::came::refused;
use crate::commit::commit;
use crate::installing::install;
use crate::state::State;
use crate::verdict::is_fault;
use outer_world::Disk;
use own_base::Place;
use own_model::{Entry, Refusal, Reply, Statement, Verdict};
use plan_bind::bind;
use std::alloc::{AllocError, Global};
use std::mem::drop;
use store_disk::StoreDisk;
use store_version::Shown;

/// Whether a statement has a place in a transaction.
fn has_place_inside(statement: &Statement) -> bool
    ensures { result ≡ spec.has_place_inside statement.now }
{
    matches!(
        statement,
        Statement::Select(_)
            | Statement::Insert { .. }
            | Statement::Update { .. }
            | Statement::Delete { .. }
            | Statement::Commit
            | Statement::Rollback
    )
}

/// Serves a SELECT, an INSERT, an UPDATE or a DELETE in the open transaction of its session.
fn serve_stated(
    alloc: Global,
    state: &mut State,
    history: &[Entry],
    entry: &Entry,
    statement: &Statement,
) -> Result<Reply, AllocError>
    requires event { IsEvent state.old history.now entry.now }
    requires took { entry.now.verdict ≡ Took }
    requires open { is_open (state_by state.old.txns.states entry.now.session.0) ≡ true }
    requires asks { entry.now.request ≡ Run statement.now }
    requires takes { TakesRows statement.now }
    ensures served { ServesAlone state.old.opened state.new history.now entry.now result }
    ensures unasked { asks_disk (world state.old.opened history.now) entry.now ≡ false }
    ensures opened { state.new.opened ≡ state.old.opened }
{
    let _ = history;
    match bind(alloc, state.version.catalog().schema(), statement) {
        Ok(bound) => {
            let shown = Shown {
                version: &state.version,
            };
            let replied = state.txns.statement(
                alloc,
                &shown,
                state.version.views(),
                entry.session,
                &bound,
            );
            drop(bound);
            match replied {
                Ok(reply) => Ok(reply),
                Err(why) => refused(why),
            }
        }
        Err(why) => refused(why),
    }
}

/// Serves a COMMIT of an open transaction: what it changed is left, or it is refused. Either way the transaction ends, unless
/// the disk failed.
fn serve_commit<D: Disk>(
    alloc: Global,
    state: &mut State,
    store: &mut StoreDisk<D>,
    history: &[Entry],
    entry: &Entry,
) -> Result<(Verdict, Reply), AllocError>
    requires event { IsEvent state.old history.now entry.now }
    requires took { entry.now.verdict ≡ Took }
    requires store { IsUp D.holds D.leaves D.honest store.old state.old.version }
    requires open { is_open (state_by state.old.txns.states entry.now.session.0) ≡ true }
    requires asks { entry.now.request ≡ Run Commit }
    ensures served { Serves state.old.opened state.new history.now entry.now result }
    ensures stored { Stores D.holds D.leaves D.moment D.might_have_left D.honest D.faults (world state.old.opened history.now) entry.now store.old result store.new }
    ensures opened { state.new.opened ≡ state.old.opened }
{
    let shown = Shown {
        version: &state.version,
    };
    let changes = state.txns.changes(alloc, &shown, entry.session)?;
    let answer = commit(alloc, &state.version, state.weighs, changes, Reply::Done)?;
    let place = Place(history.len() as u64);
    let (verdict, reply) = install(alloc, state, store, place, answer)?;
    if !is_fault(verdict) {
        state.txns.finish(entry.session);
    }
    Ok((verdict, reply))
}

/// Serves a statement of a session whose transaction is open.
pub(crate) fn serve_inside<D: Disk>(
    alloc: Global,
    state: &mut State,
    store: &mut StoreDisk<D>,
    history: &[Entry],
    entry: &Entry,
    statement: &Statement,
) -> Result<(Verdict, Reply), AllocError>
    requires event { IsEvent state.old history.now entry.now }
    requires took { entry.now.verdict ≡ Took }
    requires store { IsUp D.holds D.leaves D.honest store.old state.old.version }
    requires open { is_open (state_by state.old.txns.states entry.now.session.0) ≡ true }
    requires asks { entry.now.request ≡ Run statement.now }
    ensures served { Serves state.old.opened state.new history.now entry.now result }
    ensures stored { Stores D.holds D.leaves D.moment D.might_have_left D.honest D.faults (world state.old.opened history.now) entry.now store.old result store.new }
    ensures opened { state.new.opened ≡ state.old.opened }
{
    if !has_place_inside(statement) {
        return Ok((Verdict::Took, Reply::Refused(Refusal::Inside)));
    }
    match statement {
        Statement::Commit => serve_commit(alloc, state, store, history, entry),
        Statement::Rollback => {
            state.txns.finish(entry.session);
            Ok((Verdict::Took, Reply::Done))
        }
        _ => Ok((
            Verdict::Took,
            serve_stated(alloc, state, history, entry, statement)?,
        )),
    }
}
