ghost use Rattle.std.specs.Prelude.{◌≡◌, ◌≢◌, [], false, None, IfErr, IfOk};
ghost use Rattle.own_model.specs.declared.history.Verdict.{Verdict};
ghost use Rattle.own_model.specs.declared.refusal.Refusal.TheVariants.{Memory};
ghost use Rattle.own_model.specs.declared.reply.Reply.TheVariants.{Refused};
ghost use Rattle.query_model.specs.Footprints.{footprint_of};
ghost use Rattle.state_model.specs.Net.{net};
ghost use Rattle.state_model.specs.Put.{put};
ghost use Rattle.state_model.specs.Sound.{IsWellFormed, Sound};
ghost use Rattle.run_model.specs.Run.{run_bound};
ghost use Rattle.history_model.specs.Held.{holder};
ghost use Rattle.history_model.specs.History.{world};
ghost use Rattle.history_model.specs.Reply.{unless_held, write_reply};
ghost use Rattle.write_eval.specs.Write.{IsWrite};
ghost use Rattle.disk_model.specs.declared.commit.Commit.TheVariants.{Changes};
ghost use Rattle.disk_model.specs.PutOf.{puts_of};
ghost use Rattle.crash_model.specs.Room.{Appended};
ghost use Rattle.engine_core.specs.Answered.{Tells};
ghost use Rattle.engine_core.specs.RepresentsWorld.{RepresentsWorld};

use crate::answer::Answer;
use crate::asker::Asker;
use crate::commit::commit;
use own_base::{Change, List};
use own_model::{Bound, Refusal, Reply};
use std::alloc::{AllocError, Global};
use store_version::Shown;

/// What a bound write outside a transaction is answered, and what it changes; or why it is refused: another session stands in
/// its way, or as it runs.
fn written(
    alloc: Global,
    asker: &Asker<'_>,
    bound: &Bound,
) -> Result<(Reply, List<Change>), Refusal>
    requires write { IsWrite asker.now.state.now.version.schema bound.now }
    requires sound { Sound asker.now.state.now.version }
    requires stands { RepresentsWorld asker.now.state.now (world asker.now.state.now.opened asker.now.history.now) }
    ensures free { IfOk result (λ pair. holder (world asker.now.state.now.opened asker.now.history.now) asker.now.session.0 (footprint_of asker.now.state.now.version.schema bound.now) ≡ None) }
    ensures reply { IfOk result (λ pair. (run_bound asker.now.state.now.version bound.now).reply ≡ pair.0) }
    ensures net { IfOk result (λ pair. pair.1 ≡ net asker.now.state.now.version (put asker.now.state.now.version pair.1)) }
    ensures left { IfOk result (λ pair. (run_bound asker.now.state.now.version bound.now).db ≡ put asker.now.state.now.version pair.1) }
    ensures refused { IfErr result (λ why. why ≢ Memory → (verdict : Verdict) → unless_held (world asker.now.state.now.opened asker.now.history.now) (holder (world asker.now.state.now.opened asker.now.history.now) asker.now.session.0 (footprint_of asker.now.state.now.version.schema bound.now))
        (write_reply verdict asker.now.state.now.version (run_bound asker.now.state.now.version bound.now)) ≡ Refused why) }
{
    let shown = Shown {
        version: &asker.state.version,
    };
    asker.state.txns.single(alloc, &shown, asker.session, bound)
}

/// The answer to a bound INSERT, UPDATE or DELETE outside a transaction, which commits by itself.
pub(crate) fn write(alloc: Global, asker: &Asker<'_>, bound: &Bound) -> Result<Answer, AllocError>
    requires write { IsWrite asker.now.state.now.version.schema bound.now }
    requires sound { Sound asker.now.state.now.version }
    requires stands { RepresentsWorld asker.now.state.now (world asker.now.state.now.opened asker.now.history.now) }
    requires well_formed { IsWellFormed (run_bound asker.now.state.now.version bound.now).db }
    ensures tells { IfOk result (Tells asker.now.state.now.version false (Appended (Changes (puts_of (net asker.now.state.now.version (run_bound asker.now.state.now.version bound.now).db)))) (λ verdict. unless_held (world asker.now.state.now.opened asker.now.history.now) (holder (world asker.now.state.now.opened asker.now.history.now) asker.now.session.0 (footprint_of asker.now.state.now.version.schema bound.now))
        (write_reply verdict asker.now.state.now.version (run_bound asker.now.state.now.version bound.now))) (run_bound asker.now.state.now.version bound.now).db) }
    ensures nothing { IfOk result (λ answer. answer.erased ≡ []) }
{
    match written(alloc, asker, bound) {
        Ok((reply, changes)) => {
            let state = asker.state;
            commit(alloc, &state.version, state.weighs, changes, reply)
        }
        Err(why) => Answer::refused(alloc, why),
    }
}
