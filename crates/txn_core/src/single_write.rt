ghost use Rattle.std.specs.Prelude.{◌≡◌, ◌≢◌, IfErr, IfOk, false};
ghost use Rattle.own_model.specs.declared.refusal.Refusal.TheVariants.{Memory};
ghost use Rattle.own_model.specs.declared.reply.Reply.TheVariants.{Refused};
ghost use Rattle.history_model.specs.Reply.{is_refusal};
ghost use Rattle.query_eval.specs.Tables.{AreTables};
ghost use Rattle.run_model.specs.Run.{run_bound};
ghost use Rattle.write_eval.specs.Write.{IsWrite};
ghost use Rattle.txn_core.specs.Single.{NetTo};

use own_base::{Change, List};
use own_model::{Bound, Refusal, Reply, StoreView};
use std::alloc::Global;
use txn_space::net_of_write;
use write_eval::write_changes;

/// A write outside a transaction: the reply to it, and the net of what it changes, by table, then key; or why it is refused
/// as it runs. Where memory is refused, it is `Memory`. The view is only read.
pub(crate) fn single<V: StoreView>(
    alloc: Global,
    view: &V,
    bound: &Bound,
) -> Result<(Reply, List<Change>), Refusal>
    requires write { IsWrite (V.db view.now).schema bound.now }
    requires tables { AreTables (V.db view.now).schema (V.db view.now).rows }
    ensures ok { IfOk result (λ written. NetTo (V.db view.now) (run_bound (V.db view.now) bound.now) written.0 written.1) }
    ensures accepted { IfOk result (λ written. is_refusal written.0 ≡ false) }
    ensures err { IfErr result (λ why. why ≢ Memory → (run_bound (V.db view.now) bound.now).reply ≡ Refused why) }
{
    let written = write_changes(alloc, view, bound)?;
    let reply = Reply::Counted(written.count);
    Ok((reply, net_of_write(written.changes)))
}
