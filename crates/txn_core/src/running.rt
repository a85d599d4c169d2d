ghost use Rattle.std.specs.Prelude.{◌≡◌, ◌≢◌, IfErr, IfOk, OnErr};
ghost use Rattle.own_model.specs.declared.refusal.Refusal.TheVariants.{Memory};
ghost use Rattle.own_model.specs.declared.reply.Reply.TheVariants.{Refused};
ghost use Rattle.state_model.specs.Rows.{AreRowsOf};
ghost use Rattle.run_model.specs.Run.{run_bound};
ghost use Rattle.txn_space.specs.Changed.{changed_db};
ghost use Rattle.txn_space.specs.Sound.{IsSpaceOf};
ghost use Rattle.write_eval.specs.Write.{IsWrite};
ghost use Rattle.txn_core.specs.Runs.{HasRun, IsRowStatement, IsShownBy, IsStore};
ghost use Rattle.txn_core.specs.Single.{NetTo};

use crate::reading::read_in;
use crate::single_write::single;
use link_model::Linked;
use own_base::{Change, List};
use own_model::{Bound, Footprint, Refusal, Reply, Schema, StoreView};
use plan_bind::footprint;
use std::alloc::{AllocError, Global};
use std::mem::drop;
use txn_space::Space;
use view_deltas::Views;

/// The reply to a bound write over the rows as a transaction changed them, and the net of it; or why it is refused as it runs.
fn net_over<V: StoreView>(
    alloc: Global,
    space: &Space,
    version: &V,
    bound: &Bound,
    scanned: &Footprint,
) -> Result<(Reply, List<Change>), Refusal>
    requires store { IsStore (V.db version.now) }
    requires space { IsSpaceOf (V.db version.now).schema.tables space.now }
    requires rows { AreRowsOf (V.db version.now).schema.tables (changed_db (V.db version.now) space.now).rows }
    requires write { IsWrite (V.db version.now).schema bound.now }
    ensures ok { IfOk result (λ written. NetTo (changed_db (V.db version.now) space.now) (run_bound (changed_db (V.db version.now) space.now) bound.now) written.0 written.1) }
    ensures err { IfErr result (λ why. why ≢ Memory → (run_bound (changed_db (V.db version.now) space.now) bound.now).reply ≡ Refused why) }
{
    match space.merged(alloc, version, scanned) {
        Ok(merged) => single(alloc, &merged, bound),
        Err(AllocError) => Err(Refusal::Memory),
    }
}

/// The reply to a write that is refused, unless that is for want of memory.
fn refused(why: Refusal) -> Result<Reply, AllocError>
    ensures { IfOk result (λ reply. (reply ≡ Refused why) × (why ≢ Memory)) }
{
    match why {
        Refusal::Memory => Err(AllocError),
        why => Ok(Reply::Refused(why)),
    }
}

/// Runs a bound write over the rows as a transaction changed them. What it changes goes into the transaction's changes: all of
/// it, or nothing where it is refused.
fn write_in<V: StoreView>(
    alloc: Global,
    space: &mut Space,
    version: &V,
    bound: &Bound,
    scanned: &Footprint,
) -> Result<Reply, AllocError>
    requires store { IsStore (V.db version.now) }
    requires space { IsSpaceOf (V.db version.now).schema.tables space.old }
    requires rows { AreRowsOf (V.db version.now).schema.tables (changed_db (V.db version.now) space.old).rows }
    requires write { IsWrite (V.db version.now).schema bound.now }
    ensures ran { IfOk result (λ reply. HasRun (V.db version.now) bound.now space.old reply space.new) }
    ensures unchanged { OnErr result (space.new ≡ space.old) }
{
    match net_over(alloc, space, version, bound, scanned) {
        Ok((reply, changes)) => {
            let put = space.put(alloc, version, changes.items());
            drop(changes);
            put?;
            Ok(reply)
        }
        Err(why) => refused(why),
    }
}

/// What a statement reads of the tables that it may go over as a whole. An INSERT goes over none.
fn scanned(alloc: Global, schema: &Schema, bound: &Bound) -> Result<Footprint, AllocError> {
    match bound {
        Bound::Insert { .. } => Ok(List::new(alloc)),
        _ => footprint(alloc, schema, bound),
    }
}

/// Runs a bound SELECT, INSERT, UPDATE or DELETE in a transaction: over the rows of a version with what the transaction
/// changed, to which a write adds. The version is only read. A SELECT from a view whose tables the transaction left reads what is
/// kept for it.
pub(crate) fn run_in<V: Linked>(
    alloc: Global,
    space: &mut Space,
    version: &V,
    views: &Views,
    bound: &Bound,
) -> Result<Reply, AllocError>
    requires store { IsStore (V.db version.now) }
    requires space { IsSpaceOf (V.db version.now).schema.tables space.old }
    requires rows { AreRowsOf (V.db version.now).schema.tables (changed_db (V.db version.now) space.old).rows }
    requires bound { IsRowStatement (V.db version.now).schema bound.now }
    requires views { IsShownBy (V.db version.now) views.now }
    ensures ran { IfOk result (λ reply. HasRun (V.db version.now) bound.now space.old reply space.new) }
    ensures unchanged { OnErr result (space.new ≡ space.old) }
{
    let scanned = scanned(alloc, version.schema(), bound)?;
    match bound {
        Bound::Select(query) => read_in(alloc, space, version, views, query, &scanned),
        Bound::Insert { .. } | Bound::Update { .. } | Bound::Delete { .. } => {
            write_in(alloc, space, version, bound, &scanned)
        }
        Bound::Get(_) | Bound::Forget(_) | Bound::Explain => unreachable!(),
    }
}
