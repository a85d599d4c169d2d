ghost use Rattle.std.specs.Prelude.{◌≡◌, ◌≢◌, IfOk, IfErr};
ghost use Rattle.own_model.specs.declared.refusal.Refusal.TheVariants.{Memory};
ghost use Rattle.own_model.specs.declared.reply.Reply.TheVariants.{Refused};
ghost use Rattle.query_eval.specs.Tables.{AreTables};
ghost use Rattle.run_model.specs.Run.{run_bound};
ghost use Rattle.write_eval.specs.Write.{IsWrite, table_of};
ghost use Rattle.write_eval.specs.Writes.{Answers, Writes};

use crate::delete::delete;
use crate::insert::insert;
use crate::update::update;
use crate::written::Written;
use own_model::{Bound, Refusal, StoreView};
use std::alloc::{AllocError, Global};

/// What a bound write comes to, or why it is refused.
#[tactic(auto, unfolding(run_model::specs::Run::run_bound))]
fn written_or_refused<V: StoreView>(
    alloc: Global,
    view: &V,
    bound: &Bound,
) -> Result<Result<Written, Refusal>, AllocError>
    requires write { IsWrite (V.db view.now).schema bound.now }
    requires tables { AreTables (V.db view.now).schema (V.db view.now).rows }
    ensures { IfOk result (λ answer. Answers (V.db view.now) (run_bound (V.db view.now) bound.now) (table_of bound.now) answer) }
{
    match bound {
        Bound::Insert { table, rows } => insert(alloc, view, *table, rows.items()),
        Bound::Update { table, sets, cond } => {
            update(alloc, view, *table, sets.items(), cond.as_ref())
        }
        Bound::Delete { table, cond } => Ok(Ok(delete(alloc, view, *table, cond.as_ref())?)),
        Bound::Select(_) | Bound::Get(_) | Bound::Forget(_) | Bound::Explain => unreachable!(),
    }
}

/// What a bound INSERT, UPDATE or DELETE changes in a store, which stays as it is: how many rows it puts or meets, and the
/// changes by rising key. An UPDATE lists each row that it meets, also one that ends as it was. Or why the write is refused:
/// where memory is, by `Memory`.
pub fn write_changes<V: StoreView>(
    alloc: Global,
    view: &V,
    bound: &Bound,
) -> Result<Written, Refusal>
    requires write { IsWrite (V.db view.now).schema bound.now }
    requires tables { AreTables (V.db view.now).schema (V.db view.now).rows }
    ensures ok { IfOk result (λ written. Writes (V.db view.now) (run_bound (V.db view.now) bound.now) (table_of bound.now) written) }
    ensures err { IfErr result (λ why. why ≢ Memory → (run_bound (V.db view.now) bound.now).reply ≡ Refused why) }
{
    match written_or_refused(alloc, view, bound) {
        Ok(answer) => answer,
        Err(AllocError) => Err(Refusal::Memory),
    }
}
