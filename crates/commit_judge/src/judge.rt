ghost use Rattle.std.specs.Prelude.{◌≡◌, ◌++◌, IfOk, None};
ghost use Rattle.std.specs.List.{AllByRecursion};
ghost use Rattle.own_model.specs.Db.{Db, IsOrdered};
ghost use Rattle.owner_model.specs.Joins.{row_of};
ghost use Rattle.move_model.specs.Moves.{AreMovesOf};
ghost use Rattle.schema_model.specs.OwnerSchema.{IsOwnerSchema};
ghost use Rattle.schema_model.specs.WithinLimits.{IsWithinLimits};
ghost use Rattle.state_model.specs.Fault.{fault, first_of, owner_faults, reference_faults, unique_faults};
ghost use Rattle.state_model.specs.LeadTo.{LeadTo};
ghost use Rattle.state_model.specs.Rows.{AreRowsOf};
ghost use Rattle.state_model.specs.Weight.{weight as weight_of};
ghost use Rattle.commit_check.specs.Judged.{IsJudged};

use change_check::{first_owner_fault_by, first_reference_fault_by, first_unique_fault_by};
use change_weight::weight_by;
use commit_check::{Judged, judge_weight, row_limit_fault};
use link_model::Linked;
use move_model::OwnerMove;
use own_base::Change;
use own_model::Refusal;
use std::alloc::{AllocError, Global};

/// The first fault of a UNIQUE column, else of a reference, else a row without an owner.
fn first_row_fault<V: Linked>(
    alloc: Global,
    after: &V,
    changes: &[Change],
    moves: &[OwnerMove],
) -> Result<Option<Refusal>, AllocError>
    requires limits { IsWithinLimits (V.db after.now).schema }
    requires owner { IsOwnerSchema (V.db after.now).schema }
    requires rows { AreRowsOf (V.db after.now).schema.tables (V.db after.now).rows }
    requires told { AllByRecursion (λ change. change.after ≡ row_of (V.db after.now) change.name) changes.now }
    ensures { (before : Db) → IsOrdered before → before.schema ≡ (V.db after.now).schema → LeadTo before (V.db after.now) changes.now → AreMovesOf before (V.db after.now) moves.now
        → fault before ≡ None → IfOk result (λ first. first ≡ first_of (unique_faults (V.db after.now) ++ reference_faults (V.db after.now) ++ owner_faults (V.db after.now))) }
{
    if let Some(unique) = first_unique_fault_by(alloc, after, changes)? {
        return Ok(Some(unique));
    }
    if let Some(reference) = first_reference_fault_by(alloc, after, changes)? {
        return Ok(Some(reference));
    }
    first_owner_fault_by(alloc, after, changes, moves)
}

/// What is judged of a store's state, given the state before, which had no fault, its weight, the changes that lead from it to
/// this one, and the moves: the first fault of a UNIQUE column, else of a reference, else a row without an owner, else more
/// rows or a greater weight than a store may have, else the weight. No rows are looked at but those that changed or moved, and
/// those that hold what one came to hold, or refer to one that went.
pub fn judge_by<B: Linked, V: Linked>(
    alloc: Global,
    before: &B,
    after: &V,
    weight: u64,
    changes: &[Change],
    moves: &[OwnerMove],
) -> Result<Judged, AllocError>
    requires schema { (V.db after.now).schema ≡ (B.db before.now).schema }
    requires limits { IsWithinLimits (B.db before.now).schema }
    requires owner { IsOwnerSchema (B.db before.now).schema }
    requires rows { AreRowsOf (V.db after.now).schema.tables (V.db after.now).rows }
    requires faultless { fault (B.db before.now) ≡ None }
    requires weight { weight_of (B.db before.now) ≡ weight }
    requires leads { LeadTo (B.db before.now) (V.db after.now) changes.now }
    requires moves { AreMovesOf (B.db before.now) (V.db after.now) moves.now }
    ensures { IfOk result (IsJudged (V.db after.now)) }
{
    if let Some(first) = first_row_fault(alloc, after, changes, moves)? {
        return Ok(Judged::Fault(first));
    }
    if let Some(rows) = row_limit_fault(after) {
        return Ok(Judged::Fault(rows));
    }
    let weighs = weight_by(alloc, before, after, weight, changes, moves)?;
    Ok(judge_weight(weighs))
}
