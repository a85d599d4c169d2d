ghost use Rattle.std.specs.Prelude.{◌≡◌, ◌⊎◌, ◌≤◌, ◌∷◌, [], false, IfNone, IfSome, IsTrue, None};
ghost use Rattle.own_model.specs.declared.limit.TheConstants.{STORE_ROWS};
ghost use Rattle.own_model.specs.Db.{IsOrdered};
ghost use Rattle.schema_model.specs.Lone.{is_lone};
ghost use Rattle.schema_model.specs.OwnerSchema.{IsOwnerSchema};
ghost use Rattle.schema_model.specs.WithinLimits.{IsWithinLimits};
ghost use Rattle.state_model.specs.Fault.{fault};
ghost use Rattle.state_model.specs.Net.{net};
ghost use Rattle.state_model.specs.Put.{put};
ghost use Rattle.state_model.specs.Weight.{row_count as count_of, weight as weight_of};
ghost use Rattle.commit_check.specs.Judged.{IsJudged};
ghost use Rattle.commit_judge.specs.Unlinked.{is_unlinked};

use crate::unlinked::is_unlinked;
use change_weight::weight_by_lone_change;
use commit_check::{Judged, judge_weight, row_count};
use own_base::Change;
use own_model::{STORE_ROWS, StoreView};

/// What is judged of the state to which one change leads, before it is made, where nothing is linked with its table; given the
/// state before, which had no fault, and its weight. None where something is linked, or where a row more might be one too
/// many: then the state that the change leads to has to be looked at. Takes no memory.
pub fn judge_alone<B: StoreView>(before: &B, weight: u64, change: &Change) -> Option<Judged>
    requires limits { IsWithinLimits (B.db before.now).schema }
    requires owner { IsOwnerSchema (B.db before.now).schema }
    requires faultless { fault (B.db before.now) ≡ None }
    requires weight { weight_of (B.db before.now) ≡ weight }
    requires net { change.now ∷ [] ≡ net (B.db before.now) (put (B.db before.now) (change.now ∷ [])) }
    requires ordered { IsOrdered (put (B.db before.now) (change.now ∷ [])) }
    ensures judged { IfSome result (IsJudged (put (B.db before.now) (change.now ∷ []))) }
    ensures lone { IfSome result (λ judged. IsTrue (is_lone (B.db before.now).schema change.now.name.table.0)) }
    ensures none { IfNone result ((is_unlinked (B.db before.now).schema change.now.name.table.0 ≡ false) ⊎ (STORE_ROWS ≤ count_of (B.db before.now))) }
{
    if !is_unlinked(before.schema(), change.name.table) {
        return None;
    }
    if row_count(before) >= STORE_ROWS {
        return None;
    }
    let weighs = weight_by_lone_change(before, weight, change);
    Some(judge_weight(weighs))
}
