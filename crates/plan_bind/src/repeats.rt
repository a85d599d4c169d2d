ghost use Rattle.std.specs.Prelude.{◌≡◌, ◌∷◌, [], if◌then◌else◌};
ghost use Rattle.own_model.specs.declared.refusal.Refusal.TheVariants.{Count};
ghost use Rattle.bind_scope.specs.After.{after};
ghost use Rattle.plan_bind.specs.Repeats as spec;

use bind_scope::{Fault, Least};
use own_base::ColNo;
use own_model::BoundExpr;

/// Whether one of these sets is of this column.
fn is_set_in(sets: &[(ColNo, BoundExpr)], column: ColNo) -> bool
    ensures { result ≡ spec.is_set_in sets.now column }
{
    sets.iter().any(|set| set.0.0 == column.0)
}

/// Whether a column is set twice. It ends at the first that is: a table has few columns, so that it is soon found
/// however many are set.
#[tactic(auto, using(crate::proofs::SetTwice::here))]
fn is_repeated(sets: &[(ColNo, BoundExpr)]) -> bool
    ensures { result ≡ spec.is_repeated [] sets.now }
{
    for (number, set) in sets.iter().enumerate() {
        if is_set_in(&sets[..number], set.0) {
            return true;
        }
    }
    false
}

/// Notes where a column is set twice.
pub fn note_repeated(sets: &[(ColNo, BoundExpr)], least: &mut Least<'_>)
    ensures { least.new ≡ after least.old (if spec.is_repeated [] sets.now then Count 2 1 ∷ [] else []) }
{
    if is_repeated(sets) {
        least.note(Fault::Count { got: 2, wanted: 1 });
    }
}
