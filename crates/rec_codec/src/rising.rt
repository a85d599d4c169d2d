ghost use Rattle.std.specs.Prelude.{◌≡◌};
ghost use Rattle.std.specs.Ordering.{is_lt};
ghost use Rattle.subject_model.specs.NameOrder.{name_cmp};
ghost use Rattle.rec_codec.specs.Reading.{are_changes, rises_from};

use disk_model::Put;
use own_base::RowName;

/// Whether the one name is below the other.
fn is_below(one: &RowName, other: &RowName) -> bool
    ensures { result ≡ is_lt (name_cmp one.now other.now) }
{
    let tables = one.table.0.cmp(&other.table.0);
    tables.then(one.key.compare(&other.key)).is_lt()
}

/// Whether each change's name is below the next one's, the first name first.
#[tactic(auto, unfolding(crate::specs::Reading::rises_from))]
fn rises_from(first: &RowName, puts: &[Put]) -> bool
    ensures { result ≡ rises_from first.now puts.now }
{
    let mut last = first;
    for put in puts {
        if !is_below(last, &put.name) {
            return false;
        }
        last = &put.name;
    }
    true
}

/// Whether there is a change, and they rise strictly by table and then by key.
#[tactic(auto, unfolding(crate::specs::Reading::are_changes))]
pub(crate) fn are_changes(puts: &[Put]) -> bool
    ensures { result ≡ are_changes puts.now }
{
    match puts {
        [] => false,
        [first, rest @ ..] => rises_from(&first.name, rest),
    }
}
