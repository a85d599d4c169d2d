//! Whether changes may be handed in.

ghost use Rattle.std.specs.Prelude.{◌≡◌, false, MatchBool, IfSome, ⊤};
ghost use Rattle.std.specs.List.{AllByRecursion};
ghost use Rattle.std.specs.Ordering.{is_eq};
ghost use Rattle.own_base.specs.Key.{key_cmp};
ghost use Rattle.page_model.specs.Changed.{AreKeyed};
ghost use Rattle.state_model.specs.MayBePut.{KeysDiffer};
ghost use Rattle.state_model.specs.Put.{changed_key, row_after};
ghost use Rattle.table_part.specs.KeyIn.{key_in};

use crate::made::KEY;
use own_base::{Change, Key, Row, Value};

/// Whether a change's key differs from those of all these.
fn is_apart(change: &Change, others: &[Change]) -> bool
    ensures { MatchBool result (AllByRecursion (λ other. is_eq (key_cmp (changed_key change.now) (changed_key other)) ≡ false) others.now) ⊤ }
{
    match others.split_first() {
        Some((other, rest)) => {
            change.name.key.compare(&other.name.key).is_ne() && is_apart(change, rest)
        }
        None => true,
    }
}

/// Whether no key stands twice.
#[tactic(auto, using(crate::proofs::Differing::none_differ, crate::proofs::Differing::more_differ))]
pub fn keys_differ(changes: &[Change]) -> bool
    ensures { MatchBool result (KeysDiffer changes.now) ⊤ }
{
    match changes.split_first() {
        Some((first, rest)) => is_apart(first, rest) && keys_differ(rest),
        None => true,
    }
}

/// Whether the row has this key.
#[tactic(auto, unfolding(table_part::specs::KeyIn::key_in))]
fn has_key(row: &Row, key: &Key) -> bool
    ensures { MatchBool result (key_in KEY row.now ≡ key.now) ⊤ }
{
    match (row.values().get(KEY.0 as usize), key) {
        (Some(Value::Int(left)), Key::Int(right)) => *left == *right,
        (Some(Value::Text(left)), Key::Text(right)) => left == right,
        _ => false,
    }
}

/// Whether a row that is put has its change's key.
pub fn is_keyed(change: &Change) -> bool
    ensures { MatchBool result (IfSome (row_after change.now) (λ row. key_in KEY row ≡ changed_key change.now)) ⊤ }
{
    match &change.after {
        Some(row) => has_key(row, &change.name.key),
        None => true,
    }
}

/// Whether each row that is put has its change's key.
pub fn are_keyed(changes: &[Change]) -> bool
    ensures { MatchBool result (AreKeyed (key_in KEY) changed_key row_after changes.now) ⊤ }
{
    match changes.split_first() {
        Some((first, rest)) => is_keyed(first) && are_keyed(rest),
        None => true,
    }
}
