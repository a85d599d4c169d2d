ghost use Rattle.std.specs.Prelude.{◌≡◌, ◌+◌, ◌-◌, ◌*◌, IfOk, length};
ghost use Rattle.commit_check.specs.Saturated.{saturated};
ghost use Rattle.move_model.specs.Moves.{AreMovesOf};
ghost use Rattle.state_model.specs.LeadTo.{LeadTo};
ghost use Rattle.state_model.specs.Weight.{at_least_one, weight as weight_of};
ghost use Rattle.change_weight.specs.WeightAt.{names_weight, weight_at};

use crate::shown::all_shown;
use crate::touched::touched;
use commit_check::row_size;
use link_model::Linked;
use move_model::OwnerMove;
use own_base::{Change, RowName, Subject};
use std::alloc::{AllocError, Global};

/// What a row weighs of this size: once for each owner, at least once, and 64 for each that reaches it and doesn't own it.
fn owned_weight(size: u64, owners: &[Subject], reach: &[Subject]) -> u64
    ensures { result ≡ saturated (size * at_least_one (length owners.now) + 64 * (length reach.now - length owners.now)) }
{
    let count = owners.len() as u64;
    let owned = size.saturating_mul(if count == 0 { 1 } else { count });
    let seers = (reach.len() as u64).saturating_sub(count);
    owned.saturating_add(seers.saturating_mul(64))
}

/// What the row of a name weighs, where there is one, with what the views show of it.
fn weight_at<B: Linked>(store: &B, name: &RowName) -> u64
    ensures { result ≡ saturated (weight_at (B.db store.now) name.now) }
{
    if (name.table.0 as usize) >= store.schema().tables.items().len() {
        return 0;
    }
    match store.row(name) {
        Some(row) => {
            let owned = owned_weight(row_size(row), store.owners(name), store.reach(name));
            owned.saturating_add(all_shown(store.schema(), name.table, row))
        }
        None => 0,
    }
}

/// What the rows of names weigh, each counted as often as it is named.
fn names_weight<B: Linked>(store: &B, names: &[RowName]) -> u64
    ensures { result ≡ saturated (names_weight (B.db store.now) names.now) }
{
    let mut total: u64 = 0;
    for name in names {
        let weight = weight_at(store, name);
        total = total.saturating_add(weight);
    }
    total
}

/// What a store weighs after changes, as far as 64 bits tell it, given what it weighed before and which subjects stand
/// otherwise to which rows. No rows are looked at but those that changed and those whose subjects moved: what they weighed
/// is taken off, and what they weigh is added. Changes that leave a row as it was do no harm.
pub fn weight_by<B: Linked, V: Linked>(
    alloc: Global,
    before: &B,
    after: &V,
    weight: u64,
    changes: &[Change],
    moves: &[OwnerMove],
) -> Result<u64, AllocError>
    requires schema { (V.db after.now).schema ≡ (B.db before.now).schema }
    requires weight { weight_of (B.db before.now) ≡ weight }
    requires leads { LeadTo (B.db before.now) (V.db after.now) changes.now }
    requires moves { AreMovesOf (B.db before.now) (V.db after.now) moves.now }
    ensures { IfOk result (λ weighs. weighs ≡ saturated (weight_of (V.db after.now))) }
{
    let touched = touched(alloc, changes, moves)?;
    let names = touched.as_slice();
    let kept = weight - names_weight(before, names);
    Ok(kept.saturating_add(names_weight(after, names)))
}
