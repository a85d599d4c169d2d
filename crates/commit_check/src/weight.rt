ghost use Rattle.std.specs.Prelude.{◌≡◌, ◌+◌, ◌-◌, ◌*◌, ◌<◌, Some, None, if◌then◌else◌, length, nat_lt, slice_get, sum_by};
ghost use Rattle.own_base.specs.Row.{row_size};
ghost use Rattle.own_model.specs.Stored.{rows_at};
ghost use Rattle.owner_sets.specs.Sets.{AreSetsOf};
ghost use Rattle.schema_model.specs.OwnerSchema.{IsOwnerSchema};
ghost use Rattle.schema_model.specs.WithinLimits.{IsWithinLimits};
ghost use Rattle.state_model.specs.Weight.{at_least_one, item_size, row_weight, view_weight, weight};
ghost use Rattle.subject_model.specs.Named.{named_rows, rows_in};
ghost use Rattle.subject_model.specs.Owners.{owners, reach};
ghost use Rattle.commit_check.specs.Judged.{IsWeighed};
ghost use Rattle.commit_check.specs.Saturated.{saturated};

use crate::judged::{Judged, judge_weight};
use own_base::{ROW_SIZE, Row, Subject, TableNo, VALUE_SIZE};
use own_model::{
    BoundItem, LimitName, Refusal, STORE_WEIGHT, Source1, StoreView, TableDef, ViewDef,
};
use owner_sets::OwnerSets;
use row_reading::cell;

/// The size of a row, as far as 64 bits tell it. Takes no memory.
pub fn row_size(row: &Row) -> u64
    ensures { result ≡ saturated (row_size row.now) }
{
    let mut size = ROW_SIZE;
    for value in row.values() {
        size = size.saturating_add(value.size());
    }
    size
}

/// What a row weighs of this size: once for each owner, at least once, and 64 for each that reaches it and doesn't own it.
fn owned_weight(size: u64, owners: &[Subject], reach: &[Subject]) -> u64
    ensures { result ≡ saturated (size * at_least_one (length owners.now) + 64 * (length reach.now - length owners.now)) }
{
    let count = owners.len() as u64;
    let owned = size.saturating_mul(if count == 0 { 1 } else { count });
    let seers = (reach.len() as u64).saturating_sub(count);
    owned.saturating_add(seers.saturating_mul(64))
}

/// What the rows of a table weigh.
fn table_weight<V: StoreView>(
    view: &V,
    sets: &OwnerSets,
    table: TableNo,
    definition: &TableDef,
) -> u64
    requires there { slice_get (V.db view.now).schema.tables table.0 ≡ Some definition.now }
    requires owners { AreSetsOf (V.db view.now) (owners (V.db view.now)) sets.now.owners }
    requires reach { AreSetsOf (V.db view.now) (reach (V.db view.now)) sets.now.reach }
    ensures { result ≡ saturated (sum_by (row_weight (V.db view.now)) (rows_in table.0 definition.now (rows_at (V.db view.now).rows table.0))) }
{
    let mut total: u64 = 0;
    for at in 0..view.count(table) {
        let row = match view.row_at(table, at) {
            Some(row) => row,
            None => return total,
        };
        let size = row_size(row);
        let weight = owned_weight(size, sets.owners(table, at), sets.reach(table, at));
        total = total.saturating_add(weight);
    }
    total
}

/// What the rows of all tables weigh.
fn rows_weight<V: StoreView>(view: &V, sets: &OwnerSets) -> u64
    requires limits { IsWithinLimits (V.db view.now).schema }
    requires owners { AreSetsOf (V.db view.now) (owners (V.db view.now)) sets.now.owners }
    requires reach { AreSetsOf (V.db view.now) (reach (V.db view.now)) sets.now.reach }
    ensures { result ≡ saturated (sum_by (row_weight (V.db view.now)) (named_rows (V.db view.now))) }
{
    let mut total: u64 = 0;
    for (number, definition) in view.schema().tables.items().iter().enumerate() {
        let weight = table_weight(view, sets, TableNo(number as u32), definition);
        total = total.saturating_add(weight);
    }
    total
}

/// The size of what an item shows of a row.
fn item_size(row: &Row, item: &BoundItem) -> u64
    ensures { result ≡ item_size row.now item.now }
{
    match item {
        BoundItem::Column(column) => match cell(row, *column) {
            Some(value) => value.size(),
            None => VALUE_SIZE,
        },
        BoundItem::Count | BoundItem::SumOf(_) => VALUE_SIZE,
    }
}

/// The size of what a view's items show of a row, as far as 64 bits tell it. Takes no memory.
pub fn shown_size(row: &Row, items: &[BoundItem]) -> u64
    ensures { result ≡ saturated (ROW_SIZE + sum_by (item_size row.now) items.now) }
{
    let mut size = ROW_SIZE;
    for item in items {
        size = size.saturating_add(item_size(row, item));
    }
    size
}

/// The sizes of what a view over one table shows of the table's rows.
fn shown_weight<V: StoreView>(view: &V, table: TableNo, items: &[BoundItem]) -> u64
    requires { table.0 < length (V.db view.now).schema.tables }
    ensures { result ≡ saturated (sum_by (λ row. ROW_SIZE + sum_by (item_size row) items.now) (rows_at (V.db view.now).rows table.0)) }
{
    let mut total: u64 = 0;
    for at in 0..view.count(table) {
        let row = match view.row_at(table, at) {
            Some(row) => row,
            None => return total,
        };
        let size = shown_size(row, items);
        total = total.saturating_add(size);
    }
    total
}

/// What a view weighs.
fn view_weight<V: StoreView>(view: &V, definition: &ViewDef) -> u64
    ensures { result ≡ saturated (view_weight (V.db view.now) definition.now) }
{
    match definition.query.source {
        Source1::Table(table) => {
            if (table.0 as usize) < view.schema().tables.items().len() {
                shown_weight(view, table, definition.query.items.items())
            } else {
                0
            }
        }
        Source1::View(_) | Source1::Pair { .. } => 0,
    }
}

/// What is judged of a state that weighs so much, with a view more: that the weight is greater than a store may have, else
/// the weight. No row but those of the view's table is looked at. Takes no memory.
pub fn judge_view<V: StoreView>(before: &V, weight: u64, definition: &ViewDef) -> Judged
    ensures { IsWeighed (weight + view_weight (V.db before.now) definition.now) result }
{
    judge_weight(weight.saturating_add(view_weight(before, definition)))
}

/// What all views weigh.
fn views_weight<V: StoreView>(view: &V) -> u64
    ensures { result ≡ saturated (sum_by (view_weight (V.db view.now)) (V.db view.now).schema.views) }
{
    let mut total: u64 = 0;
    for definition in view.schema().views.items() {
        let weight = view_weight(view, definition);
        total = total.saturating_add(weight);
    }
    total
}

/// What all rows and views weigh, as far as 64 bits tell it, given the sets of the view's rows. Takes no memory.
#[tactic(auto, unfolding(state_model::specs::Weight::weight))]
pub(crate) fn weight_of<V: StoreView>(view: &V, sets: &OwnerSets) -> u64
    requires limits { IsWithinLimits (V.db view.now).schema }
    requires owners { AreSetsOf (V.db view.now) (owners (V.db view.now)) sets.now.owners }
    requires reach { AreSetsOf (V.db view.now) (reach (V.db view.now)) sets.now.reach }
    ensures { result ≡ saturated (weight (V.db view.now)) }
{
    rows_weight(view, sets).saturating_add(views_weight(view))
}

/// A greater weight than a store may have, given the sets of the view's rows. Takes no memory.
pub fn weight_limit_fault<V: StoreView>(view: &V, sets: &OwnerSets) -> Option<Refusal>
    requires limits { IsWithinLimits (V.db view.now).schema }
    requires owners { AreSetsOf (V.db view.now) (owners (V.db view.now)) sets.now.owners }
    requires reach { AreSetsOf (V.db view.now) (reach (V.db view.now)) sets.now.reach }
    ensures { result ≡ (if nat_lt STORE_WEIGHT (weight (V.db view.now)) then Some (Refusal.Limit LimitName.Weight) else None) }
{
    match judge_weight(weight_of(view, sets)) {
        Judged::Fault(why) => Some(why),
        Judged::Weighs(_) => None,
    }
}
