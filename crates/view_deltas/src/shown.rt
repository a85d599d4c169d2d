ghost use Rattle.std.specs.Prelude.{◌≡◌, map, IfOk};
ghost use Rattle.query_model.specs.Query.{projected, shown_item};
ghost use Rattle.view_deltas.specs.Shown.{shown_of};

use own_base::{List, MakeCopy, Row, Value};
use own_model::{BoundItem, BoundSelect};
use pred_eval::{RowPair, keeps_row};
use std::alloc::{AllocError, Global};

/// What an item of a select that isn't grouped shows of a row.
fn shown_item(alloc: Global, row: &RowPair<'_>, item: &BoundItem) -> Result<Value, AllocError>
    ensures { IfOk result (λ value. value ≡ shown_item row.now item.now) }
{
    match item {
        BoundItem::Column(column) => row.copied_cell(alloc, *column),
        BoundItem::Count | BoundItem::SumOf(_) => Ok(Value::Null),
    }
}

/// The row that the items of such a select show of a row. Copies of it share its values.
fn projected(alloc: Global, items: &[BoundItem], row: &RowPair<'_>) -> Result<Row, AllocError>
    ensures { IfOk result (λ shown. shown ≡ projected items.now row.now) }
{
    let mut shown = List::new(alloc);
    for item in items {
        shown.add(shown_item(alloc, row, item)?)?;
    }
    Row::from_values(shown).into_shared(alloc)
}

/// What a view that isn't grouped shows of a row of its source, where WHERE keeps the row.
#[tactic(auto, unfolding(crate::specs::Shown::shown_of))]
pub(crate) fn shown_of(
    alloc: Global,
    query: &BoundSelect,
    row: &RowPair<'_>,
) -> Result<Option<Row>, AllocError>
    ensures { IfOk result (λ shown. shown ≡ shown_of query.now row.now) }
{
    if keeps_row(query.cond.as_ref(), row) {
        Ok(Some(projected(alloc, query.items.items(), row)?))
    } else {
        Ok(None)
    }
}
