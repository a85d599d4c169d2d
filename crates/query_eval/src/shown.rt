ghost use Rattle.std.specs.Prelude.{◌≡◌, map, IfOk};
ghost use Rattle.query_model.specs.Query.{projected, shown_item};
ghost use Rattle.query_eval.specs.ShowColumns.{is_column, show_columns};

use crate::lent_rows::LentRows;
use own_base::{List, MakeCopy, Row, Value};
use own_model::BoundItem;
use pred_eval::RowPair;
use std::alloc::{AllocError, Global};

/// What an item of a plain select shows of a row.
fn shown_item(alloc: Global, row: &RowPair<'_>, item: &BoundItem) -> Result<Value, AllocError>
    ensures { IfOk result (λ value. value ≡ shown_item row.now item.now) }
{
    match item {
        BoundItem::Column(column) => row.copied_cell(alloc, *column),
        BoundItem::Count | BoundItem::SumOf(_) => Ok(Value::Null),
    }
}

/// The row that the items of a plain select show of a row.
fn shown_row(alloc: Global, items: &[BoundItem], row: &RowPair<'_>) -> Result<Row, AllocError>
    ensures { IfOk result (λ shown. shown ≡ projected items.now row.now) }
{
    let mut shown = List::new(alloc);
    for item in items {
        shown.add(shown_item(alloc, row, item)?)?;
    }
    Ok(Row::from_values(shown))
}

/// Whether an item is the column at a place. Takes no memory.
fn is_column(item: &BoundItem, place: usize) -> bool
    ensures { result ≡ is_column place item.now }
{
    match item {
        BoundItem::Column(column) => column.0 as usize == place,
        BoundItem::Count | BoundItem::SumOf(_) => false,
    }
}

/// Whether items are the columns of a row from the first on, in their order. Takes no memory.
fn are_columns(items: &[BoundItem]) -> bool
    ensures { result ≡ show_columns 0 items.now }
{
    for place in 0..items.len() {
        if !is_column(&items[place], place) {
            return false;
        }
    }
    true
}

/// The row that items show of a row. Where they are its columns in their order it is that row, which may be shared.
fn shown_of(
    alloc: Global,
    items: &[BoundItem],
    are_columns: bool,
    row: &RowPair<'_>,
) -> Result<Row, AllocError>
    requires { are_columns ≡ show_columns 0 items.now }
    ensures { IfOk result (λ shown. shown ≡ projected items.now row.now) }
{
    if !are_columns {
        return shown_row(alloc, items, row);
    }
    match row.alone() {
        Some(whole) if whole.values().len() == items.len() => whole.copy(alloc),
        _ => shown_row(alloc, items, row),
    }
}

/// The rows that the items of a plain select show of some rows, which are copied here alone.
pub(crate) fn shown_rows(
    alloc: Global,
    items: &[BoundItem],
    rows: &LentRows<'_>,
) -> Result<List<Row>, AllocError>
    ensures { IfOk result (λ shown. shown ≡ map (projected items.now) rows.now) }
{
    let whole = are_columns(items);
    let mut shown = List::new(alloc);
    for row in rows.rows() {
        shown.add(shown_of(alloc, items, whole, row)?)?;
    }
    Ok(shown)
}
