ghost use Rattle.std.specs.Prelude.{◌≡◌, ◌<◌, ◌&&◌, IfOk, Some, length, not, slice_get, if◌then◌else◌};
ghost use Rattle.std.specs.Option.{option_copied};
ghost use Rattle.own_base.specs.declared.number.TableNo.{TableNo as Number};
ghost use Rattle.own_model.specs.declared.schema.RefKind.{RefKind as By};
ghost use Rattle.schema_model.specs.OwnerSchema.{ColumnsRefer};
ghost use Rattle.query_model.specs.Truth.{is_null};
ghost use Rattle.subject_erase.specs.Losing.{dangles_by, left_by, loses_by, loses_some_by};

use crate::flags::flag_at;
use own_base::{ColumnSet, List, MakeCopy, Row, Value};
use own_model::{Column, StoreView, TableDef};
use owner_sets::place_named;
use row_reading::{has_column, is_null};
use std::alloc::{AllocError, Global};

/// Whether a value, in a column, refers to a row that doesn't stay. Takes no memory.
fn dangles<V: StoreView>(view: &V, staying: &[List<bool>], column: &Column, value: &Value) -> bool
    requires there { (link : By × Number) → column.now.refers ≡ Some link → link.1.0 < length (V.db view.now).schema.tables }
    ensures { result ≡ dangles_by (V.db view.now).schema (V.db view.now).rows staying.now column.now value.now }
{
    match column.refers {
        Some((_, table)) => match place_named(view, table, Some(value)) {
            Some(at) => !flag_at(staying, table, at),
            None => false,
        },
        None => false,
    }
}

/// The column of a number. Takes no memory.
fn column_at(definition: &TableDef, number: usize) -> Option<&Column>
    ensures { option_copied result ≡ slice_get definition.now.columns number }
{
    definition.columns.items().get(number)
}

/// Whether a row loses the value in the column of a number: one of those that are ruled, or a reference to a row that
/// doesn't stay. Takes no memory.
fn loses<V: StoreView>(
    view: &V,
    staying: &[List<bool>],
    definition: &TableDef,
    ruled: ColumnSet,
    number: usize,
    value: &Value,
) -> bool
    requires refer { ColumnsRefer (V.db view.now).schema definition.now }
    ensures { result ≡ loses_by (V.db view.now).schema (V.db view.now).rows staying.now definition.now ruled (number, value.now) }
{
    if has_column(ruled, number) {
        return true;
    }
    match column_at(definition, number) {
        Some(column) => dangles(view, staying, column, value),
        None => false,
    }
}

/// Whether it does, and the value isn't NULL. Takes no memory.
fn loses_value<V: StoreView>(
    view: &V,
    staying: &[List<bool>],
    definition: &TableDef,
    ruled: ColumnSet,
    number: usize,
    value: &Value,
) -> bool
    requires refer { ColumnsRefer (V.db view.now).schema definition.now }
    ensures { result ≡ (loses_by (V.db view.now).schema (V.db view.now).rows staying.now definition.now ruled (number, value.now) && not (is_null value.now)) }
{
    let loses = loses(view, staying, definition, ruled, number, value);
    loses && !is_null(value)
}

/// Whether a row loses a value that isn't NULL. Takes no memory.
pub(crate) fn loses_some<V: StoreView>(
    view: &V,
    staying: &[List<bool>],
    definition: &TableDef,
    ruled: ColumnSet,
    row: &Row,
) -> bool
    requires refer { ColumnsRefer (V.db view.now).schema definition.now }
    ensures { result ≡ loses_some_by (V.db view.now).schema (V.db view.now).rows staying.now definition.now ruled row.now }
{
    for (number, value) in row.values().iter().enumerate() {
        if loses_value(view, staying, definition, ruled, number, value) {
            return true;
        }
    }
    false
}

/// What stands in a column of a row that is left.
fn value_left<V: StoreView>(
    alloc: Global,
    view: &V,
    staying: &[List<bool>],
    definition: &TableDef,
    ruled: ColumnSet,
    number: usize,
    value: &Value,
) -> Result<Value, AllocError>
    requires refer { ColumnsRefer (V.db view.now).schema definition.now }
    ensures { IfOk result (λ left. left ≡ (if loses_by (V.db view.now).schema (V.db view.now).rows staying.now definition.now ruled (number, value.now) then Value.Null else value.now)) }
{
    if loses(view, staying, definition, ruled, number, value) {
        Ok(Value::Null)
    } else {
        value.copy(alloc)
    }
}

/// What is left of a row: NULL in place of each value that it loses.
pub(crate) fn row_left<V: StoreView>(
    alloc: Global,
    view: &V,
    staying: &[List<bool>],
    definition: &TableDef,
    ruled: ColumnSet,
    row: &Row,
) -> Result<Row, AllocError>
    requires refer { ColumnsRefer (V.db view.now).schema definition.now }
    ensures { IfOk result (λ left. left ≡ left_by (V.db view.now).schema (V.db view.now).rows staying.now definition.now ruled row.now) }
{
    let mut values = List::new(alloc);
    for (number, value) in row.values().iter().enumerate() {
        values.add(value_left(alloc, view, staying, definition, ruled, number, value)?)?;
    }
    Row::from_values(values).into_shared(alloc)
}
