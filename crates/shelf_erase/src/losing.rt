ghost use Rattle.std.specs.Prelude.{◌≡◌, IfOk, slice_get};
ghost use Rattle.std.specs.Option.{option_copied};
ghost use Rattle.shelf_erase.specs.ChangeAt.{as_named};
ghost use Rattle.shelf_erase.specs.Lost.{blanked_by, dangles_by, left_by, loses_by, loses_some_by, loses_value, names_removed, value_left};

use crate::changes::Changes;
use own_base::{Change, ColumnSet, Key, List, MakeCopy, Row, RowName, TableNo, Value};
use own_model::{Column, TableDef};
use row_reading::{has_column, is_null, literal_key};
use std::alloc::{AllocError, Global};

/// Whether a key names a row of a table that goes.
fn names_removed(removals: &Changes, table: TableNo, key: Option<Key>) -> bool
    ensures { result ≡ names_removed removals.now table key }
{
    match key {
        Some(key) => removals.has(&RowName { table, key }),
        None => false,
    }
}

/// Whether a value, in a column, refers to a row that goes.
fn dangles(
    alloc: Global,
    removals: &Changes,
    column: &Column,
    value: &Value,
) -> Result<bool, AllocError>
    ensures { IfOk result (λ dangles. dangles ≡ dangles_by removals.now column.now value.now) }
{
    match column.refers {
        Some((_, table)) => {
            let key = literal_key(alloc, Some(value))?;
            Ok(names_removed(removals, table, key))
        }
        None => Ok(false),
    }
}

/// The column of a number. Takes no memory.
fn column_at(definition: &TableDef, number: usize) -> Option<&Column>
    ensures { option_copied result ≡ slice_get definition.now.columns number }
{
    definition.columns.items().get(number)
}

/// Whether a row loses the value in the column of a number: one of those that are ruled, or a reference to a row that goes.
fn loses(
    alloc: Global,
    removals: &Changes,
    definition: &TableDef,
    ruled: ColumnSet,
    number: usize,
    value: &Value,
) -> Result<bool, AllocError>
    ensures { IfOk result (λ loses. loses ≡ loses_by removals.now definition.now ruled (number, value.now)) }
{
    if has_column(ruled, number) {
        return Ok(true);
    }
    match column_at(definition, number) {
        Some(column) => dangles(alloc, removals, column, value),
        None => Ok(false),
    }
}

/// Whether it does, and the value isn't NULL.
fn loses_value(
    alloc: Global,
    removals: &Changes,
    definition: &TableDef,
    ruled: ColumnSet,
    number: usize,
    value: &Value,
) -> Result<bool, AllocError>
    ensures { IfOk result (λ loses. loses ≡ loses_value removals.now definition.now ruled (number, value.now)) }
{
    let loses = loses(alloc, removals, definition, ruled, number, value)?;
    Ok(loses && !is_null(value))
}

/// Whether a row loses a value that isn't NULL.
fn loses_some(
    alloc: Global,
    removals: &Changes,
    definition: &TableDef,
    ruled: ColumnSet,
    row: &Row,
) -> Result<bool, AllocError>
    ensures { IfOk result (λ loses. loses ≡ loses_some_by removals.now definition.now ruled row.now) }
{
    for (number, value) in row.values().iter().enumerate() {
        let loses = loses_value(alloc, removals, definition, ruled, number, value)?;
        if loses {
            return Ok(true);
        }
    }
    Ok(false)
}

/// What stands in a column of a row that is left.
fn value_left(
    alloc: Global,
    removals: &Changes,
    definition: &TableDef,
    ruled: ColumnSet,
    number: usize,
    value: &Value,
) -> Result<Value, AllocError>
    ensures { IfOk result (λ left. left ≡ value_left removals.now definition.now ruled (number, value.now)) }
{
    let loses = loses(alloc, removals, definition, ruled, number, value)?;
    if loses {
        Ok(Value::Null)
    } else {
        value.copy(alloc)
    }
}

/// What is left of a row: NULL in place of each value that it loses. Its copies share it.
fn row_left(
    alloc: Global,
    removals: &Changes,
    definition: &TableDef,
    ruled: ColumnSet,
    row: &Row,
) -> Result<Row, AllocError>
    ensures { IfOk result (λ left. left ≡ left_by removals.now definition.now ruled row.now) }
{
    let mut values = List::new(alloc);
    for (number, value) in row.values().iter().enumerate() {
        let left = value_left(alloc, removals, definition, ruled, number, value)?;
        values.add(left)?;
    }
    Row::from_values(values).into_shared(alloc)
}

/// What becomes of a row that stays, given the changes by which rows go, and the columns that are ruled.
pub(crate) fn blanked_row(
    alloc: Global,
    removals: &Changes,
    definition: &TableDef,
    ruled: ColumnSet,
    name: &RowName,
    row: &Row,
) -> Result<Option<Change>, AllocError>
    ensures { IfOk result (λ change. change ≡ blanked_by removals.now definition.now ruled (as_named name.now row.now)) }
{
    let loses = loses_some(alloc, removals, definition, ruled, row)?;
    if !loses {
        return Ok(None);
    }
    let name = name.copy(alloc)?;
    let before = row.copy(alloc)?;
    let left = row_left(alloc, removals, definition, ruled, row)?;
    Ok(Some(Change {
        name,
        before: Some(before),
        after: Some(left),
    }))
}
