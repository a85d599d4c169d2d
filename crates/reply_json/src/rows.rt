ghost use Rattle.std.specs.Prelude.{◌≡◌, map, IfOk};
ghost use Rattle.serde_json.specs.Data.{array, string};
ghost use Rattle.serde_json.specs.View.{items_of, view};
ghost use Rattle.reply_json.specs.Rows.{got_data, row_data};
ghost use Rattle.reply_json.specs.Values.{cell_data, value_data};

use crate::columns::{TableNames, columns_of};
use crate::members::put_text;
use crate::values::{cell_json, value_json};
use own_base::{Name, Row, Text, Value};
use own_model::{Cell, GotRow};
use serde_json::{Map, Value as Json};
use std::alloc::{AllocError, Global};

/// Values in an array.
fn values_json(alloc: Global, values: &[Value]) -> Result<Json, AllocError>
    ensures { IfOk result (λ json. view json ≡ array (items_of (map value_data values.now))) }
{
    let mut items = Vec::with_capacity(alloc, values.len())?;
    for value in values {
        serde_json::push(&mut items, value_json(alloc, value)?)?;
    }
    Ok(Json::Array(items))
}

/// Values that a GDPR GET shows or hides, in an array.
fn cells_json(alloc: Global, cells: &[Cell]) -> Result<Json, AllocError>
    ensures { IfOk result (λ json. view json ≡ array (items_of (map cell_data cells.now))) }
{
    let mut items = Vec::with_capacity(alloc, cells.len())?;
    for cell in cells {
        serde_json::push(&mut items, cell_json(alloc, cell)?)?;
    }
    Ok(Json::Array(items))
}

/// Names in an array.
pub(crate) fn names_json(alloc: Global, names: &[Name]) -> Result<Json, AllocError>
    ensures { IfOk result (λ json. view json ≡ array (items_of (map (λ name. string name) names.now))) }
{
    let mut items = Vec::with_capacity(alloc, names.len())?;
    for name in names {
        serde_json::push(&mut items, Json::try_from_str(alloc, name.as_str())?)?;
    }
    Ok(Json::Array(items))
}

/// Lines in an array.
pub(crate) fn lines_json(alloc: Global, lines: &[Text]) -> Result<Json, AllocError>
    ensures { IfOk result (λ json. view json ≡ array (items_of (map (λ line. string line) lines.now))) }
{
    let mut items = Vec::with_capacity(alloc, lines.len())?;
    for line in lines {
        serde_json::push(&mut items, Json::try_from_str(alloc, line.as_str())?)?;
    }
    Ok(Json::Array(items))
}

/// The rows of a SELECT: an array of values for each.
pub(crate) fn rows_json(alloc: Global, rows: &[Row]) -> Result<Json, AllocError>
    ensures { IfOk result (λ json. view json ≡ array (items_of (map row_data rows.now))) }
{
    let mut items = Vec::with_capacity(alloc, rows.len())?;
    for row in rows {
        serde_json::push(&mut items, values_json(alloc, row.values())?)?;
    }
    Ok(Json::Array(items))
}

/// A row of a GDPR GET: its table, the names of the table's columns, and its values.
fn got_json(alloc: Global, tables: &[TableNames], row: &GotRow) -> Result<Json, AllocError>
    ensures { IfOk result (λ json. view json ≡ got_data tables.now row.now) }
{
    let mut members = Map::new(alloc);
    put_text(&mut members, alloc, "table", row.table.as_str())?;
    let columns = names_json(alloc, columns_of(tables, &row.table))?;
    serde_json::put(&mut members, alloc, "columns", columns)?;
    let values = cells_json(alloc, row.cells.items())?;
    serde_json::put(&mut members, alloc, "values", values)?;
    Ok(Json::Object(members))
}

/// The rows of a GDPR GET.
pub(crate) fn got_rows_json(
    alloc: Global,
    tables: &[TableNames],
    rows: &[GotRow],
) -> Result<Json, AllocError>
    ensures { IfOk result (λ json. view json ≡ array (items_of (map (got_data tables.now) rows.now))) }
{
    let mut items = Vec::with_capacity(alloc, rows.len())?;
    for row in rows {
        serde_json::push(&mut items, got_json(alloc, tables, row)?)?;
    }
    Ok(Json::Array(items))
}
