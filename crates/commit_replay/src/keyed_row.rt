ghost use Rattle.std.specs.Prelude.{◌≡◌, ◌↔◌, IsTrue, not};
ghost use Rattle.query_model.specs.Truth.{cell, is_null};
ghost use Rattle.state_model.specs.Rows.{IsOf64Bits, IsOfKind, IsRowOf, IsStorable};
ghost use Rattle.disk_model.specs.Lawful.{IsRowUnder};
ghost use Rattle.commit_replay.specs.Fitting.{AreFit};

use own_base::{Key, Row, Value};
use own_model::{Column, Kind, TEXT_BYTES, TableDef};
use row_reading::{cell, has_key, is_null};

/// Whether a value is of a kind.
fn is_of_kind(kind: Kind, value: &Value) -> bool
    ensures { IsTrue result ↔ IsOfKind kind value.now }
{
    match value {
        Value::Null => true,
        Value::Int(_) => matches!(kind, Kind::Int),
        Value::Text(_) => matches!(kind, Kind::Text),
        Value::Sum(_) => false,
    }
}

/// Whether a number has 64 bits, as each of its type has.
fn is_of_64_bits(number: i64) -> bool
    ensures is { IsTrue result }
    ensures of { IsOf64Bits number }
{
    let _ = number;
    true
}

/// Whether a row can hold a value: a text may be too long.
fn is_storable(value: &Value) -> bool
    ensures { IsTrue result ↔ IsStorable value.now }
{
    match value {
        Value::Int(number) => is_of_64_bits(*number),
        Value::Text(text) => text.bytes().len() <= TEXT_BYTES,
        Value::Null | Value::Sum(_) => true,
    }
}

/// Whether a value may stand in a column.
fn fits(column: &Column, value: &Value) -> bool
    ensures { IsTrue result ↔ (IsOfKind column.now.kind value.now × IsStorable value.now) }
{
    is_of_kind(column.kind, value) && is_storable(value)
}

/// Whether there is one value for each column, which may stand there.
fn are_fit(columns: &[Column], values: &[Value]) -> bool
    ensures { IsTrue result ↔ AreFit columns.now values.now }
{
    if columns.len() != values.len() {
        return false;
    }
    for (number, column) in columns.iter().enumerate() {
        if !fits(column, &values[number]) {
            return false;
        }
    }
    true
}

/// Whether what stands in a row's key column isn't NULL.
fn is_keyed(table: &TableDef, row: &Row) -> bool
    ensures { result ≡ not (is_null (cell row.now table.now.key.0)) }
{
    match cell(row, table.key) {
        Some(value) => !is_null(value),
        None => false,
    }
}

/// Whether a row may stand in a table. Takes no memory.
pub(crate) fn may_stand(table: &TableDef, row: &Row) -> bool
    ensures { IsTrue result ↔ IsRowOf table.now row.now }
{
    are_fit(table.columns.items(), row.values()) && is_keyed(table, row)
}

/// Whether a row may stand in a table under a key. Takes no memory.
pub(crate) fn is_row_under(table: &TableDef, key: &Key, row: &Row) -> bool
    ensures { IsTrue result ↔ IsRowUnder table.now key.now row.now }
{
    may_stand(table, row) && has_key(table, row, key)
}
