ghost use Rattle.std.specs.Prelude.{◌≡◌, slice_index_or};
ghost use Rattle.own_base.specs.Key.{key_cmp};
ghost use Rattle.own_model.specs.Db.{as_key, key_of};
ghost use Rattle.own_base.specs.declared.value.Key.TheVariants as key;
ghost use Rattle.own_base.specs.declared.value.Value.TheVariants.{Null};
ghost use Rattle.query_tests.specs.KeyRef.{key_seen};

use own_base::{Key, Row, Text, Value};
use own_model::TableDef;
use std::cmp::Ordering;

/// A key of a row, lent.
#[derive(Clone, Copy)]
pub enum KeyRef<'a> {
    Int(i64),
    Text(&'a Text),
}

/// What stands in a column, as a key.
fn key_at(values: &[Value], column: usize) -> KeyRef<'_>
    ensures { key_seen result ≡ as_key (slice_index_or values.now column Null) }
{
    match values.get(column) {
        Some(Value::Int(number)) => KeyRef::Int(*number),
        Some(Value::Text(text)) => KeyRef::Text(text),
        Some(Value::Null | Value::Sum(_)) | None => KeyRef::Int(0),
    }
}

/// The primary key of a table's row.
#[tactic(auto, unfolding(own_model::specs::Db::key_of))]
pub fn key_of<'a>(table: &TableDef, row: &'a Row) -> KeyRef<'a>
    ensures { key_seen result ≡ key_of table.now row.now }
{
    key_at(row.values(), table.key.0 as usize)
}

/// A key, lent.
pub fn lent(key: &Key) -> KeyRef<'_>
    ensures { key_seen result ≡ key.now }
{
    match key {
        Key::Int(number) => KeyRef::Int(*number),
        Key::Text(text) => KeyRef::Text(text),
    }
}

/// How a number stands to a key.
fn compare_number(left: i64, right: KeyRef) -> Ordering
    ensures { result ≡ key_cmp (key.Int left) (key_seen right.entry) }
{
    match right {
        KeyRef::Int(right) => left.cmp(&right),
        KeyRef::Text(_) => Ordering::Less,
    }
}

/// How a text stands to a key.
fn compare_text(left: &Text, right: KeyRef) -> Ordering
    ensures { result ≡ key_cmp (key.Text left.now) (key_seen right.entry) }
{
    match right {
        KeyRef::Int(_) => Ordering::Greater,
        KeyRef::Text(right) => left.cmp(right),
    }
}

/// How one key stands to another.
pub fn compare(left: KeyRef, right: KeyRef) -> Ordering
    ensures { result ≡ key_cmp (key_seen left.entry) (key_seen right.entry) }
{
    match left {
        KeyRef::Int(left) => compare_number(left, right),
        KeyRef::Text(left) => compare_text(left, right),
    }
}
