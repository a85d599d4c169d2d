ghost use Rattle.std.specs.Prelude.{◌≡◌, IfOk, unwrap_or};
ghost use Rattle.std.specs.Option.{option_copied};
ghost use Rattle.own_base.specs.Key.{key_cmp};
ghost use Rattle.own_base.specs.declared.value.Key.TheVariants.{Int};
ghost use Rattle.own_model.specs.Db.{as_key, key_of};
ghost use Rattle.own_model.specs.Stored.{has_key};
ghost use Rattle.query_model.specs.Footprints.{literal_key};

use own_base::{Key, MakeCopy, Row, Value};
use own_model::TableDef;
use std::alloc::{AllocError, Global};
use std::cmp::Ordering;

/// A value as a key. What stands in no primary key counts as 0.
fn as_key(alloc: Global, value: Option<&Value>) -> Result<Key, AllocError>
    ensures { IfOk result (λ key. key ≡ as_key (unwrap_or (option_copied value.entry) Value.Null)) }
{
    match value {
        Some(Value::Int(number)) => Ok(Key::Int(*number)),
        Some(Value::Text(text)) => Ok(Key::Text(text.copy(alloc)?)),
        Some(Value::Null | Value::Sum(_)) | None => Ok(Key::Int(0)),
    }
}

/// The primary key of a table's row. A value that stands in no primary key counts as 0.
#[tactic(auto, unfolding(own_model::specs::Db::key_of), using(crate::proofs::AbsentColumns::absent_columns))]
pub fn key_of(alloc: Global, definition: &TableDef, row: &Row) -> Result<Key, AllocError>
    ensures { IfOk result (λ key. key ≡ key_of definition.now row.now) }
{
    as_key(alloc, row.get(definition.key))
}

/// The key that a value names; none and NULL name none.
pub fn literal_key(alloc: Global, value: Option<&Value>) -> Result<Option<Key>, AllocError>
    ensures { IfOk result (λ key. key ≡ literal_key (unwrap_or (option_copied value.entry) Value.Null)) }
{
    match value {
        Some(Value::Int(number)) => Ok(Some(Key::Int(*number))),
        Some(Value::Text(text)) => Ok(Some(Key::Text(text.copy(alloc)?))),
        Some(Value::Null | Value::Sum(_)) | None => Ok(None),
    }
}

/// How a number stands to a key.
fn compare_number(left: &i64, right: &Key) -> Ordering
    ensures { result ≡ key_cmp (Int left.now) right.now }
{
    match right {
        Key::Int(right) => left.cmp(right),
        Key::Text(_) => Ordering::Less,
    }
}

/// How a value as a key stands to a key. What stands in no primary key counts as 0.
fn compare_value(left: Option<&Value>, right: &Key) -> Ordering
    ensures { result ≡ key_cmp (as_key (unwrap_or (option_copied left.entry) Value.Null)) right.now }
{
    match left {
        Some(Value::Int(left)) => compare_number(left, right),
        Some(Value::Text(left)) => match right {
            Key::Text(right) => left.cmp(right),
            Key::Int(_) => Ordering::Greater,
        },
        Some(Value::Null | Value::Sum(_)) | None => compare_number(&0, right),
    }
}

/// How the primary key of a table's row stands to a key. Takes no memory.
#[tactic(auto, unfolding(own_model::specs::Db::key_of), using(crate::proofs::AbsentColumns::absent_columns))]
pub fn compare_key(definition: &TableDef, row: &Row, key: &Key) -> Ordering
    ensures { result ≡ key_cmp (key_of definition.now row.now) key.now }
{
    compare_value(row.get(definition.key), key)
}

/// Whether a row of a table has this key. Takes no memory.
pub fn has_key(definition: &TableDef, row: &Row, key: &Key) -> bool
    ensures { result ≡ has_key definition.now key.now row.now }
{
    compare_key(definition, row, key).is_eq()
}

/// How a number stands to a value as a key.
fn compare_number_to(left: &i64, right: &Value) -> Ordering
    ensures { result ≡ key_cmp (Int left.now) (as_key right.now) }
{
    match right {
        Value::Int(right) => left.cmp(right),
        Value::Text(_) => Ordering::Less,
        Value::Null | Value::Sum(_) => left.cmp(&0),
    }
}

/// How a value stands to another as a key. What stands in no primary key counts as 0.
fn compare_value_to(left: &Value, right: &Value) -> Ordering
    ensures { result ≡ key_cmp (as_key left.now) (as_key right.now) }
{
    match left {
        Value::Int(left) => compare_number_to(left, right),
        Value::Text(left) => match right {
            Value::Text(right) => left.cmp(right),
            Value::Int(_) | Value::Null | Value::Sum(_) => Ordering::Greater,
        },
        Value::Null | Value::Sum(_) => compare_number_to(&0, right),
    }
}

/// How the primary key of a table's row stands to a value as a key. Takes no memory.
#[tactic(auto, unfolding(own_model::specs::Db::key_of), using(crate::proofs::AbsentColumns::absent_columns))]
pub fn compare_key_to(definition: &TableDef, row: &Row, value: &Value) -> Ordering
    ensures { result ≡ key_cmp (key_of definition.now row.now) (as_key value.now) }
{
    match row.get(definition.key) {
        Some(key) => compare_value_to(key, value),
        None => compare_number_to(&0, value),
    }
}
