//! Rows and changes that tests make. The key of a row stands in column 1, and a number that is its value in column 0.

use own_base::{Change, ColNo, Key, List, MakeCopy, Row, RowName, TableNo, Text, Value};
use std::process::Abort;

/// The column of the key.
pub const KEY: ColNo = ColNo(1);

/// The row of a key and a value.
fn row_of(rt: &(impl Abort + AllocGlobal), key: &Key, value: i64) -> Row {
    let key = match key {
        Key::Int(number) => Value::Int(*number),
        Key::Text(text) => Value::Text(text.copy(rt.alloc()).expect(rt, "memory")),
    };
    let values = vec![in rt.alloc(); Value::Int(value), key].expect(rt, "memory");
    let row = Row::from_values(List::from_vec(values));
    row.into_shared(rt.alloc()).expect(rt, "memory")
}

/// The change that puts the row of a key and a value, or takes the key's row away.
pub fn change_of(rt: &(impl Abort + AllocGlobal), key: Key, value: Option<i64>) -> Change {
    let after = match value {
        Some(value) => Some(row_of(rt, &key, value)),
        None => None,
    };
    let name = RowName {
        table: TableNo(0),
        key,
    };
    Change {
        name,
        before: None,
        after,
    }
}

/// The changes of keys that are numbers.
pub fn numbered(rt: &(impl Abort + AllocGlobal), changes: &[(i64, Option<i64>)]) -> Vec<Change> {
    let mut made = Vec::new(rt.alloc());
    for (key, value) in changes {
        made.push(change_of(rt, Key::Int(*key), *value))
            .expect(rt, "memory");
    }
    made
}

/// The changes that put rows of keys that are numbers.
pub fn rows_put(rt: &(impl Abort + AllocGlobal), rows: &[(i64, i64)]) -> Vec<Change> {
    let mut made = Vec::new(rt.alloc());
    for (key, value) in rows {
        made.push(change_of(rt, Key::Int(*key), Some(*value)))
            .expect(rt, "memory");
    }
    made
}

/// The changes that put rows of keys that are texts, each with its place as its value.
pub fn texts_put(rt: &(impl Abort + AllocGlobal), keys: &[&str]) -> Vec<Change> {
    let mut made = Vec::new(rt.alloc());
    for (value, key) in (0..i64::MAX).zip(keys) {
        let key = Key::Text(Text::from_str(rt.alloc(), *key).expect(rt, "memory"));
        made.push(change_of(rt, key, Some(value)))
            .expect(rt, "memory");
    }
    made
}

/// The key and the value of a row whose key is a number.
pub fn numbers_of(row: &Row) -> Option<(i64, i64)> {
    match (row.get(KEY), row.get(ColNo(0))) {
        (Some(Value::Int(key)), Some(Value::Int(value))) => Some((*key, *value)),
        _ => None,
    }
}

/// The value of a row.
pub fn value_of(row: &Row) -> Option<i64> {
    match row.get(ColNo(0)) {
        Some(Value::Int(value)) => Some(*value),
        _ => None,
    }
}
