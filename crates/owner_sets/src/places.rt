ghost use Rattle.std.specs.Prelude.{◌≡◌, ◌<◌, Some, length, slice_get};
ghost use Rattle.std.specs.Option.{option_copied};
ghost use Rattle.own_model.specs.Db.{IsOrdered, IsRising, as_key};
ghost use Rattle.own_model.specs.Stored.{rows_at};
ghost use Rattle.owner_sets.specs.Links.{place_named, place_of};

use own_base::{TableNo, Value};
use own_model::{StoreView, TableDef};
use row_reading::compare_key_to;
use std::cmp::Ordering;

/// The place of the row of a table that has this key, among rows whose keys rise. It takes as many looks as the number of
/// rows has bits, and no memory.
fn searched<V: StoreView>(
    view: &V,
    table: TableNo,
    definition: &TableDef,
    key: &Value,
) -> Option<u64>
    requires there { slice_get (V.db view.now).schema.tables table.0 ≡ Some definition.now }
    requires rising { IsRising definition.now (rows_at (V.db view.now).rows table.0) }
    ensures { result ≡ place_of (V.db view.now).schema (V.db view.now).rows table.0 (as_key key.now) }
{
    let mut low = 0;
    let mut high = view.count(table);
    while low < high {
        let middle = low + (high - low) / 2;
        let row = view.row_at(table, middle)?;
        match compare_key_to(definition, row, key) {
            Ordering::Less => low = middle + 1,
            Ordering::Equal => return Some(middle),
            Ordering::Greater => high = middle,
        }
    }
    None
}

/// The place of the row of a table that has this key, where there is one.
fn place_of<V: StoreView>(view: &V, table: TableNo, key: &Value) -> Option<u64>
    requires there { table.0 < length (V.db view.now).schema.tables }
    ensures { result ≡ place_of (V.db view.now).schema (V.db view.now).rows table.0 (as_key key.now) }
{
    let definition = &view.schema().tables.items()[table.0 as usize];
    searched(view, table, definition, key)
}

/// The place of the row of a table that a value names, where it is a key and there is one. Takes no memory.
pub fn place_named<V: StoreView>(view: &V, table: TableNo, value: Option<&Value>) -> Option<u64>
    requires there { table.0 < length (V.db view.now).schema.tables }
    ensures { result ≡ place_named (V.db view.now).schema (V.db view.now).rows table.0 (option_copied value.entry) }
{
    match value {
        Some(value) => match value {
            Value::Int(_) => place_of(view, table, value),
            Value::Text(_) => place_of(view, table, value),
            Value::Null | Value::Sum(_) => None,
        },
        None => None,
    }
}
