ghost use Rattle.std.specs.Prelude.{◌≡◌, true, map, IfOk};
ghost use Rattle.std.specs.declared.option.Option.TheVariants.{Some};
ghost use Rattle.query_model.specs.Footprints.{item, keys_of};

use own_base::{Key, List, Row, TableNo};
use own_model::{FootItem, Footprint, Schema};
use row_reading::key_of;
use std::alloc::{AllocError, Global};
use std::collections::BTreeSet;

/// The keys of a table's rows, rising, each once.
fn keys_of(
    alloc: Global,
    schema: &Schema,
    table: TableNo,
    rows: &[Row],
) -> Result<BTreeSet<Key>, AllocError>
    ensures { IfOk result (λ keys. keys.keys ≡ keys_of schema.now table rows.now) }
{
    let mut keys = BTreeSet::new(alloc);
    let Some(definition) = schema.tables.items().get(table.0 as usize) else {
        return Ok(keys);
    };
    for row in rows {
        keys.insert(key_of(alloc, definition, row)?)?;
    }
    Ok(keys)
}

/// What an INSERT of these rows writes: the row of each key, whether it is there or not.
pub(crate) fn inserted_items(
    alloc: Global,
    schema: &Schema,
    table: TableNo,
    rows: &[Row],
) -> Result<Footprint, AllocError>
    ensures { IfOk result (λ items. items ≡ map (λ key. item table (Some key) true) (keys_of schema.now table rows.now)) }
{
    let mut items = List::new(alloc);
    for key in keys_of(alloc, schema, table, rows)? {
        items.add(FootItem {
            table,
            key: Some(key),
            write: true,
        })?;
    }
    Ok(items)
}
