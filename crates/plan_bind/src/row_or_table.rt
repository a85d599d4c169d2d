ghost use Rattle.std.specs.Prelude.{◌≡◌, IfOk};
ghost use Rattle.std.specs.Option.{option_copied};
ghost use Rattle.query_model.specs.Footprints.{by_condition, key_column};

use own_base::{ColNo, List, TableNo};
use own_model::{BoundCond, FootItem, Footprint, Schema};
use pred_eval::pinned_key;
use std::alloc::{AllocError, Global};

/// The column of a table's primary key. Takes no memory.
fn key_column(schema: &Schema, table: TableNo) -> ColNo
    ensures { result.0 ≡ key_column schema.now table }
{
    match schema.tables.items().get(table.0 as usize) {
        Some(definition) => definition.key,
        None => ColNo(0),
    }
}

/// What a statement with this condition is about, by the condition's form: the row whose primary key it pins, or the
/// whole table.
pub(crate) fn row_or_table(
    alloc: Global,
    schema: &Schema,
    table: TableNo,
    cond: Option<&BoundCond>,
    write: bool,
) -> Result<Footprint, AllocError>
    ensures { IfOk result (λ items. items ≡ by_condition schema.now table (option_copied cond.entry) write) }
{
    let key = pinned_key(alloc, cond, key_column(schema, table))?;
    let mut items = List::new(alloc);
    items.add(FootItem { table, key, write })?;
    Ok(items)
}
