ghost use Rattle.std.specs.Prelude.{◌≡◌, ◌<◌, IfOk, Some, length, map, slice_get};
ghost use Rattle.own_model.specs.declared.schema.TableDef.{TableDef as Definition};
ghost use Rattle.own_model.specs.Stored.{rows_at};
ghost use Rattle.view_deltas.specs.Inserted.{inserted};

use own_base::{Change, List, MakeCopy, Row, RowName, TableNo};
use own_model::{StoreView, TableDef};
use row_reading::{definition_of, key_of};
use std::alloc::{AllocError, Global};

/// A row of a table as the change that puts it there.
fn inserted(
    alloc: Global,
    table: TableNo,
    definition: &TableDef,
    row: &Row,
) -> Result<Change, AllocError>
    ensures { IfOk result (λ change. change ≡ inserted table definition.now row.now) }
{
    let key = key_of(alloc, definition, row)?;
    let after = row.copy(alloc)?;
    Ok(Change {
        name: RowName { table, key },
        before: None,
        after: Some(after),
    })
}

/// The row at a place of a table that has one there. Takes no memory.
fn row_at<V: StoreView>(view: &V, table: TableNo, at: u64) -> &Row
    requires table { table.0 < length (V.db view.now).schema.tables }
    requires within { at < length (rows_at (V.db view.now).rows table.0) }
    ensures { slice_get (rows_at (V.db view.now).rows table.0) at ≡ Some result.now }
{
    match view.row_at(table, at) {
        Some(row) => row,
        None => unreachable!(),
    }
}

/// The rows of a table as changes that put them there, by key.
pub(crate) fn inserts<V: StoreView>(
    alloc: Global,
    view: &V,
    table: TableNo,
) -> Result<List<Change>, AllocError>
    requires { table.0 < length (V.db view.now).schema.tables }
    ensures { IfOk result (λ changes. (definition : Definition) → slice_get (V.db view.now).schema.tables table.0 ≡ Some definition → changes ≡ map (inserted table definition) (rows_at (V.db view.now).rows table.0)) }
{
    let definition = definition_of(view, table);
    let mut changes = List::new(alloc);
    for at in 0..view.count(table) {
        let row = row_at(view, table, at);
        changes.add(inserted(alloc, table, definition, row)?)?;
    }
    Ok(changes)
}
