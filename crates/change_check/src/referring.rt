ghost use Rattle.std.specs.Prelude.{◌≡◌, ◌<◌, ◌^◌, true, IfOk, IsTrue, None, Some, length, slice_get};
ghost use Rattle.owner_model.specs.Joins.{row_of};
ghost use Rattle.schema_model.specs.WithinLimits.{IsWithinLimits};
ghost use Rattle.link_model.specs.Indexed.{is_indexed_at};
ghost use Rattle.change_check.specs.declared.cell_name.CellName.{CellName as Cell};
ghost use Rattle.change_check.specs.declared.refusing.Rule.TheVariants.{Reference};
ghost use Rattle.change_check.specs.Dangling.{RefersTo, referring_to, refers_to};
ghost use Rattle.change_check.specs.Least.{IsFurther, is_reached};
ghost use Rattle.change_check.specs.Rule.{breaks_at, breaks_by};

use crate::cell_name::{CellName, lower};
use crate::holders::first_holder;
use link_model::Linked;
use own_base::{ColNo, RowName, TableNo};
use own_model::{Column, TableDef};
use std::alloc::{AllocError, Global};

/// Whether a column refers to a table.
fn refers_to(table: TableNo, column: &Column) -> bool
    ensures { result ≡ refers_to table column.now }
{
    match column.refers {
        Some((_, to)) => to.0 == table.0,
        None => false,
    }
}

/// The first cell of a column that refers to a row.
fn referring_to<V: Linked>(
    alloc: Global,
    view: &V,
    name: &RowName,
    table: TableNo,
    number: ColNo,
    column: &Column,
) -> Result<Option<CellName>, AllocError>
    requires { refers_to name.now.table column.now ≡ true → IsTrue (is_indexed_at (V.db view.now).schema table.0 number.0) }
    ensures { IfOk result (λ referring. referring ≡ referring_to (V.db view.now) name.now table.0 number.0 column.now) }
{
    if !refers_to(name.table, column) {
        return Ok(None);
    }
    first_holder(alloc, view, table, number, &name.key)
}

/// What was found, taken further by the columns of a table that refer to a row that isn't there.
fn referring_in_columns<V: Linked>(
    alloc: Global,
    view: &V,
    name: &RowName,
    table: TableNo,
    definition: &TableDef,
    found: Option<CellName>,
) -> Result<Option<CellName>, AllocError>
    requires there { slice_get (V.db view.now).schema.tables table.0 ≡ Some definition.now }
    requires limits { length definition.now.columns < 2 ^ 32 }
    requires gone { row_of (V.db view.now) name.now ≡ None }
    ensures further { IfOk result (λ least. IsFurther (breaks_at (breaks_by Reference (V.db view.now)) (V.db view.now)) found least) }
    ensures caught { IfOk result (λ least. (cell : Cell) → cell.row.table.0 ≡ table.0 → RefersTo (V.db view.now) name.now cell → is_reached least cell ≡ true) }
{
    let mut least = found;
    for (at, column) in definition.columns.items().iter().enumerate() {
        let referring = referring_to(alloc, view, name, table, ColNo(at as u32), column)?;
        least = lower(referring, least);
    }
    Ok(least)
}

/// What was found, taken further by all columns that refer to a row that isn't there.
pub(crate) fn referring_in_tables<V: Linked>(
    alloc: Global,
    view: &V,
    name: &RowName,
    found: Option<CellName>,
) -> Result<Option<CellName>, AllocError>
    requires limits { IsWithinLimits (V.db view.now).schema }
    requires gone { row_of (V.db view.now) name.now ≡ None }
    ensures further { IfOk result (λ least. IsFurther (breaks_at (breaks_by Reference (V.db view.now)) (V.db view.now)) found least) }
    ensures caught { IfOk result (λ least. (cell : Cell) → RefersTo (V.db view.now) name.now cell → is_reached least cell ≡ true) }
{
    let mut least = found;
    for (number, definition) in view.schema().tables.items().iter().enumerate() {
        let table = TableNo(number as u32);
        least = referring_in_columns(alloc, view, name, table, definition, least)?;
    }
    Ok(least)
}
