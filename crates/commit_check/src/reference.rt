ghost use Rattle.std.specs.Prelude.{◌≡◌, ◌<◌, ◌^◌, IfOk, Some, length, slice_get};
ghost use Rattle.own_base.specs.declared.number.TableNo.{TableNo as Number};
ghost use Rattle.own_model.specs.declared.schema.Column.{Column as Defined};
ghost use Rattle.own_model.specs.declared.schema.RefKind.{RefKind as By};
ghost use Rattle.own_model.specs.Db.{key_of};
ghost use Rattle.own_model.specs.Stored.{rows_at};
ghost use Rattle.query_model.specs.Truth.{cell};
ghost use Rattle.schema_model.specs.OwnerSchema.{ColumnsRefer, IsOwnerSchema};
ghost use Rattle.schema_model.specs.WithinLimits.{IsWithinLimits};
ghost use Rattle.state_model.specs.Fault.{breaks_reference, first_of, reference_faults, reference_rule};
ghost use Rattle.commit_check.specs.Firsts.{first_in_table};

use own_base::{ColNo, MakeCopy, Row, RowName, TableNo};
use own_model::{Column, Refusal, StoreView, TableDef};
use row_reading::{cell, key_of, literal_key};
use std::alloc::{AllocError, Global};

/// Whether a column of a row refers to a row that isn't there.
fn breaks_reference<V: StoreView>(
    alloc: Global,
    view: &V,
    number: ColNo,
    column: &Column,
    row: &Row,
) -> Result<bool, AllocError>
    requires { (link : By × Number) → column.now.refers ≡ Some link → link.1.0 < length (V.db view.now).schema.tables }
    ensures { IfOk result (λ breaks. breaks ≡ breaks_reference (V.db view.now)
        (record { number = number.0; column = column.now; value = cell row.now number.0 })) }
{
    match column.refers {
        Some((_, table)) => match literal_key(alloc, cell(row, number))? {
            Some(key) => Ok(view.row(&RowName { table, key }).is_none()),
            None => Ok(false),
        },
        None => Ok(false),
    }
}

/// What a reference to a row that isn't there is refused with.
fn refusal(
    alloc: Global,
    definition: &TableDef,
    column: &Column,
    row: &Row,
) -> Result<Refusal, AllocError>
    ensures { IfOk result (λ refusal. refusal ≡ Refusal.Reference definition.now.name (key_of definition.now row.now) column.now.name) }
{
    let table = definition.name.copy(alloc)?;
    let key = key_of(alloc, definition, row)?;
    let column = column.name.copy(alloc)?;
    Ok(Refusal::Reference { table, key, column })
}

/// The first column of a row, by number, that refers to a row that isn't there.
fn first_in_row<V: StoreView>(
    alloc: Global,
    view: &V,
    table: TableNo,
    definition: &TableDef,
    row: &Row,
) -> Result<Option<Refusal>, AllocError>
    requires limits { length definition.now.columns < 2 ^ 32 }
    requires refer { ColumnsRefer (V.db view.now).schema definition.now }
    ensures { IfOk result (λ first. first ≡ first_of (reference_rule (V.db view.now) table.0 definition.now (rows_at (V.db view.now).rows table.0) row.now)) }
{
    for (at, column) in definition.columns.items().iter().enumerate() {
        let breaks = breaks_reference(alloc, view, ColNo(at as u32), column, row)?;
        if breaks {
            let fault = refusal(alloc, definition, column, row)?;
            return Ok(Some(fault));
        }
    }
    Ok(None)
}

/// The first row of a table, by key, with such a column.
fn first_in_table<V: StoreView>(
    alloc: Global,
    view: &V,
    table: TableNo,
    definition: &TableDef,
) -> Result<Option<Refusal>, AllocError>
    requires there { slice_get (V.db view.now).schema.tables table.0 ≡ Some definition.now }
    requires limits { length definition.now.columns < 2 ^ 32 }
    requires refer { ColumnsRefer (V.db view.now).schema definition.now }
    ensures { IfOk result (λ first. first ≡ first_in_table (reference_rule (V.db view.now)) table.0 definition.now (rows_at (V.db view.now).rows table.0)) }
{
    for at in 0..view.count(table) {
        let row = match view.row_at(table, at) {
            Some(row) => row,
            None => return Ok(None),
        };
        if let Some(fault) = first_in_row(alloc, view, table, definition, row)? {
            return Ok(Some(fault));
        }
    }
    Ok(None)
}

/// The first reference, by table, then key, then column, that names no row.
pub fn first_reference_fault<V: StoreView>(
    alloc: Global,
    view: &V,
) -> Result<Option<Refusal>, AllocError>
    requires limits { IsWithinLimits (V.db view.now).schema }
    requires owner { IsOwnerSchema (V.db view.now).schema }
    ensures { IfOk result (λ first. first ≡ first_of (reference_faults (V.db view.now))) }
{
    for (number, definition) in view.schema().tables.items().iter().enumerate() {
        if let Some(fault) = first_in_table(alloc, view, TableNo(number as u32), definition)? {
            return Ok(Some(fault));
        }
    }
    Ok(None)
}
