ghost use Rattle.std.specs.Prelude.{◌≡◌, ◌<◌, ◌^◌, ◌&&◌, not, true, Contains, IfOk, List as Seq, Some, count_by, length, nat_lt, slice_get};
ghost use Rattle.own_model.specs.Db.{IsRising, Row as Values, key_of};
ghost use Rattle.own_model.specs.Stored.{rows_at};
ghost use Rattle.query_model.specs.Truth.{cell, is_null};
ghost use Rattle.schema_model.specs.WithinLimits.{IsWithinLimits};
ghost use Rattle.state_model.specs.Fault.{first_of, unique_faults, unique_rule};
ghost use Rattle.commit_check.specs.Firsts.{first_in_table};
ghost use Rattle.commit_check.specs.ValueCounts.{CountsColumns, CountsRows, holds};

use crate::lent_value::LentValue;
use crate::value_counts::{counts_of_columns, is_repeated};
use own_base::{ColNo, MakeCopy, Row, TableNo};
use own_model::{Column, Refusal, StoreView, TableDef};
use row_reading::key_of;
use std::alloc::{AllocError, Global};
use std::collections::BTreeMap;

/// What a row whose value in a UNIQUE column another row holds too is refused with.
fn refusal(
    alloc: Global,
    definition: &TableDef,
    column: &Column,
    row: &Row,
) -> Result<Refusal, AllocError>
    ensures { IfOk result (λ refusal. refusal ≡ Refusal.Unique definition.now.name (key_of definition.now row.now) column.now.name) }
{
    let table = definition.name.copy(alloc)?;
    let key = key_of(alloc, definition, row)?;
    let column = column.name.copy(alloc)?;
    Ok(Refusal::Unique { table, key, column })
}

/// Whether a column is UNIQUE and what a row holds there isn't NULL and is counted more than once. Takes no memory.
fn breaks_unique<'a>(
    counts: &BTreeMap<LentValue<'a>, u64>,
    number: ColNo,
    column: &Column,
    row: &'a Row,
) -> bool
    ensures { (rows : Seq Values) → (column.now.unique ≡ true → CountsRows number.0 rows counts.now.entries)
        → result ≡ (column.now.unique && (not (is_null (cell row.now number.0)) && nat_lt 1 (count_by (holds number.0 (cell row.now number.0)) rows))) }
{
    column.unique && is_repeated(counts, row, number)
}

/// The first UNIQUE column of a row, by number, whose value another row of the table holds too.
fn first_in_row<'a, V: StoreView>(
    alloc: Global,
    view: &'a V,
    table: TableNo,
    definition: &TableDef,
    counts: &[BTreeMap<LentValue<'a>, u64>],
    row: &'a Row,
) -> Result<Option<Refusal>, AllocError>
    requires limits { length definition.now.columns < 2 ^ 32 }
    requires counted { CountsColumns definition.now.columns (rows_at (V.db view.now).rows table.0) counts.now }
    requires all { length counts.now ≡ length definition.now.columns }
    requires rising { IsRising definition.now (rows_at (V.db view.now).rows table.0) }
    requires among { Contains (rows_at (V.db view.now).rows table.0) row.now }
    ensures { IfOk result (λ first. first ≡ first_of (unique_rule table.0 definition.now (rows_at (V.db view.now).rows table.0) row.now)) }
{
    for (at, column) in definition.columns.items().iter().enumerate() {
        let breaks = breaks_unique(&counts[at], ColNo(at as u32), column, row);
        if breaks {
            let fault = refusal(alloc, definition, column, row)?;
            return Ok(Some(fault));
        }
    }
    Ok(None)
}

/// The first row of a table, by key, with such a column. The rows are gone through once to count their values, and then
/// once more.
fn first_in_table<V: StoreView>(
    alloc: Global,
    view: &V,
    table: TableNo,
    definition: &TableDef,
) -> Result<Option<Refusal>, AllocError>
    requires there { slice_get (V.db view.now).schema.tables table.0 ≡ Some definition.now }
    requires limits { length definition.now.columns < 2 ^ 32 }
    requires rising { IsRising definition.now (rows_at (V.db view.now).rows table.0) }
    ensures { IfOk result (λ first. first ≡ first_in_table unique_rule table.0 definition.now (rows_at (V.db view.now).rows table.0)) }
{
    let counts = counts_of_columns(alloc, view, table, definition)?;
    for at in 0..view.count(table) {
        let row = match view.row_at(table, at) {
            Some(row) => row,
            None => return Ok(None),
        };
        if let Some(fault) = first_in_row(alloc, view, table, definition, counts.as_slice(), row)? {
            return Ok(Some(fault));
        }
    }
    Ok(None)
}

/// The first value, by table, then key, then column, of a UNIQUE column that another row of the table holds too. NULL is
/// no such value.
pub fn first_unique_fault<V: StoreView>(
    alloc: Global,
    view: &V,
) -> Result<Option<Refusal>, AllocError>
    requires limits { IsWithinLimits (V.db view.now).schema }
    ensures { IfOk result (λ first. first ≡ first_of (unique_faults (V.db view.now))) }
{
    for (number, definition) in view.schema().tables.items().iter().enumerate() {
        if let Some(fault) = first_in_table(alloc, view, TableNo(number as u32), definition)? {
            return Ok(Some(fault));
        }
    }
    Ok(None)
}
