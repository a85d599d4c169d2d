ghost use Rattle.std.specs.Prelude.{◌≡◌, ◌+◌, ◌-◌, ◌<◌, ◌^◌, ◌&&◌, not, IfOk, List as Seq, OnOk, count_by, length, nat_lt, true};
ghost use Rattle.own_model.specs.Db.{Row as Values};
ghost use Rattle.own_model.specs.Stored.{rows_at};
ghost use Rattle.query_model.specs.Truth.{cell, is_null};
ghost use Rattle.commit_check.specs.declared.lent_value.LentValue.{LentValue as Seen};
ghost use Rattle.commit_check.specs.ValueCounts.{CountsColumns, CountsRows, count_at, holds, times, value_of};

use crate::lent_value::{LentValue, lent_from};
use own_base::{ColNo, Row, TableNo};
use own_model::{Column, StoreView, TableDef};
use std::alloc::{AllocError, Global};
use std::collections::BTreeMap;

/// Counts one value more; NULL doesn't count.
fn count_value<'a>(
    counts: &mut BTreeMap<LentValue<'a>, u64>,
    value: Option<LentValue<'a>>,
) -> Result<(), AllocError>
    requires { (other : Seen) → count_at counts.old.entries (value_of other) < 2 ^ 64 - 1 }
    ensures { OnOk result ((other : Seen) → count_at counts.new.entries (value_of other) ≡ count_at counts.old.entries (value_of other) + times value.entry (value_of other)) }
{
    match value {
        Some(value) => {
            let had = counts.get(&value).copied().unwrap_or(0);
            counts.insert(value, had + 1)?;
            Ok(())
        }
        None => Ok(()),
    }
}

/// How many rows of a table hold each value of a column that isn't NULL.
fn counts_of_column<'a, V: StoreView>(
    alloc: Global,
    view: &'a V,
    table: TableNo,
    column: ColNo,
) -> Result<BTreeMap<LentValue<'a>, u64>, AllocError>
    requires { table.0 < length (V.db view.now).schema.tables }
    ensures { IfOk result (λ counts. CountsRows column.0 (rows_at (V.db view.now).rows table.0) counts.entries) }
{
    let mut counts = BTreeMap::new(alloc);
    for at in 0..view.count(table) {
        let row = match view.row_at(table, at) {
            Some(row) => row,
            None => return Ok(counts),
        };
        let value = lent_from(row, column);
        count_value(&mut counts, value)?;
    }
    Ok(counts)
}

/// The same for a UNIQUE column; for another, nothing is counted.
fn counts_if_unique<'a, V: StoreView>(
    alloc: Global,
    view: &'a V,
    table: TableNo,
    number: ColNo,
    column: &Column,
) -> Result<BTreeMap<LentValue<'a>, u64>, AllocError>
    requires { table.0 < length (V.db view.now).schema.tables }
    ensures { IfOk result (λ counts. column.now.unique ≡ true → CountsRows number.0 (rows_at (V.db view.now).rows table.0) counts.entries) }
{
    if column.unique {
        counts_of_column(alloc, view, table, number)
    } else {
        Ok(BTreeMap::new(alloc))
    }
}

/// The same for each column of a table, by the column's number.
pub(crate) fn counts_of_columns<'a, V: StoreView>(
    alloc: Global,
    view: &'a V,
    table: TableNo,
    definition: &TableDef,
) -> Result<Vec<BTreeMap<LentValue<'a>, u64>>, AllocError>
    requires there { table.0 < length (V.db view.now).schema.tables }
    requires limits { length definition.now.columns < 2 ^ 32 }
    ensures each { IfOk result (λ counts. CountsColumns definition.now.columns (rows_at (V.db view.now).rows table.0) counts.items) }
    ensures all { IfOk result (λ counts. length counts.items ≡ length definition.now.columns) }
{
    let mut counts = Vec::new(alloc);
    for (at, column) in definition.columns.items().iter().enumerate() {
        let counted = counts_if_unique(alloc, view, table, ColNo(at as u32), column)?;
        counts.push(counted)?;
    }
    Ok(counts)
}

/// Whether what a row holds in a column isn't NULL and is counted more than once. Takes no memory.
pub(crate) fn is_repeated<'a>(
    counts: &BTreeMap<LentValue<'a>, u64>,
    row: &'a Row,
    column: ColNo,
) -> bool
    ensures { (rows : Seq Values) → CountsRows column.0 rows counts.now.entries
        → result ≡ (not (is_null (cell row.now column.0)) && nat_lt 1 (count_by (holds column.0 (cell row.now column.0)) rows)) }
{
    match lent_from(row, column) {
        Some(value) => counts.get(&value).copied().unwrap_or(0) > 1,
        None => false,
    }
}
