ghost use Rattle.std.specs.Prelude.{◌≡◌, ◌<◌, length, map, slice_get, IfOk};
ghost use Rattle.std.specs.Option.{option_copied};
ghost use Rattle.query_eval.specs.Tables.{AreTables};
ghost use Rattle.run_model.specs.Run as outcome;
ghost use Rattle.write_eval.specs.Deletions as spec;
ghost use Rattle.write_eval.specs.Writes.{Writes};

use crate::written::Written;
use own_base::{Change, List, MakeCopy, Row, RowName, TableNo};
use own_model::{BoundCond, StoreView, TableDef};
use query_eval::kept_in_table;
use row_reading::{definition_of, key_of};
use std::alloc::{AllocError, Global};

/// That a row goes.
fn deletion(
    alloc: Global,
    number: TableNo,
    table: &TableDef,
    row: &Row,
) -> Result<Change, AllocError>
    ensures { IfOk result (λ change. change ≡ spec.deletion number table.now row.now) }
{
    let key = key_of(alloc, table, row)?;
    let before = row.copy(alloc)?;
    Ok(Change {
        name: RowName { table: number, key },
        before: Some(before),
        after: None,
    })
}

/// That rows go, one after another.
fn deletions(
    alloc: Global,
    number: TableNo,
    table: &TableDef,
    rows: &[&Row],
) -> Result<List<Change>, AllocError>
    ensures { IfOk result (λ changes. changes ≡ map (spec.deletion number table.now) (map (λ row. row.now) rows.now)) }
{
    let mut changes = List::new(alloc);
    for row in rows {
        changes.add(deletion(alloc, number, table, row)?)?;
    }
    Ok(changes)
}

/// What a DELETE changes: the rows that WHERE keeps go. One of which its condition is Unknown stays.
pub(crate) fn delete<V: StoreView>(
    alloc: Global,
    view: &V,
    table: TableNo,
    cond: Option<&BoundCond>,
) -> Result<Written, AllocError>
    requires there { table.0 < length (V.db view.now).schema.tables }
    requires tables { AreTables (V.db view.now).schema (V.db view.now).rows }
    ensures { IfOk result (λ written. Writes (V.db view.now) (outcome.delete (V.db view.now) table.0 (option_copied cond.entry)) table written) }
{
    let kept = kept_in_table(alloc, view, table, cond)?;
    let changes = deletions(alloc, table, definition_of(view, table), kept.rows())?;
    Ok(Written {
        count: kept.count(),
        changes,
    })
}
