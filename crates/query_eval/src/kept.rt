ghost use Rattle.std.specs.Prelude.{◌≡◌, ◌<◌, [], ◌∷◌, ◌++◌, filter, length, take, IfOk, OnOk};
ghost use Rattle.std.specs.Option.{option_copied, option_to_list};
ghost use Rattle.own_model.specs.Stored.{row_named, rows_at};
ghost use Rattle.query_model.specs.Footprints.{key_column};
ghost use Rattle.query_model.specs.Truth.{keeps};
ghost use Rattle.query_eval.specs.KeyRange.{IsSpanOf};
ghost use Rattle.query_eval.specs.Tables.{AreTables};

use crate::key_range::{Span, span_of};
use crate::row_list::RowList;
use own_base::{ColNo, Row, RowName, TableNo};
use own_model::{BoundCond, StoreView};
use pred_eval::{keeps, pinned_key};
use row_reading::definition_of;
use std::alloc::{AllocError, Global};

/// One row more, where WHERE keeps it, behind the rows so far.
pub fn keep<'a>(
    kept: &mut RowList<'a>,
    row: &'a Row,
    cond: Option<&BoundCond>,
) -> Result<(), AllocError>
    ensures { OnOk result (kept.new ≡ kept.old ++ filter (keeps (option_copied cond.entry)) (row.now ∷ [])) }
{
    if keeps(cond, row, None) {
        kept.push(row)?;
    }
    Ok(())
}

/// Those of some more rows that WHERE keeps, behind the rows so far.
fn keep_more<'a>(
    kept: &mut RowList<'a>,
    rows: &'a [Row],
    cond: Option<&BoundCond>,
) -> Result<(), AllocError>
    ensures { OnOk result (kept.new ≡ kept.old ++ filter (keeps (option_copied cond.entry)) rows.now) }
{
    for row in rows {
        keep(kept, row, cond)?;
    }
    Ok(())
}

/// The rows that WHERE keeps.
pub(crate) fn kept_rows<'a>(
    alloc: Global,
    rows: &'a [Row],
    cond: Option<&BoundCond>,
) -> Result<RowList<'a>, AllocError>
    ensures { IfOk result (λ kept. kept ≡ filter (keeps (option_copied cond.entry)) rows.now) }
{
    let mut kept = RowList::new(alloc);
    keep_more(&mut kept, rows, cond)?;
    Ok(kept)
}

/// The column of a table's primary key.
pub(crate) fn key_column<V: StoreView>(view: &V, table: TableNo) -> ColNo
    requires { table.0 < length (V.db view.now).schema.tables }
    ensures { result.0 ≡ key_column (V.db view.now).schema table }
{
    definition_of(view, table).key
}

/// The row of a name, where WHERE keeps it.
fn kept_by_key<'a, V: StoreView>(
    alloc: Global,
    view: &'a V,
    name: &RowName,
    cond: Option<&BoundCond>,
) -> Result<RowList<'a>, AllocError>
    requires { name.now.table.0 < length (V.db view.now).schema.tables }
    ensures { IfOk result (λ kept. kept ≡ filter (keeps (option_copied cond.entry)) (option_to_list (row_named (V.db view.now).schema (V.db view.now).rows name.now))) }
{
    let mut kept = RowList::new(alloc);
    if let Some(row) = view.row(name) {
        keep(&mut kept, row, cond)?;
    }
    Ok(kept)
}

/// The first rows of a run, so many at most. Takes no memory.
fn first_of(run: &[Row], most: u64) -> &[Row]
    ensures { result.now ≡ take most run.now }
{
    if most < run.len() as u64 {
        &run[..most as usize]
    } else {
        run
    }
}

/// The rows of a table that WHERE keeps, run by run over a span outside which it keeps none.
fn kept_by_runs<'a, V: StoreView>(
    alloc: Global,
    view: &'a V,
    table: TableNo,
    span: Span,
    cond: Option<&BoundCond>,
) -> Result<RowList<'a>, AllocError>
    requires there { table.0 < length (V.db view.now).schema.tables }
    requires inside { IsSpanOf (keeps (option_copied cond)) (rows_at (V.db view.now).rows table.0) span }
    ensures { IfOk result (λ kept. kept ≡ filter (keeps (option_copied cond.entry)) (rows_at (V.db view.now).rows table.0)) }
{
    let mut kept = RowList::new(alloc);
    let mut at = span.from;
    while at < span.upto {
        let run = first_of(view.rows_from(table, at), span.upto - at);
        keep_more(&mut kept, run, cond)?;
        at += run.len() as u64;
    }
    Ok(kept)
}

/// The rows of a table that WHERE keeps. Where it pins a primary key, only that row is looked at, and where it bounds
/// the primary key, only the rows within.
#[tactic(auto, using(crate::proofs::TableRows::kept_of_table))]
pub fn kept_in_table<'a, V: StoreView>(
    alloc: Global,
    view: &'a V,
    table: TableNo,
    cond: Option<&BoundCond>,
) -> Result<RowList<'a>, AllocError>
    requires there { table.0 < length (V.db view.now).schema.tables }
    requires tables { AreTables (V.db view.now).schema (V.db view.now).rows }
    ensures { IfOk result (λ kept. kept ≡ filter (keeps (option_copied cond.entry)) (rows_at (V.db view.now).rows table.0)) }
{
    match pinned_key(alloc, cond, key_column(view, table))? {
        Some(key) => kept_by_key(alloc, view, &RowName { table, key }, cond),
        None => kept_by_runs(alloc, view, table, span_of(view, table, cond), cond),
    }
}
