ghost use Rattle.std.specs.Prelude.{◌≡◌, ◌<◌, Bool, Some, false, filter, length, slice_get, IfOk, IfSome, IsTrue};
ghost use Rattle.std.specs.Option.{option_copied};
ghost use Rattle.own_model.specs.Db.{Row as Values};
ghost use Rattle.own_model.specs.Stored.{rows_at};
ghost use Rattle.own_model.specs.declared.schema.TableDef.{TableDef};
ghost use Rattle.link_model.specs.Indexed.{is_indexed_at};
ghost use Rattle.query_model.specs.Stored.{AreStored, IsStored};
ghost use Rattle.query_model.specs.Truth.{keeps};
ghost use Rattle.query_eval.specs.Candidates.{AreCandidates};
ghost use Rattle.query_eval.specs.KeyRange.{IsSpanOf};
ghost use Rattle.query_eval.specs.Meetings.{meeting};
ghost use Rattle.query_eval.specs.Tables.{AreTables};

use crate::holding::{is_indexed, rows_holding};
use crate::kept::keep;
use crate::key_range::{Span, span_of};
use crate::row_list::RowList;
use crate::wanted::wanted;
use link_model::Referring;
use own_base::{ColNo, Row, TableNo, Value};
use own_model::{BoundCond, StoreView};
use row_reading::{definition_of, literal_key};
use std::alloc::{AllocError, Global};

/// The share of rows of which at most those are looked up one by one that an index names: more are gone over in less time.
pub(crate) const FEW_OF: u64 = 8;

/// So many rows that bounds on the primary key leave are looked at, whatever an index could name.
const HANDFUL: u64 = 8;

/// The row at a place of a table where there is one. Takes no memory.
fn row_there<V: StoreView>(view: &V, table: TableNo, at: u64) -> &Row
    requires there { table.0 < length (V.db view.now).schema.tables }
    requires within { at < length (rows_at (V.db view.now).rows table.0) }
    ensures { slice_get (rows_at (V.db view.now).rows table.0) at ≡ Some result.now }
{
    match view.row_at(table, at) {
        Some(row) => row,
        None => unreachable!(),
    }
}

/// The rows of a table in a span.
fn rows_in<'a, V: StoreView>(
    alloc: Global,
    view: &'a V,
    table: TableNo,
    span: Span,
) -> Result<RowList<'a>, AllocError>
    requires there { table.0 < length (V.db view.now).schema.tables }
    requires tables { AreTables (V.db view.now).schema (V.db view.now).rows }
    requires span { IsSpanOf (λ row. false) (rows_at (V.db view.now).rows table.0) span }
    ensures stored { IfOk result (λ rows. AreStored rows) }
    ensures each { IfOk result (λ rows. (passes : Values → Bool) → IsSpanOf passes (rows_at (V.db view.now).rows table.0) span → filter passes rows ≡ filter passes (rows_at (V.db view.now).rows table.0)) }
{
    let mut rows = RowList::new(alloc);
    let mut at = span.from;
    while at < span.upto {
        rows.push(row_there(view, table, at))?;
        at += 1;
    }
    Ok(rows)
}

/// The rows of a table that hold a value in a column that is indexed, where they are few.
fn few_holding<'a, V: StoreView + Referring>(
    alloc: Global,
    view: &'a V,
    table: TableNo,
    column: ColNo,
    value: &Value,
) -> Result<Option<RowList<'a>>, AllocError>
    requires there { table.0 < length (V.db view.now).schema.tables }
    requires tables { AreTables (V.db view.now).schema (V.db view.now).rows }
    requires one { V.linked view.now ≡ V.db view.now }
    requires indexed { IsTrue (is_indexed_at (V.linked view.now).schema table.0 column.0) }
    requires stored { IsStored value.now }
    ensures { IfOk result (λ found. IfSome found (λ rows. rows ≡ meeting value.now column.0 (rows_at (V.db view.now).rows table.0))) }
{
    match literal_key(alloc, Some(value))? {
        None => Ok(None),
        Some(key) => {
            if view.holder_count(table, column, &key) > view.count(table) / FEW_OF {
                return Ok(None);
            }
            let rows = rows_holding(alloc, view, table, column, &key)?;
            Ok(Some(rows))
        }
    }
}

/// The rows of a table that hold in a column what WHERE wants there, where the column is indexed and they are few, but more than a
/// handful are left by bounds on the primary key.
fn few_by<'a, V: StoreView + Referring>(
    alloc: Global,
    view: &'a V,
    table: TableNo,
    column: ColNo,
    cond: Option<&BoundCond>,
) -> Result<Option<RowList<'a>>, AllocError>
    requires there { table.0 < length (V.db view.now).schema.tables }
    requires tables { AreTables (V.db view.now).schema (V.db view.now).rows }
    requires one { V.linked view.now ≡ V.db view.now }
    ensures { IfOk result (λ found. IfSome found (λ rows. (definition : TableDef) → slice_get (V.db view.now).schema.tables table.0 ≡ Some definition
        → AreCandidates definition (option_copied cond.entry) (rows_at (V.db view.now).rows table.0) rows)) }
{
    if is_indexed(view, table, column) {
        match wanted(cond, column) {
            None => Ok(None),
            Some(value) => {
                if span_of(view, table, cond).count() <= HANDFUL {
                    return Ok(None);
                }
                few_holding(alloc, view, table, column, value)
            }
        }
    } else {
        Ok(None)
    }
}

/// The same by the first column that names few.
fn few_by_any<'a, V: StoreView + Referring>(
    alloc: Global,
    view: &'a V,
    table: TableNo,
    cond: Option<&BoundCond>,
) -> Result<Option<RowList<'a>>, AllocError>
    requires there { table.0 < length (V.db view.now).schema.tables }
    requires tables { AreTables (V.db view.now).schema (V.db view.now).rows }
    requires one { V.linked view.now ≡ V.db view.now }
    ensures { IfOk result (λ found. IfSome found (λ rows. (definition : TableDef) → slice_get (V.db view.now).schema.tables table.0 ≡ Some definition
        → AreCandidates definition (option_copied cond.entry) (rows_at (V.db view.now).rows table.0) rows)) }
{
    for number in 0..definition_of(view, table).columns.items().len() {
        let column = ColNo(u32::try_from(number).unwrap_or(u32::MAX));
        let found = few_by(alloc, view, table, column, cond)?;
        if found.is_some() {
            return Ok(found);
        }
    }
    Ok(None)
}

/// The rows of a table among which are all that WHERE keeps, alone or in a pair, where its bounds on the primary key leave no more
/// than are asked for, or an index names few.
pub(crate) fn candidates<'a, V: StoreView + Referring>(
    alloc: Global,
    view: &'a V,
    table: TableNo,
    cond: Option<&BoundCond>,
    most: u64,
) -> Result<Option<RowList<'a>>, AllocError>
    requires there { table.0 < length (V.db view.now).schema.tables }
    requires tables { AreTables (V.db view.now).schema (V.db view.now).rows }
    requires one { V.linked view.now ≡ V.db view.now }
    ensures { IfOk result (λ found. IfSome found (λ rows. (definition : TableDef) → slice_get (V.db view.now).schema.tables table.0 ≡ Some definition
        → AreCandidates definition (option_copied cond.entry) (rows_at (V.db view.now).rows table.0) rows)) }
{
    let named = few_by_any(alloc, view, table, cond)?;
    if named.is_some() {
        return Ok(named);
    }
    let span = span_of(view, table, cond);
    if span.count() > most {
        return Ok(None);
    }
    let rows = rows_in(alloc, view, table, span)?;
    Ok(Some(rows))
}

/// Those of some rows that WHERE keeps.
fn kept_of<'a>(
    alloc: Global,
    rows: &RowList<'a>,
    cond: Option<&BoundCond>,
) -> Result<RowList<'a>, AllocError>
    ensures { IfOk result (λ kept. kept ≡ filter (keeps (option_copied cond.entry)) rows.now) }
{
    let mut kept = RowList::new(alloc);
    for row in rows.rows() {
        keep(&mut kept, *row, cond)?;
    }
    Ok(kept)
}

/// The rows of a table that WHERE keeps, where an index names few that it may keep.
pub(crate) fn kept_by_index<'a, V: StoreView + Referring>(
    alloc: Global,
    view: &'a V,
    table: TableNo,
    cond: Option<&BoundCond>,
) -> Result<Option<RowList<'a>>, AllocError>
    requires there { table.0 < length (V.db view.now).schema.tables }
    requires tables { AreTables (V.db view.now).schema (V.db view.now).rows }
    requires one { V.linked view.now ≡ V.db view.now }
    ensures { IfOk result (λ found. IfSome found (λ kept. kept ≡ filter (keeps (option_copied cond.entry)) (rows_at (V.db view.now).rows table.0))) }
{
    match few_by_any(alloc, view, table, cond)? {
        None => Ok(None),
        Some(rows) => {
            let kept = kept_of(alloc, &rows, cond)?;
            Ok(Some(kept))
        }
    }
}
