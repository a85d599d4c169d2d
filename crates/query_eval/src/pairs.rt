ghost use Rattle.std.specs.Prelude.{◌≡◌, ◌<◌, [], ◌∷◌, ◌++◌, filter, length, map, unwrap_or, IfOk, OnOk};
ghost use Rattle.std.specs.Option.{option_copied, option_to_list};
ghost use Rattle.own_model.specs.Stored.{rows_at};
ghost use Rattle.query_model.specs.Footprints.{key_column};
ghost use Rattle.query_model.specs.Query.{joined};
ghost use Rattle.query_model.specs.Truth.{keeps};
ghost use Rattle.query_eval.specs.Enough.{IsEnough};
ghost use Rattle.query_eval.specs.Tables.{AreTables};

use crate::in_key_order::{met_row, met_rows, next_met};
use crate::kept::key_column;
use crate::lent_rows::LentRows;
use crate::row_list::RowList;
use crate::table_rows::TableRows;
use crate::value_index::ValueIndex;
use own_base::{ColNo, Row, TableNo};
use own_model::{BoundCond, StoreView};
use pred_eval::{RowPair, keeps_row};
use row_reading::cell;
use std::alloc::{AllocError, Global};

/// Two tables that are joined, and the column of each that ON compares.
#[derive(Clone, Copy)]
pub(crate) struct Joined {
    pub left: TableNo,
    pub right: TableNo,
    pub left_column: ColNo,
    pub right_column: ColNo,
}

/// One pair more, where WHERE keeps it, behind the pairs so far.
fn keep<'a>(
    kept: &mut LentRows<'a>,
    pair: RowPair<'a>,
    cond: Option<&BoundCond>,
) -> Result<(), AllocError>
    ensures { OnOk result (kept.new ≡ kept.old ++ filter (keeps (option_copied cond.entry)) (pair.entry ∷ [])) }
{
    if keeps_row(cond, &pair) {
        kept.push(pair)?;
    }
    Ok(())
}

/// The pair of a row of the left table with one of the right table, where there is one and WHERE keeps it, behind the
/// pairs so far.
fn keep_pair<'a>(
    kept: &mut LentRows<'a>,
    left: &'a Row,
    right: Option<&'a Row>,
    cond: Option<&BoundCond>,
) -> Result<(), AllocError>
    ensures { OnOk result (kept.new ≡ kept.old ++ filter (keeps (option_copied cond.entry)) (map (λ right. left.now ++ right) (option_to_list (option_copied right.entry)))) }
{
    match right {
        Some(_) => keep(kept, RowPair::new(left, right), cond),
        None => Ok(()),
    }
}

/// The pairs of a row of the left table with rows of the right table, where WHERE keeps them, behind the pairs so far. No
/// more follow once there are more than are asked for.
pub(crate) fn keep_pairs<'a>(
    kept: &mut LentRows<'a>,
    left: &'a Row,
    rights: &RowList<'a>,
    cond: Option<&BoundCond>,
    most: Option<u64>,
) -> Result<(), AllocError>
    ensures { OnOk result (IsEnough most (kept.old ++ filter (keeps (option_copied cond.entry)) (map (λ right. left.now ++ right) rights.now)) kept.new) }
{
    for right in rights.rows() {
        if kept.is_past(most) {
            return Ok(());
        }
        keep(kept, RowPair::new(left, Some(*right)), cond)?;
    }
    Ok(())
}

/// The pairs of a row of the left table with those of the right table that an index finds, where WHERE keeps them.
fn keep_found<'a>(
    kept: &mut LentRows<'a>,
    left: &'a Row,
    rights: Option<&RowList<'a>>,
    cond: Option<&BoundCond>,
    most: Option<u64>,
) -> Result<(), AllocError>
    ensures { OnOk result (IsEnough most (kept.old ++ filter (keeps (option_copied cond.entry)) (map (λ right. left.now ++ right) (unwrap_or (option_copied rights.entry) []))) kept.new) }
{
    match rights {
        Some(rights) => keep_pairs(kept, left, rights, cond, most),
        None => Ok(()),
    }
}

/// The pairs that WHERE keeps, where ON compares the right table's primary key: each row of the left table looks up
/// the one row that it meets.
fn kept_by_key<'a, V: StoreView>(
    alloc: Global,
    view: &'a V,
    tables: Joined,
    cond: Option<&BoundCond>,
    most: Option<u64>,
) -> Result<LentRows<'a>, AllocError>
    requires left { tables.left.0 < length (V.db view.now).schema.tables }
    requires right { tables.right.0 < length (V.db view.now).schema.tables }
    requires tables { AreTables (V.db view.now).schema (V.db view.now).rows }
    requires key { tables.right_column.0 ≡ key_column (V.db view.now).schema tables.right }
    ensures { IfOk result (λ kept. IsEnough most (filter (keeps (option_copied cond.entry))
        (joined tables.left_column.0 tables.right_column.0 (rows_at (V.db view.now).rows tables.left.0) (rows_at (V.db view.now).rows tables.right.0))) kept) }
{
    let mut met = met_rows(alloc, view, tables)?;
    let mut kept = LentRows::new(alloc);
    for left in TableRows::new(view, tables.left) {
        if kept.is_past(most) {
            return Ok(kept);
        }
        let value = cell(left, tables.left_column);
        let right = met_row(alloc, view, tables, value, next_met(&mut met))?;
        keep_pair(&mut kept, left, right, cond)?;
    }
    Ok(kept)
}

/// The pairs that WHERE keeps: each row of the left table looks up the rows that it meets in an index of the right one.
fn kept_by_value<'a, V: StoreView>(
    alloc: Global,
    view: &'a V,
    tables: Joined,
    cond: Option<&BoundCond>,
    most: Option<u64>,
) -> Result<LentRows<'a>, AllocError>
    requires left { tables.left.0 < length (V.db view.now).schema.tables }
    requires right { tables.right.0 < length (V.db view.now).schema.tables }
    ensures { IfOk result (λ kept. IsEnough most (filter (keeps (option_copied cond.entry))
        (joined tables.left_column.0 tables.right_column.0 (rows_at (V.db view.now).rows tables.left.0) (rows_at (V.db view.now).rows tables.right.0))) kept) }
{
    let index = ValueIndex::of_table(alloc, view, tables.right, tables.right_column)?;
    let mut kept = LentRows::new(alloc);
    for left in TableRows::new(view, tables.left) {
        if kept.is_past(most) {
            return Ok(kept);
        }
        let rights = index.meeting(cell(left, tables.left_column));
        keep_found(&mut kept, left, rights, cond, most)?;
    }
    Ok(kept)
}

/// The pairs of a join that WHERE keeps: by left key, then right key. No two rows are compared that don't meet, and no more
/// pairs are made once more than are asked for are kept; with None all are.
pub(crate) fn kept_pairs<'a, V: StoreView>(
    alloc: Global,
    view: &'a V,
    tables: Joined,
    cond: Option<&BoundCond>,
    most: Option<u64>,
) -> Result<LentRows<'a>, AllocError>
    requires left { tables.left.0 < length (V.db view.now).schema.tables }
    requires right { tables.right.0 < length (V.db view.now).schema.tables }
    requires tables { AreTables (V.db view.now).schema (V.db view.now).rows }
    ensures { IfOk result (λ kept. IsEnough most (filter (keeps (option_copied cond.entry))
        (joined tables.left_column.0 tables.right_column.0 (rows_at (V.db view.now).rows tables.left.0) (rows_at (V.db view.now).rows tables.right.0))) kept) }
{
    if key_column(view, tables.right) == tables.right_column {
        kept_by_key(alloc, view, tables, cond, most)
    } else {
        kept_by_value(alloc, view, tables, cond, most)
    }
}
