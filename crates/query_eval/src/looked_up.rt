ghost use Rattle.std.specs.Prelude.{◌≡◌, ◌<◌, ◌++◌, filter, length, IfOk, IfSome, IsTrue, OnOk};
ghost use Rattle.std.specs.Option.{option_copied};
ghost use Rattle.own_model.specs.Stored.{rows_at};
ghost use Rattle.query_model.specs.Query.{joined, pairs_of};
ghost use Rattle.query_model.specs.Stored.{AreStored, IsStoredRow};
ghost use Rattle.query_model.specs.Truth.{keeps};
ghost use Rattle.query_eval.specs.Enough.{IsEnough};
ghost use Rattle.query_eval.specs.LookedUp.{is_found_by};
ghost use Rattle.query_eval.specs.Tables.{AreTables};
ghost use Rattle.query_eval.specs.WholeRows.{AreWhole};

use crate::candidates::{FEW_OF, candidates};
use crate::holding::{is_found_by, meeting_rows};
use crate::lent_rows::LentRows;
use crate::pairs::{Joined, keep_pairs};
use crate::row_list::RowList;
use link_model::Referring;
use own_base::Row;
use own_model::{BoundCond, StoreView};
use row_reading::cell;
use std::alloc::{AllocError, Global};

/// The pairs of a row of the left table that WHERE keeps, behind the pairs so far: the row's partners are looked up. No more
/// follow once there are more than are asked for.
fn keep_partners<'a, V: StoreView + Referring>(
    kept: &mut LentRows<'a>,
    alloc: Global,
    view: &'a V,
    tables: Joined,
    left: &'a Row,
    cond: Option<&BoundCond>,
    most: Option<u64>,
) -> Result<(), AllocError>
    requires right { tables.right.0 < length (V.db view.now).schema.tables }
    requires tables { AreTables (V.db view.now).schema (V.db view.now).rows }
    requires one { V.linked view.now ≡ V.db view.now }
    requires found { IsTrue (is_found_by (V.db view.now).schema tables.right tables.right_column.0) }
    requires stored { IsStoredRow left.now }
    ensures { OnOk result (IsEnough most (kept.old ++ filter (keeps (option_copied cond.entry)) (pairs_of tables.left_column.0 tables.right_column.0 (rows_at (V.db view.now).rows tables.right.0) left.now)) kept.new) }
{
    let value = cell(left, tables.left_column);
    let rights = meeting_rows(alloc, view, tables.right, tables.right_column, value)?;
    keep_pairs(kept, left, &rights, cond, most)
}

/// The pairs that WHERE keeps of some rows of the left table: by left row, then right key. No more are made once more than are asked
/// for are kept; with None all are.
fn kept_of_lefts<'a, V: StoreView + Referring>(
    alloc: Global,
    view: &'a V,
    tables: Joined,
    lefts: &RowList<'a>,
    cond: Option<&BoundCond>,
    most: Option<u64>,
) -> Result<LentRows<'a>, AllocError>
    requires right { tables.right.0 < length (V.db view.now).schema.tables }
    requires tables { AreTables (V.db view.now).schema (V.db view.now).rows }
    requires one { V.linked view.now ≡ V.db view.now }
    requires found { IsTrue (is_found_by (V.db view.now).schema tables.right tables.right_column.0) }
    requires stored { AreStored lefts.now }
    ensures { IfOk result (λ kept. IsEnough most (filter (keeps (option_copied cond.entry))
        (joined tables.left_column.0 tables.right_column.0 lefts.now (rows_at (V.db view.now).rows tables.right.0))) kept) }
{
    let mut kept = LentRows::new(alloc);
    for left in lefts.rows() {
        if kept.is_past(most) {
            return Ok(kept);
        }
        keep_partners(&mut kept, alloc, view, tables, *left, cond, most)?;
    }
    Ok(kept)
}

/// The pairs of a join that WHERE keeps, where few rows of the left table can be in one beside the rows of both tables, which would be
/// gone over else, and the right one's column is its primary key or indexed: each of those rows looks its partners up. By left key,
/// then right key; no more are made once more than are asked for are kept, and with None all are.
pub(crate) fn kept_looked_up<'a, V: StoreView + Referring>(
    alloc: Global,
    view: &'a V,
    tables: Joined,
    cond: Option<&BoundCond>,
    most: Option<u64>,
) -> Result<Option<LentRows<'a>>, AllocError>
    requires left { tables.left.0 < length (V.db view.now).schema.tables }
    requires right { tables.right.0 < length (V.db view.now).schema.tables }
    requires tables { AreTables (V.db view.now).schema (V.db view.now).rows }
    requires whole { AreWhole (V.db view.now).schema (V.db view.now).rows tables.left }
    requires one { V.linked view.now ≡ V.db view.now }
    ensures { IfOk result (λ found. IfSome found (λ kept. IsEnough most (filter (keeps (option_copied cond.entry))
        (joined tables.left_column.0 tables.right_column.0 (rows_at (V.db view.now).rows tables.left.0) (rows_at (V.db view.now).rows tables.right.0))) kept)) }
{
    if !is_found_by(view, tables.right, tables.right_column) {
        return Ok(None);
    }
    let few = view.count(tables.left) / FEW_OF + view.count(tables.right) / FEW_OF;
    match candidates(alloc, view, tables.left, cond, few)? {
        None => Ok(None),
        Some(lefts) => {
            let kept = kept_of_lefts(alloc, view, tables, &lefts, cond, most)?;
            Ok(Some(kept))
        }
    }
}
