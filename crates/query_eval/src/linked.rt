ghost use Rattle.std.specs.Prelude.{◌≡◌, ◌<◌, false, filter, length, true, IfOk, IfSome};
ghost use Rattle.std.specs.Option.{option_copied};
ghost use Rattle.own_base.specs.declared.number.TableNo.{TableNo as Number};
ghost use Rattle.own_model.specs.Stored.{rows_at};
ghost use Rattle.query_model.specs.Query.{base_rows, query_rows, reply_of};
ghost use Rattle.query_model.specs.Truth.{keeps};
ghost use Rattle.readable_model.specs.Sources.{IsThere};
ghost use Rattle.query_eval.specs.Enough.{IsEnough};
ghost use Rattle.query_eval.specs.Sources.{IsBaseOf};
ghost use Rattle.query_eval.specs.Tables.{AreTables};
ghost use Rattle.query_eval.specs.Views.{AreViewsThere};
ghost use Rattle.query_eval.specs.WholeRows.{AreWhole};

use crate::candidates::kept_by_index;
use crate::grouping::grouped_reply;
use crate::lent_rows::LentRows;
use crate::looked_up::kept_looked_up;
use crate::pairs::Joined;
use crate::reply::select_reply;
use crate::selection::plain_reply;
use link_model::Referring;
use own_base::TableNo;
use own_model::{BoundCond, BoundSelect, REPLY_ROWS, Reply, Source1, StoreView};
use std::alloc::{AllocError, Global};

/// The rows of a table that WHERE keeps, where an index names few that it may keep.
fn kept_of_table<'a, V: StoreView + Referring>(
    alloc: Global,
    view: &'a V,
    table: TableNo,
    cond: Option<&BoundCond>,
) -> Result<Option<LentRows<'a>>, AllocError>
    requires there { table.0 < length (V.db view.now).schema.tables }
    requires tables { AreTables (V.db view.now).schema (V.db view.now).rows }
    requires one { V.linked view.now ≡ V.db view.now }
    ensures { IfOk result (λ found. IfSome found (λ kept. kept ≡ filter (keeps (option_copied cond.entry)) (rows_at (V.db view.now).rows table.0))) }
{
    match kept_by_index(alloc, view, table, cond)? {
        None => Ok(None),
        Some(rows) => {
            let kept = LentRows::of_list(alloc, &rows)?;
            Ok(Some(kept))
        }
    }
}

/// The rows of a source that WHERE keeps, where few are looked at for them: rows of a table that an index names, or pairs whose
/// partners are looked up. No more pairs are made once more than are asked for are kept; with None all are.
fn kept_linked<'a, V: StoreView + Referring>(
    alloc: Global,
    view: &'a V,
    source: &Source1,
    cond: Option<&BoundCond>,
    most: Option<u64>,
) -> Result<Option<LentRows<'a>>, AllocError>
    requires source { IsBaseOf (V.db view.now).schema source.now }
    requires tables { AreTables (V.db view.now).schema (V.db view.now).rows }
    requires whole { (table : Number) → AreWhole (V.db view.now).schema (V.db view.now).rows table }
    requires one { V.linked view.now ≡ V.db view.now }
    ensures { IfOk result (λ found. IfSome found (IsEnough most (filter (keeps (option_copied cond.entry)) (base_rows (V.db view.now).rows source.now)))) }
{
    match source {
        Source1::Table(table) => kept_of_table(alloc, view, *table, cond),
        Source1::Pair {
            left,
            right,
            left_column,
            right_column,
        } => {
            let tables = Joined {
                left: *left,
                right: *right,
                left_column: *left_column,
                right_column: *right_column,
            };
            kept_looked_up(alloc, view, tables, cond, most)
        }
        Source1::View(_) => unreachable!(),
    }
}

/// The reply to a grouped select.
fn group_linked<V: StoreView + Referring>(
    alloc: Global,
    view: &V,
    query: &BoundSelect,
) -> Result<Reply, AllocError>
    requires grouped { query.now.grouped ≡ true }
    requires tables { AreTables (V.db view.now).schema (V.db view.now).rows }
    requires whole { (table : Number) → AreWhole (V.db view.now).schema (V.db view.now).rows table }
    requires views { AreViewsThere (V.db view.now).schema }
    requires there { IsThere (V.db view.now).schema query.now }
    requires source { IsBaseOf (V.db view.now).schema query.now.source }
    requires one { V.linked view.now ≡ V.db view.now }
    ensures { IfOk result (λ reply. reply ≡ reply_of (query_rows (V.db view.now).schema (V.db view.now).rows query.now)) }
{
    match kept_linked(alloc, view, &query.source, query.cond.as_ref(), None)? {
        Some(kept) => grouped_reply(alloc, &kept, query),
        None => select_reply(alloc, view, query),
    }
}

/// The reply to a select that isn't grouped, from a table or from two.
fn plain_linked<V: StoreView + Referring>(
    alloc: Global,
    view: &V,
    query: &BoundSelect,
) -> Result<Reply, AllocError>
    requires plain { query.now.grouped ≡ false }
    requires tables { AreTables (V.db view.now).schema (V.db view.now).rows }
    requires whole { (table : Number) → AreWhole (V.db view.now).schema (V.db view.now).rows table }
    requires views { AreViewsThere (V.db view.now).schema }
    requires there { IsThere (V.db view.now).schema query.now }
    requires source { IsBaseOf (V.db view.now).schema query.now.source }
    requires one { V.linked view.now ≡ V.db view.now }
    ensures { IfOk result (λ reply. reply ≡ reply_of (query_rows (V.db view.now).schema (V.db view.now).rows query.now)) }
{
    let most = Some(REPLY_ROWS);
    match kept_linked(alloc, view, &query.source, query.cond.as_ref(), most)? {
        Some(kept) => plain_reply(alloc, kept, query),
        None => select_reply(alloc, view, query),
    }
}

/// The reply to a bound SELECT from a store that tells who holds what. Where WHERE wants a value of a column that is indexed, or bounds
/// the primary key, so that few rows of a table can be kept, those alone are looked at; in a join, where the right table's column is
/// its primary key or indexed, few rows of the left table look their partners up.
pub fn select_linked<V: StoreView + Referring>(
    alloc: Global,
    view: &V,
    query: &BoundSelect,
) -> Result<Reply, AllocError>
    requires tables { AreTables (V.db view.now).schema (V.db view.now).rows }
    requires whole { (table : Number) → AreWhole (V.db view.now).schema (V.db view.now).rows table }
    requires views { AreViewsThere (V.db view.now).schema }
    requires there { IsThere (V.db view.now).schema query.now }
    requires one { V.linked view.now ≡ V.db view.now }
    ensures { IfOk result (λ reply. reply ≡ reply_of (query_rows (V.db view.now).schema (V.db view.now).rows query.now)) }
{
    match &query.source {
        Source1::View(_) => select_reply(alloc, view, query),
        Source1::Table(_) | Source1::Pair { .. } if query.grouped => {
            group_linked(alloc, view, query)
        }
        Source1::Table(_) | Source1::Pair { .. } => plain_linked(alloc, view, query),
    }
}
