ghost use Rattle.std.specs.Prelude.{◌≡◌, List as Seq, Some, false, filter, map, IfOk};
ghost use Rattle.own_model.specs.declared.limit.TheConstants.{REPLY_ROWS as MOST};
ghost use Rattle.own_model.specs.Db.{Row as Values};
ghost use Rattle.query_model.specs.Query.{in_order, projected, query_rows, reply_of, selected};
ghost use Rattle.query_model.specs.Truth.{keeps};
ghost use Rattle.query_eval.specs.Enough.{IsEnough};
ghost use Rattle.query_eval.specs.Sources.{IsTableOf};
ghost use Rattle.query_eval.specs.Tables.{AreTables};

use crate::in_order::put_in_order;
use crate::kept::{kept_in_table, kept_rows};
use crate::lent_rows::LentRows;
use crate::row_list::RowList;
use crate::shown::shown_rows;
use own_base::Row;
use own_model::{BoundSelect, LimitName, REPLY_ROWS, Refusal, Reply, Source1, StoreView};
use std::alloc::{AllocError, Global};

/// The reply to a select that isn't grouped, from the rows that WHERE keeps, or from more of them than a reply has. They are
/// counted before they are copied.
pub(crate) fn plain_reply(
    alloc: Global,
    kept: LentRows<'_>,
    query: &BoundSelect,
) -> Result<Reply, AllocError>
    ensures all { IfOk result (λ reply. reply ≡ reply_of (map (projected query.now.items) (in_order query.now.order kept.entry))) }
    ensures enough { IfOk result (λ reply. (rows : Seq Values) → IsEnough (Some MOST) rows kept.entry → reply ≡ reply_of (map (projected query.now.items) (in_order query.now.order rows))) }
{
    if kept.is_past(Some(REPLY_ROWS)) {
        return Ok(Reply::Refused(Refusal::Limit(LimitName::Reply)));
    }
    let mut rows = kept;
    put_in_order(&mut rows, query.order)?;
    Ok(Reply::Rows(shown_rows(alloc, query.items.items(), &rows)?))
}

/// The reply to a select that isn't grouped, over the rows of its source.
#[tactic(auto, unfolding(query_model::specs::Query::selected))]
pub(crate) fn select_rows(
    alloc: Global,
    rows: &[Row],
    query: &BoundSelect,
) -> Result<Reply, AllocError>
    requires { query.now.grouped ≡ false }
    ensures { IfOk result (λ reply. reply ≡ reply_of (selected query.now rows.now)) }
{
    let kept = kept_rows(alloc, rows, query.cond.as_ref())?;
    plain_reply(alloc, LentRows::of_list(alloc, &kept)?, query)
}

/// The reply to a select that isn't grouped, from those rows of its source that WHERE keeps, as they are lent in the source's
/// order.
#[tactic(auto, unfolding(query_model::specs::Query::selected))]
pub fn select_kept(
    alloc: Global,
    kept: &RowList<'_>,
    query: &BoundSelect,
) -> Result<Reply, AllocError>
    requires { query.now.grouped ≡ false }
    ensures { IfOk result (λ reply. (rows : Seq Values) → filter (keeps query.now.cond) rows ≡ kept.now → reply ≡ reply_of (selected query.now rows)) }
{
    plain_reply(alloc, LentRows::of_list(alloc, kept)?, query)
}

/// The reply to a select that isn't grouped, from a table of a store.
#[tactic(auto, unfolding(query_model::specs::Query::query_rows, query_model::specs::Query::selected))]
pub(crate) fn select<V: StoreView>(
    alloc: Global,
    view: &V,
    query: &BoundSelect,
) -> Result<Reply, AllocError>
    requires plain { query.now.grouped ≡ false }
    requires source { IsTableOf (V.db view.now).schema query.now.source }
    requires tables { AreTables (V.db view.now).schema (V.db view.now).rows }
    ensures { IfOk result (λ reply. reply ≡ reply_of (query_rows (V.db view.now).schema (V.db view.now).rows query.now)) }
{
    match &query.source {
        Source1::Table(table) => {
            let kept = kept_in_table(alloc, view, *table, query.cond.as_ref())?;
            plain_reply(alloc, LentRows::of_list(alloc, &kept)?, query)
        }
        Source1::View(_) | Source1::Pair { .. } => unreachable!(),
    }
}
