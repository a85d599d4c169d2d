ghost use Rattle.std.specs.Prelude.{◌≡◌, true, IfOk};
ghost use Rattle.query_model.specs.Query.{grouped, in_order, query_rows, reply_of};
ghost use Rattle.query_eval.specs.Sources.{IsBaseOf};
ghost use Rattle.query_model.specs.Stored.{AreStored};
ghost use Rattle.query_eval.specs.Tables.{AreTables};

use crate::groups::Groups;
use crate::in_order::rows_in_order;
use crate::kept_source::kept_in_source;
use crate::lent_rows::LentRows;
use own_base::{List, Row};
use own_model::{BoundSelect, LimitName, REPLY_ROWS, Refusal, Reply, StoreView};
use std::alloc::{AllocError, Global};

/// The rows of a grouped select, from the rows that WHERE keeps.
pub(crate) fn grouped_rows(
    alloc: Global,
    kept: &LentRows<'_>,
    query: &BoundSelect,
) -> Result<List<Row>, AllocError>
    requires { AreStored kept.now }
    ensures { IfOk result (λ rows. rows ≡ in_order query.now.order (grouped query.now.items query.now.group kept.now)) }
{
    let groups = Groups::of_rows(alloc, query.items.items(), query.group, kept.rows())?;
    rows_in_order(groups.rows(alloc)?, query.order)
}

/// The reply to a grouped select, from the rows that WHERE keeps. The groups are counted before values are copied.
#[tactic(auto, using(crate::proofs::Replies::too_many_ordered, crate::proofs::Replies::few_ordered))]
pub(crate) fn grouped_reply(
    alloc: Global,
    kept: &LentRows<'_>,
    query: &BoundSelect,
) -> Result<Reply, AllocError>
    requires { AreStored kept.now }
    ensures { IfOk result (λ reply. reply ≡ reply_of (in_order query.now.order (grouped query.now.items query.now.group kept.now))) }
{
    let groups = Groups::of_rows(alloc, query.items.items(), query.group, kept.rows())?;
    if groups.count() as u64 > REPLY_ROWS {
        return Ok(Reply::Refused(Refusal::Limit(LimitName::Reply)));
    }
    let rows = groups.rows(alloc)?;
    Ok(Reply::Rows(rows_in_order(rows, query.order)?))
}

/// The reply to a grouped select, from a table of a store or from two that are joined.
#[tactic(auto, using(crate::proofs::BaseRows::of_base), unfolding(query_model::specs::Query::query_rows, query_model::specs::Query::selected))]
pub(crate) fn group<V: StoreView>(
    alloc: Global,
    view: &V,
    query: &BoundSelect,
) -> Result<Reply, AllocError>
    requires grouped { query.now.grouped ≡ true }
    requires source { IsBaseOf (V.db view.now).schema query.now.source }
    requires tables { AreTables (V.db view.now).schema (V.db view.now).rows }
    ensures { IfOk result (λ reply. reply ≡ reply_of (query_rows (V.db view.now).schema (V.db view.now).rows query.now)) }
{
    let kept = kept_in_source(alloc, view, &query.source, query.cond.as_ref(), None)?;
    grouped_reply(alloc, &kept, query)
}
