ghost use Rattle.std.specs.Prelude.{◌≡◌, false, IfOk};
ghost use Rattle.query_model.specs.Query.{query_rows, reply_of};
ghost use Rattle.query_eval.specs.Sources.{IsPairOf};
ghost use Rattle.query_eval.specs.Tables.{AreTables};

use crate::kept_source::kept_in_source;
use crate::selection::plain_reply;
use own_model::{BoundSelect, REPLY_ROWS, Reply, Source1, StoreView};
use std::alloc::{AllocError, Global};

/// The reply to a select from two tables of a store that are joined.
#[tactic(auto, unfolding(query_model::specs::Query::query_rows, query_model::specs::Query::selected))]
pub(crate) fn join<V: StoreView>(
    alloc: Global,
    view: &V,
    query: &BoundSelect,
) -> Result<Reply, AllocError>
    requires plain { query.now.grouped ≡ false }
    requires source { IsPairOf (V.db view.now).schema query.now.source }
    requires tables { AreTables (V.db view.now).schema (V.db view.now).rows }
    ensures { IfOk result (λ reply. reply ≡ reply_of (query_rows (V.db view.now).schema (V.db view.now).rows query.now)) }
{
    match &query.source {
        Source1::Pair { .. } => {
            let most = Some(REPLY_ROWS);
            let kept = kept_in_source(alloc, view, &query.source, query.cond.as_ref(), most)?;
            plain_reply(alloc, kept, query)
        }
        Source1::Table(_) | Source1::View(_) => unreachable!(),
    }
}
