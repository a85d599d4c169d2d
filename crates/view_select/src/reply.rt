ghost use Rattle.std.specs.Prelude.{◌≡◌, false, IfOk};
ghost use Rattle.own_model.specs.declared.bound.Source1.TheVariants.{View};
ghost use Rattle.query_model.specs.Query.{query_rows, reply_of};
ghost use Rattle.state_model.specs.Sound.{IsWellFormed};
ghost use Rattle.view_select.specs.ShowsViews.{ShowsViews};

use crate::kept::kept_in_view;
use own_base::ViewNo;
use own_model::{BoundSelect, Reply, StoreView};
use query_eval::select_kept;
use std::alloc::{AllocError, Global};
use view_deltas::Views;

/// The reply to a bound SELECT from a view of a store, by the rows that are kept for it. Neither a row of a table nor the view's
/// query is looked at.
#[tactic(auto, unfolding(query_model::specs::Query::query_rows))]
pub fn view_reply<V: StoreView>(
    alloc: Global,
    store: &V,
    views: &Views,
    number: ViewNo,
    query: &BoundSelect,
) -> Result<Reply, AllocError>
    requires well_formed { IsWellFormed (V.db store.now) }
    requires shows { ShowsViews (V.db store.now) views.now }
    requires viewed { query.now.source ≡ View number }
    requires plain { query.now.grouped ≡ false }
    ensures { IfOk result (λ reply. reply ≡ reply_of (query_rows (V.db store.now).schema (V.db store.now).rows query.now)) }
{
    let kept = kept_in_view(alloc, store, views, number, query.cond.as_ref())?;
    select_kept(alloc, &kept, query)
}
