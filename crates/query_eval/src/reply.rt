ghost use Rattle.std.specs.Prelude.{◌≡◌, ◌<◌, false, length, IfOk};
ghost use Rattle.own_model.specs.declared.bound.Source1.TheVariants.{View};
ghost use Rattle.query_model.specs.Query.{query_rows, reply_of};
ghost use Rattle.query_eval.specs.Tables.{AreTables};
ghost use Rattle.readable_model.specs.Sources.{IsThere};
ghost use Rattle.query_eval.specs.Views.{AreViewsThere};

use crate::grouping::group;
use crate::joining::join;
use crate::selection::{select, select_rows};
use crate::views::view_rows;
use own_base::ViewNo;
use own_model::{BoundSelect, Reply, Source1, StoreView};
use std::alloc::{AllocError, Global};

/// The reply to a bound SELECT from a view: its rows are made anew from the view's tables.
fn select_from_view<V: StoreView>(
    alloc: Global,
    view: &V,
    number: ViewNo,
    query: &BoundSelect,
) -> Result<Reply, AllocError>
    requires tables { AreTables (V.db view.now).schema (V.db view.now).rows }
    requires views { AreViewsThere (V.db view.now).schema }
    requires there { number.0 < length (V.db view.now).schema.views }
    requires viewed { query.now.source ≡ View number }
    requires plain { query.now.grouped ≡ false }
    ensures { IfOk result (λ reply. reply ≡ reply_of (query_rows (V.db view.now).schema (V.db view.now).rows query.now)) }
{
    let definition = &view.schema().views.items()[number.0 as usize];
    let rows = view_rows(alloc, view, definition)?;
    select_rows(alloc, rows.items(), query)
}

/// The reply to a bound SELECT.
#[tactic(auto, using(crate::proofs::BoundSelects::grouped_base))]
pub fn select_reply<V: StoreView>(
    alloc: Global,
    view: &V,
    query: &BoundSelect,
) -> Result<Reply, AllocError>
    requires tables { AreTables (V.db view.now).schema (V.db view.now).rows }
    requires views { AreViewsThere (V.db view.now).schema }
    requires there { IsThere (V.db view.now).schema query.now }
    ensures { IfOk result (λ reply. reply ≡ reply_of (query_rows (V.db view.now).schema (V.db view.now).rows query.now)) }
{
    if query.grouped {
        return group(alloc, view, query);
    }
    match &query.source {
        Source1::Table(_) => select(alloc, view, query),
        Source1::Pair { .. } => join(alloc, view, query),
        Source1::View(number) => select_from_view(alloc, view, *number, query),
    }
}
