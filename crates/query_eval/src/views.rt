ghost use Rattle.std.specs.Prelude.{◌≡◌, IfOk};
ghost use Rattle.query_model.specs.Query.{view_rows};
ghost use Rattle.query_eval.specs.Sources.{IsBaseOf};
ghost use Rattle.query_eval.specs.Tables.{AreTables};

use crate::grouping::grouped_rows;
use crate::in_order::put_in_order;
use crate::kept_source::kept_in_source;
use crate::shown::shown_rows;
use own_base::{List, Row};
use own_model::{StoreView, ViewDef};
use std::alloc::{AllocError, Global};

/// The rows of a view, however many, in its own order.
#[tactic(auto, unfolding(query_model::specs::Query::view_rows, query_model::specs::Query::selected))]
pub(crate) fn view_rows<V: StoreView>(
    alloc: Global,
    view: &V,
    definition: &ViewDef,
) -> Result<List<Row>, AllocError>
    requires source { IsBaseOf (V.db view.now).schema definition.now.query.source }
    requires tables { AreTables (V.db view.now).schema (V.db view.now).rows }
    ensures { IfOk result (λ rows. rows ≡ view_rows (V.db view.now).rows definition.now) }
{
    let query = &definition.query;
    let mut kept = kept_in_source(alloc, view, &query.source, query.cond.as_ref(), None)?;
    if query.grouped {
        return grouped_rows(alloc, &kept, query);
    }
    put_in_order(&mut kept, query.order)?;
    shown_rows(alloc, query.items.items(), &kept)
}
