ghost use Rattle.std.specs.Prelude.{◌≡◌, OnOk, length};
ghost use Rattle.owner_graph.specs.Graph.{IsGraphOf};
ghost use Rattle.owner_index.specs.Settled.{SettlesAll, SettlesTable};
ghost use Rattle.schema_model.specs.OwnerSchema.{IsOwnerSchema};

use crate::index::OwnerIndex;
use crate::names::names_of;
use crate::settle::settle;
use link_model::Referring;
use own_base::{List, RowName, TableNo};
use own_model::StoreView;
use owner_graph::Graph;
use std::alloc::{AllocError, Global};

/// Settles the rows of the work that are of a table, each once.
fn settle_table<V: StoreView, R: Referring>(
    alloc: Global,
    graph: &Graph,
    view: &V,
    references: &R,
    table: TableNo,
    index: &mut OwnerIndex,
    work: &mut List<RowName>,
) -> Result<(), AllocError>
    requires graph { IsGraphOf (length (V.db view.now).schema.tables) (V.db view.now).schema.edges graph.now }
    requires linked { R.linked references.now ≡ V.db view.now }
    requires owner { IsOwnerSchema (V.db view.now).schema }
    ensures { OnOk result (SettlesTable (V.db view.now) table index.old index.new work.old work.new) }
{
    let names = names_of(alloc, table, work.items())?;
    for name in names.items() {
        settle(alloc, graph, view, references, name, index, work)?;
    }
    Ok(())
}

/// Settles the rows of the work, and those that come into it, table by table in the graph's order: so the rows above each are
/// settled before it.
pub(crate) fn settle_all<V: StoreView, R: Referring>(
    alloc: Global,
    graph: &Graph,
    view: &V,
    references: &R,
    index: &mut OwnerIndex,
    work: &mut List<RowName>,
) -> Result<(), AllocError>
    requires graph { IsGraphOf (length (V.db view.now).schema.tables) (V.db view.now).schema.edges graph.now }
    requires linked { R.linked references.now ≡ V.db view.now }
    requires owner { IsOwnerSchema (V.db view.now).schema }
    ensures { OnOk result (SettlesAll (V.db view.now) index.old index.new work.old work.new) }
{
    for table in graph.order() {
        settle_table(alloc, graph, view, references, *table, index, work)?;
    }
    Ok(())
}
