ghost use Rattle.std.specs.Prelude.{◌≡◌, ◌≢◌, ◌++◌, Contains, IfOk, OnOk, Some, length, map};
ghost use Rattle.owner_graph.specs.Graph.{IsGraphOf};
ghost use Rattle.owner_index.specs.Uppers.{AddsUppers, AreUppers, as_upper};
ghost use Rattle.owner_model.specs.Joins.{row_of};
ghost use Rattle.schema_model.specs.OwnerSchema.{IsOwnerSchema};

use crate::referrers::referrers;
use crate::rows::{is_there, row_named};
use link_model::Referring;
use own_base::{List, MakeCopy, Row, RowName};
use own_model::{Edge, StoreView};
use owner_graph::Graph;
use std::alloc::{AllocError, Global};

/// A row to which an edge leads up, and whether the edge gives ownership.
#[derive(Drop)]
pub(crate) struct Upper {
    pub(crate) owner: bool,
    pub(crate) name: RowName,
}

/// Adds rows as upper rows.
fn add_all(
    alloc: Global,
    owner: bool,
    names: &[RowName],
    uppers: &mut List<Upper>,
) -> Result<(), AllocError>
    ensures { OnOk result (uppers.new ≡ uppers.old ++ map (as_upper owner) names.now) }
{
    for name in names {
        let name = name.copy(alloc)?;
        uppers.add(Upper { owner, name })?;
    }
    Ok(())
}

/// Adds the row that the edge's column names, where the lower rows hold the column and the row is there.
fn add_named<V: StoreView>(
    alloc: Global,
    view: &V,
    edge: &Edge,
    name: &RowName,
    row: &Row,
    uppers: &mut List<Upper>,
) -> Result<(), AllocError>
    requires among { Contains (V.db view.now).schema.edges edge.now }
    requires of_lower { name.now.table ≡ edge.now.lower }
    requires held { edge.now.holder ≡ edge.now.lower }
    requires row { row_of (V.db view.now) name.now ≡ Some row.now }
    ensures { OnOk result (AddsUppers (V.db view.now) name.now edge.now uppers.old uppers.new) }
{
    match row_named(alloc, edge.upper, row.get(edge.column))? {
        Some(upper) if is_there(view, &upper) => uppers.add(Upper {
            owner: edge.owner,
            name: upper,
        }),
        _ => Ok(()),
    }
}

/// Adds the rows whose column names the row, where the upper rows hold the column.
fn add_naming<V: StoreView, R: Referring>(
    alloc: Global,
    view: &V,
    index: &R,
    edge: &Edge,
    name: &RowName,
    row: &Row,
    uppers: &mut List<Upper>,
) -> Result<(), AllocError>
    requires linked { R.linked index.now ≡ V.db view.now }
    requires owner { IsOwnerSchema (V.db view.now).schema }
    requires among { Contains (V.db view.now).schema.edges edge.now }
    requires of_lower { name.now.table ≡ edge.now.lower }
    requires held { edge.now.holder ≢ edge.now.lower }
    requires row { row_of (V.db view.now) name.now ≡ Some row.now }
    ensures { OnOk result (AddsUppers (V.db view.now) name.now edge.now uppers.old uppers.new) }
{
    let names = referrers(alloc, index, edge.holder, edge.column, &name.key)?;
    add_all(alloc, edge.owner, names.items(), uppers)?;
    Ok(())
}

/// Adds the upper rows to which an edge leads from a row.
fn add_along<V: StoreView, R: Referring>(
    alloc: Global,
    view: &V,
    index: &R,
    edge: &Edge,
    name: &RowName,
    row: &Row,
    uppers: &mut List<Upper>,
) -> Result<(), AllocError>
    requires linked { R.linked index.now ≡ V.db view.now }
    requires owner { IsOwnerSchema (V.db view.now).schema }
    requires among { Contains (V.db view.now).schema.edges edge.now }
    requires of_lower { name.now.table ≡ edge.now.lower }
    requires row { row_of (V.db view.now) name.now ≡ Some row.now }
    ensures { OnOk result (AddsUppers (V.db view.now) name.now edge.now uppers.old uppers.new) }
{
    if edge.holder == edge.lower {
        add_named(alloc, view, edge, name, row, uppers)?;
    } else {
        add_naming(alloc, view, index, edge, name, row, uppers)?;
    }
    Ok(())
}

/// The rows to which the edges out of a row lead up.
pub(crate) fn uppers_of<V: StoreView, R: Referring>(
    alloc: Global,
    graph: &Graph,
    view: &V,
    index: &R,
    name: &RowName,
    row: &Row,
) -> Result<List<Upper>, AllocError>
    requires graph { IsGraphOf (length (V.db view.now).schema.tables) (V.db view.now).schema.edges graph.now }
    requires linked { R.linked index.now ≡ V.db view.now }
    requires owner { IsOwnerSchema (V.db view.now).schema }
    requires row { row_of (V.db view.now) name.now ≡ Some row.now }
    ensures { IfOk result (AreUppers (V.db view.now) name.now) }
{
    let mut uppers = List::new(alloc);
    for edge in graph.edges_of(name.table) {
        add_along(alloc, view, index, edge, name, row, &mut uppers)?;
    }
    Ok(uppers)
}
