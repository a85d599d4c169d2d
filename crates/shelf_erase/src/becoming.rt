ghost use Rattle.std.specs.Prelude.{◌≡◌, Contains, IfOk, OnOk, Some, length};
ghost use Rattle.own_base.specs.declared.row_name.RowName.{RowName as Seen};
ghost use Rattle.owner_graph.specs.Graph.{IsGraphOf};
ghost use Rattle.owner_model.specs.Joins.{row_of};
ghost use Rattle.shelf_erase.specs.ChangeAt.{change_at, removal_at};
ghost use Rattle.shelf_erase.specs.Told.{AreTold, Tells};
ghost use Rattle.shelf_model.specs.Shelf.{shelf as shelf_copies};
ghost use Rattle.state_model.specs.Sound.{Sound};
ghost use Rattle.subject_model.specs.Owners.{Owns, by as reaching};

use crate::changes::Changes;
use crate::going::removal;
use crate::losing::blanked_row;
use crate::sought::by_of;
use crate::upper::row_of;
use anon_rules::blanked;
use link_model::Linked;
use own_base::{Change, EdgeNo, Row, RowName, Subject};
use own_model::StoreView;
use owner_graph::Graph;
use row_reading::definition_of;
use shelf_model::Shelved;
use std::alloc::{AllocError, Global};

/// What becomes of a row, given the changes by which rows go, and the edges by which the subject reaches the row.
fn becomes<V: StoreView>(
    alloc: Global,
    view: &V,
    removals: &Changes,
    by: &[EdgeNo],
    name: &RowName,
    row: &Row,
) -> Result<Option<Change>, AllocError>
    requires sound { Sound (V.db view.now) }
    requires row { row_of (V.db view.now) name.now ≡ Some row.now }
    ensures { IfOk result (λ change. (subject : Seen) → AreTold (removal_at (V.db view.now) subject) removals.now → by.now ≡ reaching (V.db view.now) subject name.now
        → change ≡ change_at (V.db view.now) subject name.now) }
{
    if removals.has(name) {
        let change = removal(alloc, name, row)?;
        return Ok(Some(change));
    }
    let ruled = blanked(view.schema().edges.items(), by);
    let definition = definition_of(view, name.table);
    blanked_row(alloc, removals, definition, ruled, name, row)
}

/// Adds what becomes of it.
fn add_row<V: StoreView>(
    alloc: Global,
    view: &V,
    removals: &Changes,
    by: &[EdgeNo],
    name: &RowName,
    row: &Row,
    changes: &mut Changes,
) -> Result<(), AllocError>
    requires sound { Sound (V.db view.now) }
    requires row { row_of (V.db view.now) name.now ≡ Some row.now }
    ensures { OnOk result ((subject : Seen) → AreTold (removal_at (V.db view.now) subject) removals.now → by.now ≡ reaching (V.db view.now) subject name.now
        → Tells (change_at (V.db view.now) subject) (λ other. other ≡ name.now) changes.old changes.new) }
{
    match becomes(alloc, view, removals, by, name, row)? {
        Some(change) => changes.put(alloc, &change),
        None => Ok(()),
    }
}

/// Adds what becomes of a row, by the edges that are found for it.
fn add_found<V: Linked>(
    alloc: Global,
    view: &V,
    graph: &Graph,
    subject: &Subject,
    removals: &Changes,
    name: &RowName,
    row: &Row,
    changes: &mut Changes,
) -> Result<(), AllocError>
    requires sound { Sound (V.db view.now) }
    requires graph { IsGraphOf (length (V.db view.now).schema.tables) (V.db view.now).schema.edges graph.now }
    requires removals { AreTold (removal_at (V.db view.now) subject.now.0) removals.now }
    requires row { row_of (V.db view.now) name.now ≡ Some row.now }
    ensures { OnOk result (Tells (change_at (V.db view.now) subject.now.0) (λ other. other ≡ name.now) changes.old changes.new) }
{
    let by = by_of(alloc, view, graph, subject, name, row)?;
    add_row(alloc, view, removals, by.items(), name, row, changes)
}

/// Adds what becomes of the row of a name, where there is one.
fn add_named<V: Linked>(
    alloc: Global,
    view: &V,
    graph: &Graph,
    subject: &Subject,
    removals: &Changes,
    name: &RowName,
    changes: &mut Changes,
) -> Result<(), AllocError>
    requires sound { Sound (V.db view.now) }
    requires graph { IsGraphOf (length (V.db view.now).schema.tables) (V.db view.now).schema.edges graph.now }
    requires removals { AreTold (removal_at (V.db view.now) subject.now.0) removals.now }
    ensures { OnOk result (Tells (change_at (V.db view.now) subject.now.0) (λ other. other ≡ name.now) changes.old changes.new) }
{
    match row_of(view, name) {
        Some(row) => add_found(alloc, view, graph, subject, removals, name, row, changes),
        None => Ok(()),
    }
}

/// Adds what becomes of the rows of these names.
pub(crate) fn add_names<V: Linked>(
    alloc: Global,
    view: &V,
    graph: &Graph,
    subject: &Subject,
    removals: &Changes,
    names: &[RowName],
    changes: &mut Changes,
) -> Result<(), AllocError>
    requires sound { Sound (V.db view.now) }
    requires graph { IsGraphOf (length (V.db view.now).schema.tables) (V.db view.now).schema.edges graph.now }
    requires removals { AreTold (removal_at (V.db view.now) subject.now.0) removals.now }
    ensures { OnOk result (Tells (change_at (V.db view.now) subject.now.0) (Contains names.now) changes.old changes.new) }
{
    for name in names {
        add_named(alloc, view, graph, subject, removals, name, changes)?;
    }
    Ok(())
}

/// Adds what becomes of the rows that the subject owns.
pub(crate) fn add_shelf<V: StoreView>(
    alloc: Global,
    view: &V,
    subject: &Subject,
    removals: &Changes,
    shelf: &[Shelved],
    changes: &mut Changes,
) -> Result<(), AllocError>
    requires sound { Sound (V.db view.now) }
    requires removals { AreTold (removal_at (V.db view.now) subject.now.0) removals.now }
    requires shelf { shelf.now ≡ shelf_copies (V.db view.now) subject.now.0 }
    ensures { OnOk result (Tells (change_at (V.db view.now) subject.now.0) (Owns (V.db view.now) subject.now.0) changes.old changes.new) }
{
    for copy in shelf {
        let by = copy.by.items();
        add_row(alloc, view, removals, by, &copy.name, &copy.row, changes)?;
    }
    Ok(())
}
