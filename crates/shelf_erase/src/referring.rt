ghost use Rattle.std.specs.Prelude.{◌≡◌, OnOk, Some, length, slice_get};
ghost use Rattle.owner_graph.specs.Graph.{IsGraphOf};
ghost use Rattle.shelf_erase.specs.ChangeAt.{change_at, removal_at};
ghost use Rattle.shelf_erase.specs.Refers.{IsReferring, Refers, RefersOf, RefersToGone, refers_to};
ghost use Rattle.shelf_erase.specs.Told.{AreTold, Tells};
ghost use Rattle.state_model.specs.Sound.{Sound};

use crate::becoming::add_names;
use crate::changes::Changes;
use crate::lists::referrers_of;
use link_model::Linked;
use own_base::{Change, ColNo, RowName, Subject, TableNo};
use own_model::{Column, TableDef};
use owner_graph::Graph;
use std::alloc::{AllocError, Global};

/// Whether a column refers to a table. Takes no memory.
fn refers_to(column: &Column, table: TableNo) -> bool
    ensures { result ≡ refers_to column.now table.0 }
{
    match column.refers {
        Some((_, target)) => target.0 == table.0,
        None => false,
    }
}

/// Adds what becomes of the rows of a table that refer to a row in the column of a number.
fn add_column<V: Linked>(
    alloc: Global,
    view: &V,
    graph: &Graph,
    subject: &Subject,
    removals: &Changes,
    gone: &RowName,
    table: TableNo,
    definition: &TableDef,
    number: usize,
    column: &Column,
    changes: &mut Changes,
) -> Result<(), AllocError>
    requires sound { Sound (V.db view.now) }
    requires graph { IsGraphOf (length (V.db view.now).schema.tables) (V.db view.now).schema.edges graph.now }
    requires removals { AreTold (removal_at (V.db view.now) subject.now.0) removals.now }
    requires table { slice_get (V.db view.now).schema.tables table.0 ≡ Some definition.now }
    requires column { slice_get definition.now.columns number ≡ Some column.now }
    ensures { OnOk result (Tells (change_at (V.db view.now) subject.now.0) (IsReferring (V.db view.now) gone.now table.0 column.now number) changes.old changes.new) }
{
    if !refers_to(column, gone.table) {
        return Ok(());
    }
    let place = ColNo(number as u32);
    let names = referrers_of(alloc, view, table, place, &gone.key)?;
    add_names(
        alloc,
        view,
        graph,
        subject,
        removals,
        names.items(),
        changes,
    )
}

/// Adds what becomes of the rows of a table that refer to a row.
fn add_table<V: Linked>(
    alloc: Global,
    view: &V,
    graph: &Graph,
    subject: &Subject,
    removals: &Changes,
    gone: &RowName,
    table: TableNo,
    definition: &TableDef,
    changes: &mut Changes,
) -> Result<(), AllocError>
    requires sound { Sound (V.db view.now) }
    requires graph { IsGraphOf (length (V.db view.now).schema.tables) (V.db view.now).schema.edges graph.now }
    requires removals { AreTold (removal_at (V.db view.now) subject.now.0) removals.now }
    requires table { slice_get (V.db view.now).schema.tables table.0 ≡ Some definition.now }
    ensures { OnOk result (Tells (change_at (V.db view.now) subject.now.0) (RefersOf (V.db view.now) gone.now table.0) changes.old changes.new) }
{
    for (number, column) in definition.columns.items().iter().enumerate() {
        add_column(
            alloc, view, graph, subject, removals, gone, table, definition, number, column, changes,
        )?;
    }
    Ok(())
}

/// Adds what becomes of the rows that refer to a row.
fn add_referring<V: Linked>(
    alloc: Global,
    view: &V,
    graph: &Graph,
    subject: &Subject,
    removals: &Changes,
    gone: &RowName,
    changes: &mut Changes,
) -> Result<(), AllocError>
    requires sound { Sound (V.db view.now) }
    requires graph { IsGraphOf (length (V.db view.now).schema.tables) (V.db view.now).schema.edges graph.now }
    requires removals { AreTold (removal_at (V.db view.now) subject.now.0) removals.now }
    ensures { OnOk result (Tells (change_at (V.db view.now) subject.now.0) (Refers (V.db view.now) gone.now) changes.old changes.new) }
{
    for (number, definition) in view.schema().tables.items().iter().enumerate() {
        let table = TableNo(number as u32);
        add_table(
            alloc, view, graph, subject, removals, gone, table, definition, changes,
        )?;
    }
    Ok(())
}

/// Adds what becomes of the rows that refer to one of these.
fn add_referring_to<V: Linked>(
    alloc: Global,
    view: &V,
    graph: &Graph,
    subject: &Subject,
    removals: &Changes,
    gone: &[Change],
    changes: &mut Changes,
) -> Result<(), AllocError>
    requires sound { Sound (V.db view.now) }
    requires graph { IsGraphOf (length (V.db view.now).schema.tables) (V.db view.now).schema.edges graph.now }
    requires removals { AreTold (removal_at (V.db view.now) subject.now.0) removals.now }
    requires gone { gone.now ≡ removals.now }
    ensures { OnOk result (Tells (change_at (V.db view.now) subject.now.0) (RefersToGone (V.db view.now) subject.now.0) changes.old changes.new) }
{
    for change in gone {
        add_referring(alloc, view, graph, subject, removals, &change.name, changes)?;
    }
    Ok(())
}

/// Adds what becomes of the rows that refer to a row that goes.
pub(crate) fn add_all_referring<V: Linked>(
    alloc: Global,
    view: &V,
    graph: &Graph,
    subject: &Subject,
    removals: &Changes,
    changes: &mut Changes,
) -> Result<(), AllocError>
    requires sound { Sound (V.db view.now) }
    requires graph { IsGraphOf (length (V.db view.now).schema.tables) (V.db view.now).schema.edges graph.now }
    requires removals { AreTold (removal_at (V.db view.now) subject.now.0) removals.now }
    ensures { OnOk result (Tells (change_at (V.db view.now) subject.now.0) (RefersToGone (V.db view.now) subject.now.0) changes.old changes.new) }
{
    let gone = removals.to_list(alloc)?;
    add_referring_to(alloc, view, graph, subject, removals, gone.items(), changes)
}
