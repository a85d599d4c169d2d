ghost use Rattle.std.specs.Prelude.{◌≡◌, IfOk, IsTrue, OnOk, Some, length, not};
ghost use Rattle.owner_graph.specs.Graph.{IsGraphOf};
ghost use Rattle.owner_model.specs.Joins.{row_of};
ghost use Rattle.schema_model.specs.Tables.{is_subject};
ghost use Rattle.shelf_erase.specs.Above.{AboveTold};
ghost use Rattle.shelf_erase.specs.ChangeAt.{as_named, removal_at};
ghost use Rattle.shelf_erase.specs.OwnIn.{IsNamedIn, IsOwnIn};
ghost use Rattle.shelf_erase.specs.Told.{AreTold, Tells};
ghost use Rattle.shelf_model.specs.Shelf.{shelf as shelf_copies};
ghost use Rattle.state_model.specs.Sound.{Sound};
ghost use Rattle.subject_erase.specs.Erasures as spec;
ghost use Rattle.subject_model.specs.Owners.{Owns};
ghost use Rattle.subject_model.specs.Stays.{stays};

use crate::changes::Changes;
use crate::sought::Sought;
use link_model::Linked;
use own_base::{Change, MakeCopy, Row, RowName, Subject, TableNo};
use owner_graph::Graph;
use row_reading::is_name;
use shelf_model::Shelved;
use std::alloc::{AllocError, Global};

/// That a row goes.
pub(crate) fn removal(alloc: Global, name: &RowName, row: &Row) -> Result<Change, AllocError>
    ensures { IfOk result (λ change. change ≡ spec.removal (as_named name.now row.now)) }
{
    let name = name.copy(alloc)?;
    let before = row.copy(alloc)?;
    Ok(Change {
        name,
        before: Some(before),
        after: None,
    })
}

/// Whether a row that a subject owns goes, given the changes by which rows of the tables above go.
fn goes<V: Linked>(
    alloc: Global,
    view: &V,
    graph: &Graph,
    subject: &Subject,
    removals: &Changes,
    copy: &Shelved,
) -> Result<bool, AllocError>
    requires sound { Sound (V.db view.now) }
    requires graph { IsGraphOf (length (V.db view.now).schema.tables) (V.db view.now).schema.edges graph.now }
    requires subject { IsTrue (is_subject (V.db view.now).schema subject.now.0.table.0) }
    requires row { row_of (V.db view.now) copy.now.name ≡ Some copy.now.row }
    requires owned { Owns (V.db view.now) subject.now.0 copy.now.name }
    ensures { IfOk result (λ goes. AboveTold (V.db view.now) subject.now.0 copy.now.name.table removals.now → goes ≡ not (stays (V.db view.now) subject.now.0 copy.now.name)) }
{
    if is_name(&copy.name, &subject.0) {
        return Ok(true);
    }
    let name = &copy.name;
    let row = &copy.row;
    let struck = Sought::Owned.is_above(alloc, view, graph, subject, removals, name, row)?;
    if struck {
        return Ok(true);
    }
    let kept = Sought::Kept.is_above(alloc, view, graph, subject, removals, name, row)?;
    Ok(!kept)
}

/// Adds that a row that a subject owns goes, where it does and is of a table.
fn add_going<V: Linked>(
    alloc: Global,
    view: &V,
    graph: &Graph,
    subject: &Subject,
    copy: &Shelved,
    table: TableNo,
    removals: &mut Changes,
) -> Result<(), AllocError>
    requires sound { Sound (V.db view.now) }
    requires graph { IsGraphOf (length (V.db view.now).schema.tables) (V.db view.now).schema.edges graph.now }
    requires subject { IsTrue (is_subject (V.db view.now).schema subject.now.0.table.0) }
    requires row { row_of (V.db view.now) copy.now.name ≡ Some copy.now.row }
    requires owned { Owns (V.db view.now) subject.now.0 copy.now.name }
    ensures { OnOk result (AboveTold (V.db view.now) subject.now.0 table removals.old
        → Tells (removal_at (V.db view.now) subject.now.0) (IsNamedIn copy.now.name table) removals.old removals.new) }
{
    if copy.name.table.0 != table.0 {
        return Ok(());
    }
    let goes = goes(alloc, view, graph, subject, removals, copy)?;
    if !goes {
        return Ok(());
    }
    let change = removal(alloc, &copy.name, &copy.row)?;
    removals.put(alloc, &change)
}

/// Adds what goes of the rows of a table that a subject owns, given the changes by which rows of the tables above go.
fn add_table<V: Linked>(
    alloc: Global,
    view: &V,
    graph: &Graph,
    subject: &Subject,
    shelf: &[Shelved],
    table: TableNo,
    removals: &mut Changes,
) -> Result<(), AllocError>
    requires sound { Sound (V.db view.now) }
    requires graph { IsGraphOf (length (V.db view.now).schema.tables) (V.db view.now).schema.edges graph.now }
    requires subject { IsTrue (is_subject (V.db view.now).schema subject.now.0.table.0) }
    requires shelf { shelf.now ≡ shelf_copies (V.db view.now) subject.now.0 }
    ensures { OnOk result (AboveTold (V.db view.now) subject.now.0 table removals.old
        → Tells (removal_at (V.db view.now) subject.now.0) (IsOwnIn (V.db view.now) subject.now.0 table) removals.old removals.new) }
{
    for copy in shelf {
        add_going(alloc, view, graph, subject, copy, table, removals)?;
    }
    Ok(())
}

/// The changes by which rows go, which the subject owns: in the graph's order, so those of the rows above each come before it.
pub(crate) fn removals_of<V: Linked>(
    alloc: Global,
    view: &V,
    graph: &Graph,
    subject: &Subject,
    shelf: &[Shelved],
) -> Result<Changes, AllocError>
    requires sound { Sound (V.db view.now) }
    requires graph { IsGraphOf (length (V.db view.now).schema.tables) (V.db view.now).schema.edges graph.now }
    requires subject { IsTrue (is_subject (V.db view.now).schema subject.now.0.table.0) }
    requires shelf { shelf.now ≡ shelf_copies (V.db view.now) subject.now.0 }
    ensures { IfOk result (AreTold (removal_at (V.db view.now) subject.now.0)) }
{
    let mut removals = Changes::new();
    for table in graph.order() {
        add_table(alloc, view, graph, subject, shelf, *table, &mut removals)?;
    }
    Ok(removals)
}
