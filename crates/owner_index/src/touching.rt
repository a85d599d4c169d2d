ghost use Rattle.std.specs.Prelude.{◌≡◌, ◌⊎◌, Contains, IfOk, OnOk, Some};
ghost use Rattle.std.specs.Option.{option_copied};
ghost use Rattle.own_base.specs.declared.row_name.RowName.{RowName as Seen};
ghost use Rattle.own_model.specs.Db.{Db};
ghost use Rattle.owner_index.specs.Adds.{Adds};
ghost use Rattle.move_model.specs.KeepsEdges.{KeepsEdges};
ghost use Rattle.move_model.specs.Touches.{Touches, TouchesBy, cell_at};
ghost use Rattle.owner_model.specs.Joins.{value_of};
ghost use Rattle.schema_model.specs.OwnerSchema.{IsOwnerSchema};
ghost use Rattle.state_model.specs.LeadTo.{LeadTo};

use crate::lower::{add_named, add_naming};
use link_model::Referring;
use own_base::{Change, List, MakeCopy, Row, RowName};
use own_model::{Edge, StoreView};
use std::alloc::{AllocError, Global};

/// Adds the row that a row names in an edge's column, where there is a row and it names one.
fn add_named_by(
    alloc: Global,
    edge: &Edge,
    row: Option<&Row>,
    work: &mut List<RowName>,
) -> Result<(), AllocError>
    ensures { OnOk result (Adds (λ name. (name.table ≡ edge.now.lower) × (cell_at (option_copied row.entry) edge.now.column.0 ≡ Some (value_of name.key))) work.old work.new) }
{
    match row {
        Some(row) => add_named(alloc, edge.lower, row.get(edge.column), work),
        None => Ok(()),
    }
}

/// Adds the rows that a change's row names in an edge's column, before and after.
fn add_named_by_both(
    alloc: Global,
    edge: &Edge,
    change: &Change,
    work: &mut List<RowName>,
) -> Result<(), AllocError>
    ensures { OnOk result (Adds (λ name. (name.table ≡ edge.now.lower)
        × ((cell_at change.now.before edge.now.column.0 ≡ Some (value_of name.key)) ⊎ (cell_at change.now.after edge.now.column.0 ≡ Some (value_of name.key)))) work.old work.new) }
{
    add_named_by(alloc, edge, change.before.as_ref(), work)?;
    add_named_by(alloc, edge, change.after.as_ref(), work)?;
    Ok(())
}

/// Adds the rows that a change touches by an edge.
fn add_touched_by<V: StoreView, R: Referring>(
    alloc: Global,
    view: &V,
    references: &R,
    edge: &Edge,
    change: &Change,
    work: &mut List<RowName>,
) -> Result<(), AllocError>
    requires linked { R.linked references.now ≡ V.db view.now }
    requires owner { IsOwnerSchema (V.db view.now).schema }
    requires among { Contains (V.db view.now).schema.edges edge.now }
    ensures { OnOk result (Adds (λ name. TouchesBy (V.db view.now) change.now name edge.now) work.old work.new) }
{
    if edge.upper != change.name.table {
        Ok(())
    } else if edge.holder != edge.lower {
        add_named_by_both(alloc, edge, change, work)
    } else if change.before.is_some() != change.after.is_some() {
        add_naming(
            alloc,
            view,
            references,
            edge.holder,
            edge.column,
            &change.name.key,
            work,
        )
    } else {
        Ok(())
    }
}

/// Adds the rows that a change touches.
fn add_touched<V: StoreView, R: Referring>(
    alloc: Global,
    view: &V,
    references: &R,
    change: &Change,
    work: &mut List<RowName>,
) -> Result<(), AllocError>
    requires linked { R.linked references.now ≡ V.db view.now }
    requires owner { IsOwnerSchema (V.db view.now).schema }
    ensures { OnOk result (Adds (Touches (V.db view.now) change.now) work.old work.new) }
{
    work.add(change.name.copy(alloc)?)?;
    for edge in view.schema().edges.items() {
        add_touched_by(alloc, view, references, edge, change, work)?;
    }
    Ok(())
}

/// The rows whose own edges may differ before and after changes: from each other row the same edges lead up. The view and
/// the references are of the state after the changes.
pub fn touched<V: StoreView, R: Referring>(
    alloc: Global,
    view: &V,
    references: &R,
    changes: &[Change],
) -> Result<List<RowName>, AllocError>
    requires linked { R.linked references.now ≡ V.db view.now }
    requires owner { IsOwnerSchema (V.db view.now).schema }
    ensures { IfOk result (λ names. (before : Db) → (V.db view.now).schema ≡ before.schema → LeadTo before (V.db view.now) changes.now
        → (name : Seen) → ¬ (Contains names name) → KeepsEdges before (V.db view.now) name) }
{
    let mut names = List::new(alloc);
    for change in changes {
        add_touched(alloc, view, references, change, &mut names)?;
    }
    Ok(names)
}
