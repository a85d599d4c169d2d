ghost use Rattle.std.specs.Prelude.{◌≡◌, IfOk, IsTrue, length};
ghost use Rattle.std.specs.List.{AllByRecursion};
ghost use Rattle.owner_graph.specs.Graph.{IsGraphOf};
ghost use Rattle.owner_model.specs.Joins.{row_of};
ghost use Rattle.schema_model.specs.Tables.{is_subject};
ghost use Rattle.shelf_erase.specs.ChangeAt.{change_at, removal_at};
ghost use Rattle.shelf_erase.specs.Told.{AreTold};
ghost use Rattle.shelf_model.specs.Shelf.{shelf as shelf_copies};
ghost use Rattle.state_model.specs.MayBePut.{MayBePut};
ghost use Rattle.state_model.specs.Put.{put};
ghost use Rattle.state_model.specs.Sound.{Sound};
ghost use Rattle.subject_erase.specs.Plan.{IsPlan, plan_of};
ghost use Rattle.subject_model.specs.Forget.{forget};

use crate::becoming::{add_names, add_shelf};
use crate::changes::Changes;
use crate::going::removals_of;
use crate::lists::{seen_of, shelf_of};
use crate::referring::add_all_referring;
use link_model::Linked;
use own_base::{Change, List, Subject};
use owner_graph::Graph;
use shelf_model::{Shelved, Shelves};
use std::alloc::{AllocError, Global};

/// What becomes of the rows that the subject reaches, and of those that refer to rows that go: so of all rows.
fn changes_of<V: Linked + Shelves>(
    alloc: Global,
    view: &V,
    graph: &Graph,
    subject: &Subject,
    removals: &Changes,
    shelf: &[Shelved],
) -> Result<Changes, AllocError>
    requires sound { Sound (V.db view.now) }
    requires one { V.shelved view.now ≡ V.db view.now }
    requires subject { IsTrue (is_subject (V.db view.now).schema subject.now.0.table.0) }
    requires graph { IsGraphOf (length (V.db view.now).schema.tables) (V.db view.now).schema.edges graph.now }
    requires removals { AreTold (removal_at (V.db view.now) subject.now.0) removals.now }
    requires shelf { shelf.now ≡ shelf_copies (V.db view.now) subject.now.0 }
    ensures { IfOk result (AreTold (change_at (V.db view.now) subject.now.0)) }
{
    let mut changes = Changes::new();
    add_shelf(alloc, view, subject, removals, shelf, &mut changes)?;
    let seen = seen_of(alloc, view, subject)?;
    add_names(
        alloc,
        view,
        graph,
        subject,
        removals,
        seen.items(),
        &mut changes,
    )?;
    add_all_referring(alloc, view, graph, subject, removals, &mut changes)?;
    Ok(changes)
}

/// The changes by which a subject is erased, by table, then key: each row that doesn't stay goes, and of each that stays and
/// loses a value the rest is left. The graph is that of the view's edges. Only rows are looked at that the subject reaches, that
/// are right above those, or that refer to rows that go.
pub fn erase_changes<V: Linked + Shelves>(
    alloc: Global,
    view: &V,
    graph: &Graph,
    subject: &Subject,
) -> Result<List<Change>, AllocError>
    requires sound { Sound (V.db view.now) }
    // The rows and what is kept of subjects are of one database.
    requires one { V.shelved view.now ≡ V.db view.now }
    requires subject { IsTrue (is_subject (V.db view.now).schema subject.now.0.table.0) }
    requires graph { IsGraphOf (length (V.db view.now).schema.tables) (V.db view.now).schema.edges graph.now }
    ensures was { IfOk result (AllByRecursion (λ change. change.before ≡ row_of (V.db view.now) change.name)) }
    ensures may { IfOk result (MayBePut (V.db view.now).schema.tables) }
    ensures put { IfOk result (λ changes. put (V.db view.now) changes ≡ forget (V.db view.now) subject.now.0) }
    ensures plan { IfOk result (λ changes. IsPlan (V.db view.now) subject.now.0 (plan_of changes)) }
{
    let shelf = shelf_of(alloc, view, subject)?;
    let removals = removals_of(alloc, view, graph, subject, shelf.items())?;
    let changes = changes_of(alloc, view, graph, subject, &removals, shelf.items())?;
    changes.to_list(alloc)
}
