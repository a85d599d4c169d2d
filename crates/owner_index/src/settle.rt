ghost use Rattle.std.specs.Prelude.{◌≡◌, [], Contains, IfOk, IsTrue, OnOk, length};
ghost use Rattle.own_base.specs.declared.row_name.RowName.{RowName as Seen};
ghost use Rattle.owner_graph.specs.Graph.{IsGraphOf};
ghost use Rattle.link_model.specs.Whose.{owners_at, reach_at};
ghost use Rattle.owner_index.specs.Held.{owners_of, reach_of};
ghost use Rattle.owner_index.specs.Settled.{HasBelow, IsRightAbove, Settles};
ghost use Rattle.owner_index.specs.declared.which.Which.TheVariants.{Owners, Reach};
ghost use Rattle.schema_model.specs.OwnerSchema.{IsOwnerSchema};

use crate::gather::set_of;
use crate::index::OwnerIndex;
use crate::lower::add_below;
use crate::rows::row_of;
use crate::upper::uppers_of;
use crate::which::Which;
use link_model::Referring;
use own_base::{List, MakeCopy, RowName, Subject};
use own_model::StoreView;
use owner_graph::Graph;
use row_reading::is_subject;
use std::alloc::{AllocError, Global};

/// Whose a row is.
#[derive(Drop)]
struct Subjects {
    owners: List<Subject>,
    reach: List<Subject>,
}

impl Subjects {
    /// Nobody's.
    fn none(alloc: Global) -> Subjects
        ensures owners { result.owners ≡ [] }
        ensures reach { result.reach ≡ [] }
    {
        Subjects {
            owners: List::new(alloc),
            reach: List::new(alloc),
        }
    }

    /// Whether an index holds just these for a row. Takes no memory.
    fn are_held(&self, index: &OwnerIndex, name: &RowName) -> bool
        ensures owners { IsTrue result → self.now.owners ≡ owners_of index.now name.now }
        ensures reach { IsTrue result → self.now.reach ≡ reach_of index.now name.now }
    {
        self.owners.items() == index.owners(name) && self.reach.items() == index.reach(name)
    }
}

/// Whose a row is, by itself and by what an index holds for its upper rows.
fn subjects_of<V: StoreView, R: Referring>(
    alloc: Global,
    graph: &Graph,
    view: &V,
    references: &R,
    index: &OwnerIndex,
    name: &RowName,
) -> Result<Subjects, AllocError>
    requires graph { IsGraphOf (length (V.db view.now).schema.tables) (V.db view.now).schema.edges graph.now }
    requires linked { R.linked references.now ≡ V.db view.now }
    requires owner { IsOwnerSchema (V.db view.now).schema }
    ensures owners { IfOk result (λ subjects. IsRightAbove (V.db view.now) Owners index.now name.now → subjects.owners ≡ owners_at (V.db view.now) name.now) }
    ensures reach { IfOk result (λ subjects. IsRightAbove (V.db view.now) Reach index.now name.now → subjects.reach ≡ reach_at (V.db view.now) name.now) }
{
    let Some(row) = row_of(view, name) else {
        return Ok(Subjects::none(alloc));
    };
    let uppers = uppers_of(alloc, graph, view, references, name, row)?;
    let schema = view.schema();
    let owners = set_of(alloc, schema, index, Which::Owners, name, uppers.items())?;
    let reach = set_of(alloc, schema, index, Which::Reach, name, uppers.items())?;
    Ok(Subjects { owners, reach })
}

/// Adds the rows to which a row hands down what is held for it: those below it, unless it is a subject row.
fn add_heirs<V: StoreView, R: Referring>(
    alloc: Global,
    view: &V,
    references: &R,
    name: &RowName,
    work: &mut List<RowName>,
) -> Result<(), AllocError>
    requires linked { R.linked references.now ≡ V.db view.now }
    requires owner { IsOwnerSchema (V.db view.now).schema }
    ensures longer { OnOk result ((other : Seen) → Contains work.old other → Contains work.new other) }
    ensures below { OnOk result (HasBelow (V.db view.now) name.now work.new) }
{
    if !is_subject(view.schema(), name.table.0 as usize) {
        add_below(alloc, view, references, name, work)?;
    }
    Ok(())
}

/// Gives a row what it is to have, where its upper rows have that. Where it is something else than the index holds, the rows
/// below come into the work.
pub(crate) fn settle<V: StoreView, R: Referring>(
    alloc: Global,
    graph: &Graph,
    view: &V,
    references: &R,
    name: &RowName,
    index: &mut OwnerIndex,
    work: &mut List<RowName>,
) -> Result<(), AllocError>
    requires graph { IsGraphOf (length (V.db view.now).schema.tables) (V.db view.now).schema.edges graph.now }
    requires linked { R.linked references.now ≡ V.db view.now }
    requires owner { IsOwnerSchema (V.db view.now).schema }
    ensures { OnOk result (Settles (V.db view.now) name.now index.old index.new work.old work.new) }
{
    let subjects = subjects_of(alloc, graph, view, references, index, name)?;
    if subjects.are_held(index, name) {
        return Ok(());
    }
    add_heirs(alloc, view, references, name, work)?;
    let key = name.copy(alloc)?;
    let Subjects { owners, reach } = subjects;
    index.set(alloc, key, owners, reach)?;
    Ok(())
}
