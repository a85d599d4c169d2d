ghost use Rattle.std.specs.Prelude.{◌≡◌, ◌<◌, ◌==◌, [], Contains, IfOk, filter, length, slice_index_or};
ghost use Rattle.own_model.specs.declared.schema.Edge.{Edge as Seen};
ghost use Rattle.own_model.specs.Db.{IsOrdered};
ghost use Rattle.owner_graph.specs.Graph.{IsGraphOf};
ghost use Rattle.owner_sets.specs.Leading.{is_among};
ghost use Rattle.owner_sets.specs.Sets.{AreSetsOf, AreSetsOfTable, set_at};
ghost use Rattle.owner_sets.specs.WhichSets.{listed};
ghost use Rattle.schema_model.specs.OwnerSchema.{IsOwnerSchema};
ghost use Rattle.subject_model.specs.Owners.{owners, reach};

use crate::gather::gathered;
use crate::leading::is_among;
use crate::set_at::set_at;
use crate::sorted_set::as_sets;
use crate::which::Which;
use own_base::{List, Subject, TableNo};
use own_model::{Edge, StoreView};
use owner_graph::Graph;
use std::alloc::{AllocError, Global};
use std::marker::Model;

/// Which data subjects own each row of a store, and which reach it.
#[derive(Debug, Drop)]
pub struct OwnerSets {
    owners: List<List<List<Subject>>>,
    reach: List<List<List<Subject>>>,
}

impl Model for OwnerSets {
    ghost use Rattle.owner_sets.specs.Sets.{OwnerSetsSeen};

    ghost Value = { OwnerSetsSeen };

    ghost view = { λ sets. record { owners = sets.owners; reach = sets.reach } };
}

/// For each table no sets yet.
fn none_yet(alloc: Global, tables: usize) -> Result<Vec<List<List<Subject>>>, AllocError>
    ensures { IfOk result (λ sets. length sets.items ≡ tables) }
{
    (0..tables).map(|_| List::new(alloc)).collect(alloc)
}

/// The sets of a table's rows, given the edges out of it, and the sets of the rows of the tables that these lead up to.
fn table_sets<V: StoreView>(
    alloc: Global,
    view: &V,
    which: Which,
    done: &[List<List<Subject>>],
    table: TableNo,
    edges: &[Edge],
) -> Result<List<List<Subject>>, AllocError>
    requires owner { IsOwnerSchema (V.db view.now).schema }
    requires there { table.0 < length (V.db view.now).schema.tables }
    requires edges { edges.now ≡ filter (λ edge. edge.lower.0 == table.0) (V.db view.now).schema.edges }
    requires above { (edge : Seen) → Contains edges.now edge → AreSetsOfTable (V.db view.now) (listed which (V.db view.now))
        edge.upper.0 (slice_index_or done.now edge.upper.0 []) }
    ensures { IfOk result (AreSetsOfTable (V.db view.now) (listed which (V.db view.now)) table.0) }
{
    let lists = gathered(alloc, view, which, done, table, edges)?;
    as_sets(alloc, lists)
}

/// The sets of each table's rows, in the graph's order.
fn sets_of<V: StoreView>(
    alloc: Global,
    view: &V,
    graph: &Graph,
    which: Which,
) -> Result<List<List<List<Subject>>>, AllocError>
    requires owner { IsOwnerSchema (V.db view.now).schema }
    requires graph { IsGraphOf (length (V.db view.now).schema.tables) (V.db view.now).schema.edges graph.now }
    ensures { IfOk result (AreSetsOf (V.db view.now) (listed which (V.db view.now))) }
{
    let mut sets = none_yet(alloc, view.schema().tables.items().len())?;
    for table in graph.order() {
        let edges = graph.edges_of(*table);
        let done = table_sets(alloc, view, which, sets.as_slice(), *table, edges)?;
        sets[table.0 as usize] = done;
    }
    Ok(List::from_vec(sets))
}

impl OwnerSets {
    /// The sets of a store's rows, by the graph of its schema's edges. Each table's rows are gone through once for each edge
    /// whose column the table holds, and the rows that they name are looked up; no path is listed.
    pub fn of<V: StoreView>(alloc: Global, view: &V, graph: &Graph) -> Result<OwnerSets, AllocError>
        requires owner { IsOwnerSchema (V.db view.now).schema }
        requires graph { IsGraphOf (length (V.db view.now).schema.tables) (V.db view.now).schema.edges graph.now }
        ensures owners { IfOk result (λ sets. AreSetsOf (V.db view.now) (owners (V.db view.now)) sets.owners) }
        ensures reach { IfOk result (λ sets. AreSetsOf (V.db view.now) (reach (V.db view.now)) sets.reach) }
    {
        let owners = sets_of(alloc, view, graph, Which::Owners)?;
        let reach = sets_of(alloc, view, graph, Which::Reach)?;
        Ok(OwnerSets { owners, reach })
    }

    /// The subjects that own the row at a place of a table, by table, then by key; none where there is no row. Takes no memory.
    pub fn owners(&self, table: TableNo, at: u64) -> &[Subject]
        ensures { result.now ≡ set_at self.now.owners table.0 at }
    {
        set_at(self.owners.items(), table, at)
    }

    /// The subjects that reach it, in the same order. Takes no memory.
    pub fn reach(&self, table: TableNo, at: u64) -> &[Subject]
        ensures { result.now ≡ set_at self.now.reach table.0 at }
    {
        set_at(self.reach.items(), table, at)
    }

    /// Whether a subject reaches the row at a place of a table. Takes no memory.
    pub fn reaches(&self, subject: &Subject, table: TableNo, at: u64) -> bool
        ensures { result ≡ is_among subject.now (set_at self.now.reach table.0 at) }
    {
        is_among(subject, self.reach(table, at))
    }

    /// The sets of all rows of those that reach them, by table, then by place. Takes no memory.
    pub(crate) fn all_reach(&self) -> &[List<List<Subject>>]
        ensures { result.now ≡ self.now.reach }
    {
        self.reach.items()
    }
}
