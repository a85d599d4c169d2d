ghost use Rattle.std.specs.Prelude.{◌≡◌, ◌<◌, IfOk, length};
ghost use Rattle.own_model.specs.Db.{IsOrdered};
ghost use Rattle.owner_sets.specs.ByEdges.{AreEdgesOf, AreEdgesOfTable, edges_at};
ghost use Rattle.owner_sets.specs.Sets.{AreSetsOf};
ghost use Rattle.schema_model.specs.OwnerSchema.{IsOwnerSchema};
ghost use Rattle.schema_model.specs.WithinLimits.{IsWithinLimits};
ghost use Rattle.subject_model.specs.Owners.{reach};

use crate::leading::leading;
use crate::sets::OwnerSets;
use own_base::{EdgeNo, List, Subject, TableNo};
use own_model::StoreView;
use std::alloc::{AllocError, Global};
use std::marker::Model;

/// By which edges a subject reaches each row of a store: the edges with which its paths from the row begin.
#[derive(Debug, Drop)]
pub struct ByEdges {
    edges: List<List<List<EdgeNo>>>,
}

impl Model for ByEdges {
    ghost use Rattle.owner_sets.specs.ByEdges.{EdgeLists};

    ghost Value = { EdgeLists };

    ghost view = { λ by. by.edges };
}

/// The edges of each row of a table.
fn table_edges<V: StoreView>(
    alloc: Global,
    view: &V,
    sets: &[List<List<Subject>>],
    subject: &Subject,
    table: TableNo,
) -> Result<List<List<EdgeNo>>, AllocError>
    requires there { table.0 < length (V.db view.now).schema.tables }
    requires owner { IsOwnerSchema (V.db view.now).schema }
    requires reach { AreSetsOf (V.db view.now) (reach (V.db view.now)) sets.now }
    ensures { IfOk result (AreEdgesOfTable (V.db view.now) subject.now.0 table.0) }
{
    let lists = leading(alloc, view, sets, subject, table)?;
    Ok(List::from_vec(lists))
}

impl ByEdges {
    /// The edges of a store's rows, given the sets of the rows. For each edge the pairs of rows that it joins are gone
    /// through once; no path is listed.
    pub fn of<V: StoreView>(
        alloc: Global,
        view: &V,
        sets: &OwnerSets,
        subject: &Subject,
    ) -> Result<ByEdges, AllocError>
        requires limits { IsWithinLimits (V.db view.now).schema }
        requires owner { IsOwnerSchema (V.db view.now).schema }
        requires reach { AreSetsOf (V.db view.now) (reach (V.db view.now)) sets.now.reach }
        ensures { IfOk result (λ edges. AreEdgesOf (V.db view.now) subject.now.0 edges) }
    {
        let mut edges = List::new(alloc);
        for number in 0..view.schema().tables.items().len() {
            let table = TableNo(number as u32);
            edges.add(table_edges(alloc, view, sets.all_reach(), subject, table)?)?;
        }
        Ok(ByEdges { edges })
    }

    /// The edges by which the subject reaches the row at a place of a table, by number; none where there is no row. Takes no
    /// memory.
    pub fn at(&self, table: TableNo, at: u64) -> &[EdgeNo]
        ensures { result.now ≡ edges_at self.now table.0 at }
    {
        match self.edges.items().get(table.0 as usize) {
            Some(lists) => match lists.items().get(at as usize) {
                Some(list) => list.items(),
                None => &[],
            },
            None => &[],
        }
    }
}
