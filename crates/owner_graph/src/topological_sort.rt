ghost use Rattle.std.specs.Prelude.{◌≡◌, ℕ, ◌-◌, ◌<◌, ◌≤◌, [], ◌∷◌, ◌++◌, IfOk, OnOk, count_by, length, map, slice_index, slice_set, ◌==◌};
ghost use Rattle.owner_graph.specs.Ends.{by_table};
ghost use Rattle.owner_graph.specs.TopologicalSort.{AllPlaced, GoesOn, IsTopologicalSort, WaitsForLess};
ghost use Rattle.owner_graph.specs.declared.end.End.TheVariants.{Lower};
ghost use Rattle.owner_model.specs.AreWithin.{AreWithin};

use crate::incoming::Incoming;
use own_base::{List, TableNo};
use own_model::Edge;
use std::alloc::{AllocError, Global};

/// Tables as they are placed, each behind those above it.
#[derive(Drop)]
pub(crate) struct TopologicalSort {
    /// The tables that are placed, in order.
    pub(crate) order: Vec<TableNo>,
    /// For each table, how many of its edges lead up to tables that it waits for. A table is placed once there are none.
    pub(crate) waiting: Vec<usize>,
}

impl TopologicalSort {
    /// Adds the next table by number, which has so many edges up.
    fn add(&mut self, table: TableNo, edges: usize) -> Result<(), AllocError>
        requires sorting { IsTopologicalSort self.old.order.items self.old.waiting.items }
        requires next { table.0 ≡ length self.old.waiting.items }
        ensures sorting { OnOk result (IsTopologicalSort self.new.order.items self.new.waiting.items) }
        ensures added { OnOk result (self.new.waiting.items ≡ self.old.waiting.items ++ edges ∷ []) }
    {
        if edges == 0 {
            self.order.push(table)?;
        }
        self.waiting.push(edges)?;
        Ok(())
    }

    /// A table waits for one edge less.
    fn release(&mut self, table: TableNo) -> Result<(), AllocError>
        requires sorting { IsTopologicalSort self.old.order.items self.old.waiting.items }
        requires waits { 0 < slice_index self.old.waiting.items table.0 }
        ensures sorting { OnOk result (IsTopologicalSort self.new.order.items self.new.waiting.items) }
        ensures longer { OnOk result (GoesOn self.old.order.items self.new.order.items) }
        ensures less { OnOk result (self.new.waiting.items
            ≡ slice_set self.old.waiting.items table.0 (slice_index self.old.waiting.items table.0 - 1)) }
    {
        let place = table.0 as usize;
        let edges = self.waiting[place] - 1;
        self.waiting[place] = edges;
        if edges == 0 {
            self.order.push(table)?;
        }
        Ok(())
    }

    /// Each edge's lower table waits for it no more.
    fn release_all(&mut self, edges: &[Edge]) -> Result<(), AllocError>
        requires sorting { IsTopologicalSort self.old.order.items self.old.waiting.items }
        requires wait { (table : ℕ) → count_by (λ edge. edge.lower.0 == table) edges.now ≤ slice_index self.old.waiting.items table }
        ensures sorting { OnOk result (IsTopologicalSort self.new.order.items self.new.waiting.items) }
        ensures longer { OnOk result (GoesOn self.old.order.items self.new.order.items) }
        ensures less { OnOk result (WaitsForLess edges.now self.old.waiting.items self.new.waiting.items) }
    {
        for edge in edges {
            self.release(edge.lower)?;
        }
        Ok(())
    }

    /// All tables, each with its edges up to wait for. It is given them by table.
    fn start(alloc: Global, tables: u32, up: &[List<Edge>]) -> Result<TopologicalSort, AllocError>
        requires { length up.now ≡ tables }
        ensures sorting { IfOk result (λ sorting. IsTopologicalSort sorting.order.items sorting.waiting.items) }
        ensures waiting { IfOk result (λ sorting. sorting.waiting.items ≡ map length up.now) }
    {
        let mut sorting = TopologicalSort {
            order: Vec::new(alloc),
            waiting: Vec::new(alloc),
        };
        for table in 0..tables {
            sorting.add(TableNo(table), up[table as usize].items().len())?;
        }
        Ok(sorting)
    }

    /// Places each table that can be placed. It takes time in proportion to the tables and the edges.
    pub(crate) fn with_edges(
        alloc: Global,
        up: &[List<Edge>],
        incoming: &Incoming,
    ) -> Result<TopologicalSort, AllocError>
        requires within { AreWithin incoming.now.tables incoming.now.edges.now }
        requires up { up.now ≡ by_table Lower incoming.now.tables incoming.now.edges.now }
        ensures all { IfOk result (λ sorting. AllPlaced incoming.now.edges.now sorting.order.items sorting.waiting.items) }
        ensures tables { IfOk result (λ sorting. length sorting.waiting.items ≡ incoming.now.tables) }
    {
        let mut sorting = TopologicalSort::start(alloc, incoming.tables, up)?;
        let mut released = 0;
        while released < sorting.order.len() {
            let table = sorting.order[released];
            sorting.release_all(incoming.of_table(table))?;
            released += 1;
        }
        Ok(sorting)
    }
}
