ghost use Rattle.std.specs.Prelude.{◌≡◌, [], IfOk, IfErr};
ghost use Rattle.owner_model.specs.AreWithin.{AreWithin};

use crate::end::End;
use crate::fault::GraphFault;
use crate::found_cycle::FoundCycle;
use crate::grouped::grouped;
use crate::incoming::Incoming;
use crate::topological_sort::TopologicalSort;
use own_base::{List, TableNo};
use own_model::Edge;
use std::alloc::Global;
use std::marker::Model;

/// The ownership graph: its tables in an order that puts each behind the tables above it, and the edges out of each table.
#[derive(Debug, Drop)]
pub struct Graph {
    order: List<TableNo>,
    edges: List<List<Edge>>,
}

impl Model for Graph {
    ghost use Rattle.owner_graph.specs.Graph.{GraphSeen};

    ghost Value = { GraphSeen };

    ghost view = { λ graph. record { order = graph.order; edges = graph.edges } };
}

impl Graph {
    ghost use Rattle.owner_graph.specs.Fault.{TellsCycle};
    ghost use Rattle.owner_graph.specs.Graph.{IsGraphOf, edges_up};

    /// The graph of no table. Takes no memory.
    pub fn new(alloc: Global) -> Graph
        ensures { IsGraphOf 0 [] result }
    {
        Graph {
            order: List::new(alloc),
            edges: List::new(alloc),
        }
    }

    /// The graph of so many tables and these edges. Where a walk over the edges comes back to its table there is none, and
    /// the fault tells of it.
    ///
    /// It takes time in proportion to the tables and the edges. Where there is no graph, it takes that time once more for each
    /// table above the one that is reported from which a walk leads to a closed one, though it lies on none itself. Where the
    /// edges had a graph before the last table and its edges came there is no such table, since the last one is reported.
    pub fn with_edges(alloc: Global, tables: u32, edges: &[Edge]) -> Result<Graph, GraphFault>
        requires { AreWithin tables edges.now }
        ensures graph { IfOk result (IsGraphOf tables edges.now) }
        ensures cycle { IfErr result (TellsCycle edges.now) }
    {
        let incoming = Incoming::with_edges(alloc, tables, edges)?;
        let up = grouped(alloc, tables, edges, End::Lower)?;
        let sorting = TopologicalSort::with_edges(alloc, &up, &incoming)?;
        if sorting.order.len() == tables as usize {
            Ok(Graph {
                order: List::from_vec(sorting.order),
                edges: List::from_vec(up),
            })
        } else {
            let FoundCycle { table, through } = incoming.found_cycle(alloc, &sorting)?;
            Err(GraphFault::Cycle { table, through })
        }
    }

    /// The tables, each behind the tables above it. Takes no memory.
    pub fn order(&self) -> &[TableNo]
        ensures { result.now ≡ self.now.order }
    {
        self.order.items()
    }

    /// The edges out of a table, in their order: none for a table that isn't there. Takes no memory.
    pub fn edges_of(&self, table: TableNo) -> &[Edge]
        ensures { result.now ≡ edges_up self.now table.0 }
    {
        match self.edges.items().get(table.0 as usize) {
            Some(edges) => edges.items(),
            None => &[],
        }
    }
}
