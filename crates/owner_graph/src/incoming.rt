ghost use Rattle.std.specs.Prelude.{◌≡◌, ◌<◌, IfOk};
ghost use Rattle.owner_graph.specs.Ends.{by_table, edges_at};
ghost use Rattle.owner_graph.specs.declared.end.End.TheVariants.{Upper};
ghost use Rattle.owner_model.specs.AreWithin.{AreWithin};

use crate::end::End;
use crate::grouped::grouped;
use own_base::{List, TableNo};
use own_model::Edge;
use std::alloc::{AllocError, Global};

/// The edges between so many tables, and those that lead into each.
#[derive(Drop)]
pub(crate) struct Incoming<'a> {
    pub(crate) tables: u32,
    pub(crate) edges: &'a [Edge],
    by_upper: Vec<List<Edge>>,
    ghost grouped: { by_upper.items ≡ by_table Upper tables edges.now },
}

impl<'a> Incoming<'a> {
    /// Those of these edges.
    pub(crate) fn with_edges(
        alloc: Global,
        tables: u32,
        edges: &'a [Edge],
    ) -> Result<Incoming<'a>, AllocError>
        requires { AreWithin tables edges.now }
        ensures tables { IfOk result (λ incoming. incoming.tables ≡ tables) }
        ensures edges { IfOk result (λ incoming. incoming.edges.now ≡ edges.now) }
    {
        Ok(Incoming {
            tables,
            edges,
            by_upper: grouped(alloc, tables, edges, End::Upper)?,
        })
    }

    /// The edges that lead into a table, in their order.
    pub(crate) fn of_table(&self, table: TableNo) -> &[Edge]
        requires { table.0 < self.now.tables }
        ensures { result.now ≡ edges_at Upper self.now.edges.now table.0 }
    {
        self.by_upper[table.0 as usize].items()
    }
}
