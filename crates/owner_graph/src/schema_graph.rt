ghost use Rattle.std.specs.Prelude.{IfOk, length};
ghost use Rattle.owner_graph.specs.Graph.{IsGraphOf};
ghost use Rattle.schema_model.specs.OwnerSchema.{IsOwnerSchema};
ghost use Rattle.schema_model.specs.WithinLimits.{IsWithinLimits};

use crate::fault::GraphFault;
use crate::graph::Graph;
use own_model::Schema;
use std::alloc::{AllocError, Global};

/// The graph of a schema's edges. There is one, since no walk over them comes back to its table.
pub fn graph_of(alloc: Global, schema: &Schema) -> Result<Graph, AllocError>
    requires limits { IsWithinLimits schema.now }
    requires owner { IsOwnerSchema schema.now }
    ensures { IfOk result (IsGraphOf (length schema.now.tables) schema.now.edges) }
{
    let tables = schema.tables.items().len() as u32;
    match Graph::with_edges(alloc, tables, schema.edges.items()) {
        Ok(graph) => Ok(graph),
        Err(GraphFault::Cycle { .. }) => unreachable!(),
        Err(GraphFault::Memory) => Err(AllocError),
    }
}
