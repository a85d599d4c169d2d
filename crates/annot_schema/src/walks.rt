//! Cycles over the edges of a schema and those that a CREATE TABLE adds.
ghost use Rattle.std.specs.Prelude.{◌≡◌, ◌≤◌, ◌<◌, ◌+◌, ◌^◌, ◌++◌, length, option_map, IfOk, IfSome};
ghost use Rattle.owner_model.specs.AreWithin.{AreWithin};
ghost use Rattle.owner_model.specs.Cycle.{cycle_of};
ghost use Rattle.schema_model.specs.NewEdges.{new_edges};
ghost use Rattle.schema_model.specs.OwnerSchema.{IsOwnerSchema};
ghost use Rattle.schema_model.specs.Refusal.{closed, name_of};
ghost use Rattle.annot_schema.specs.FoundCycle.{IsWithin, cycle_seen};
ghost use Rattle.annot_schema.specs.Reported.{Tells};

use crate::fault::SchemaFault;
use crate::longer::with_items;
use own_base::{List, MakeCopy, Name, TableNo};
use own_model::{CreateTable, Edge, Schema};
use owner_graph::{Graph, GraphFault};
use std::alloc::{AllocError, Global};

/// A cycle, by two of its tables.
#[derive(Clone, Copy)]
struct FoundCycle {
    table: TableNo,
    through: TableNo,
}

/// The cycle that edges between so many tables have, where they have one.
fn found_cycle(alloc: Global, tables: u32, edges: &[Edge]) -> Result<Option<FoundCycle>, AllocError>
    requires { AreWithin tables edges.now }
    ensures reported { IfOk result (λ walk. option_map cycle_seen walk ≡ cycle_of tables edges.now) }
    ensures within { IfOk result (λ walk. IfSome walk (λ walk. IsWithin tables walk)) }
{
    match Graph::with_edges(alloc, tables, edges) {
        Ok(graph) => {
            std::mem::drop(graph);
            Ok(None)
        }
        Err(GraphFault::Cycle { table, through }) => Ok(Some(FoundCycle { table, through })),
        Err(GraphFault::Memory) => Err(AllocError),
    }
}

/// The name of a table, of the schema or the new one.
fn name_of<'a>(schema: &'a Schema, create: &'a CreateTable, table: TableNo) -> &'a Name
    requires { table.0 ≤ length schema.now.tables }
    ensures { result.now ≡ name_of schema.now create.now table.0 }
{
    match schema.tables.items().get(table.0 as usize) {
        Some(table) => &table.name,
        None => &create.name,
    }
}

/// Refuses a CREATE TABLE with whose edges a walk would come back to its table.
pub fn check_walks(
    alloc: Global,
    schema: &Schema,
    create: &CreateTable,
    edges: &List<Edge>,
) -> Result<(), SchemaFault>
    requires new { edges.now ≡ new_edges schema.now create.now }
    requires owner { IsOwnerSchema schema.now }
    requires tables { length schema.now.tables + 1 < 2 ^ 32 }
    ensures { Tells (closed schema.now create.now) result }
{
    let edges = with_items(alloc, &schema.edges, edges.copy(alloc)?)?;
    let tables = schema.tables.items().len() as u32 + 1;
    match found_cycle(alloc, tables, edges.items())? {
        Some(walk) => Err(SchemaFault::Cycle {
            table: name_of(schema, create, walk.table).copy(alloc)?,
            through: name_of(schema, create, walk.through).copy(alloc)?,
        }),
        None => Ok(()),
    }
}
