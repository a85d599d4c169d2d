ghost use Rattle.std.specs.Prelude.{◌≡◌};
ghost use Rattle.std.specs.List.{list_any};
ghost use Rattle.schema_model.specs.Lone.{are_lone, is_lone, touches};

use crate::tables::is_subject;
use own_base::{Change, TableNo};
use own_model::{Edge, Schema};

/// Whether an edge is of a table: it goes out of it, or leads up to it.
fn touches(edge: &Edge, table: TableNo) -> bool
    ensures { result ≡ touches table.0 edge.now }
{
    edge.lower.0 == table.0 || edge.upper.0 == table.0
}

/// Whether an edge goes out of a table, or leads up to it.
fn has_edge(schema: &Schema, table: TableNo) -> bool
    ensures { result ≡ list_any (touches table.0) schema.now.edges }
{
    schema.edges.items().iter().any(|edge| touches(edge, table))
}

/// Whether a table is lone: it is no subject table, and no edge is at it. It goes over the edges. Takes no memory.
#[tactic(auto, unfolding(schema_model::specs::Lone::is_lone))]
pub fn is_lone(schema: &Schema, table: TableNo) -> bool
    ensures { result ≡ is_lone schema.now table.0 }
{
    !is_subject(schema, table.0 as usize) && !has_edge(schema, table)
}

/// Whether the tables of changes are. Of changes of one table that follow one another only the first is looked at. Takes no
/// memory.
pub fn are_lone(schema: &Schema, changes: &[Change]) -> bool
    ensures { result ≡ are_lone schema.now changes.now }
{
    let mut last: Option<TableNo> = None;
    for change in changes {
        let table = change.name.table;
        if last != Some(table) && !is_lone(schema, table) {
            return false;
        }
        last = Some(table);
    }
    true
}
