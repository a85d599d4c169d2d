ghost use Rattle.std.specs.Prelude.{◌≡◌, [], IfOk, map};
ghost use Rattle.std.specs.List.{range_with_len};
ghost use Rattle.owner_graph.specs.Ends.{by_table};
ghost use Rattle.owner_model.specs.AreWithin.{AreWithin};

use crate::end::End;
use own_base::{List, MakeCopy};
use own_model::Edge;
use std::alloc::{AllocError, Global};

/// A list for each table, without edges.
fn empty_groups(alloc: Global, tables: u32) -> Result<Vec<List<Edge>>, AllocError>
    ensures { IfOk result (λ groups. groups.items ≡ map (λ _. []) (range_with_len 0 tables)) }
{
    (0..tables).map(|_| List::new(alloc)).collect(alloc)
}

/// The edges of each table that they have at that end, in their order.
pub(crate) fn grouped(
    alloc: Global,
    tables: u32,
    edges: &[Edge],
    end: End,
) -> Result<Vec<List<Edge>>, AllocError>
    requires { AreWithin tables edges.now }
    ensures { IfOk result (λ groups. groups.items ≡ by_table end tables edges.now) }
{
    let mut groups = empty_groups(alloc, tables)?;
    for edge in edges {
        let table = end.table(edge);
        let copied = edge.copy(alloc)?;
        groups[table.0 as usize].add(copied)?;
    }
    Ok(groups)
}
