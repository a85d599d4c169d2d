ghost use Rattle.std.specs.Prelude.{◌≡◌, ℕ, ◌<◌, ◌==◌, ◌&&◌, [], Contains, IfOk, false, filter, length, map, not, slice_index_or};
ghost use Rattle.std.specs.List.{range_with_len};
ghost use Rattle.own_base.specs.declared.row_name.RowName.{RowName};
ghost use Rattle.own_model.specs.declared.schema.Edge.{Edge as Joined};
ghost use Rattle.own_model.specs.Stored.{rows_at};
ghost use Rattle.owner_graph.specs.Graph.{IsGraphOf};
ghost use Rattle.schema_model.specs.OwnerSchema.{IsOwnerSchema};
ghost use Rattle.subject_erase.specs.Flags.{AreFlagsOf, AreFlagsOfTable};
ghost use Rattle.subject_erase.specs.Staying.{is_claimed, is_other_subject};
ghost use Rattle.subject_model.specs.Owners.{owns};
ghost use Rattle.subject_model.specs.Stays.{struck as is_struck};

use crate::flags::{Flags, flag, flags_of};
use crate::followed::Followed;
use crate::marks::mark;
use own_base::{List, TableNo};
use own_model::{Edge, StoreView};
use owner_graph::Graph;
use row_reading::is_subject;
use std::alloc::{AllocError, Global};

/// Whether one is true and the other isn't.
fn without(one: bool, other: bool) -> bool
    ensures { result ≡ (one && not other) }
{
    one && !other
}

/// Which rows of a table are data subjects other than the one that owns these.
fn other_subjects<V: StoreView>(
    alloc: Global,
    view: &V,
    owned: &[bool],
    table: TableNo,
) -> Result<Vec<bool>, AllocError>
    requires { table.0 < length (V.db view.now).schema.tables }
    ensures { IfOk result (λ marks. marks.items ≡ map (λ place. is_other_subject (V.db view.now).schema table.0 (slice_index_or owned.now place false))
        (range_with_len 0 (length (rows_at (V.db view.now).rows table.0)))) }
{
    let subjects = is_subject(view.schema(), table.0 as usize);
    let mut marks = Vec::new(alloc);
    for at in 0..view.count(table) {
        marks.push(without(subjects, flag(owned, at)))?;
    }
    Ok(marks)
}

/// That many marks, without those that are flagged.
fn unflagged(
    alloc: Global,
    marks: &[bool],
    flags: &[bool],
    count: u64,
) -> Result<List<bool>, AllocError>
    ensures { IfOk result (λ left. left ≡ map (λ place. slice_index_or marks.now place false && not (slice_index_or flags.now place false)) (range_with_len 0 count)) }
{
    let mut left = List::new(alloc);
    for at in 0..count {
        left.add(without(flag(marks, at), flag(flags, at)))?;
    }
    Ok(left)
}

/// Which rows of a table another subject holds, given those of the tables above: a row that isn't struck, and that is
/// another subject's own or that an owner edge joins to one that is claimed.
fn table_claimed<V: StoreView>(
    alloc: Global,
    view: &V,
    owned: &[List<bool>],
    struck: &[List<bool>],
    claimed: &[List<bool>],
    table: TableNo,
    edges: &[Edge],
) -> Result<List<bool>, AllocError>
    requires there { table.0 < length (V.db view.now).schema.tables }
    requires owner { IsOwnerSchema (V.db view.now).schema }
    requires edges { edges.now ≡ filter (λ edge. edge.lower.0 == table.0) (V.db view.now).schema.edges }
    ensures { IfOk result (λ flags. (subject : RowName)
        → AreFlagsOf (V.db view.now) (owns (V.db view.now) subject) owned.now
        → AreFlagsOf (V.db view.now) (is_struck (V.db view.now) subject) struck.now
        → ((edge : Joined) → Contains edges.now edge → AreFlagsOfTable (V.db view.now) (is_claimed (V.db view.now) subject) edge.upper.0 (slice_index_or claimed.now edge.upper.0 []))
        → AreFlagsOfTable (V.db view.now) (is_claimed (V.db view.now) subject) table.0 flags) }
{
    let mut marks = other_subjects(alloc, view, flags_of(owned, table), table)?;
    mark(alloc, view, Followed::Owners, claimed, edges, &mut marks)?;
    unflagged(alloc, &marks, flags_of(struck, table), view.count(table))
}

/// For each table no flags yet.
fn none_yet(alloc: Global, tables: usize) -> Result<Vec<List<bool>>, AllocError>
    ensures { IfOk result (λ flags. length flags.items ≡ tables) }
{
    (0..tables).map(|_| List::new(alloc)).collect(alloc)
}

/// Which rows of a store another subject holds, in the graph's order, given those that the subject owns and those that are
/// struck.
pub(crate) fn claimed_flags<V: StoreView>(
    alloc: Global,
    view: &V,
    graph: &Graph,
    owned: &[List<bool>],
    struck: &[List<bool>],
) -> Result<Flags, AllocError>
    requires owner { IsOwnerSchema (V.db view.now).schema }
    requires graph { IsGraphOf (length (V.db view.now).schema.tables) (V.db view.now).schema.edges graph.now }
    ensures { IfOk result (λ flags. (subject : RowName)
        → AreFlagsOf (V.db view.now) (owns (V.db view.now) subject) owned.now
        → AreFlagsOf (V.db view.now) (is_struck (V.db view.now) subject) struck.now
        → AreFlagsOf (V.db view.now) (is_claimed (V.db view.now) subject) flags) }
{
    let mut claimed = none_yet(alloc, view.schema().tables.items().len())?;
    for table in graph.order() {
        let edges = graph.edges_of(*table);
        let done = table_claimed(
            alloc,
            view,
            owned,
            struck,
            claimed.as_slice(),
            *table,
            edges,
        )?;
        claimed[table.0 as usize] = done;
    }
    Ok(List::from_vec(claimed))
}
