ghost use Rattle.std.specs.Prelude.{◌≡◌, ◌<◌, [], false, IfOk, OnOk, length, map, slice_index_or};
ghost use Rattle.std.specs.List.{AllByRecursion, range_with_len};
ghost use Rattle.owner_sets.specs.Gathered.{IsWithin};
ghost use Rattle.subject_erase.specs.Marked.{HaveMore, is_marked, over_edge, over_link};

use crate::flags::{flag, flags_of};
use crate::followed::Followed;
use own_base::List;
use own_model::{Edge, StoreView};
use owner_sets::link::Link;
use owner_sets::links;
use std::alloc::{AllocError, Global};

/// No mark for that many rows.
pub(crate) fn unmarked(alloc: Global, count: u64) -> Result<Vec<bool>, AllocError>
    ensures { IfOk result (λ marks. marks.items ≡ map (λ _. false) (range_with_len 0 count)) }
{
    (0..count).map(|_| false).collect(alloc)
}

/// Marks the lower row of a link whose upper row is flagged. Takes no memory.
fn mark_link(upper: &[bool], link: &Link, marks: &mut Vec<bool>)
    ensures { HaveMore (λ place. over_link upper.now place link.now) marks.old.items marks.new.items }
{
    let lower = link.lower as usize;
    if lower < marks.len() && flag(upper, link.upper) {
        marks[lower] = true;
    }
}

/// Marks the rows that an edge joins to a flagged upper row.
fn mark_edge<V: StoreView>(
    alloc: Global,
    view: &V,
    flags: &[List<bool>],
    edge: &Edge,
    marks: &mut Vec<bool>,
) -> Result<(), AllocError>
    requires within { IsWithin (V.db view.now).schema edge.now }
    ensures { OnOk result (HaveMore (λ place. over_edge (V.db view.now).schema (V.db view.now).rows flags.now place edge.now) marks.old.items marks.new.items) }
{
    let links = links(alloc, view, edge)?;
    let upper = flags_of(flags, edge.upper);
    for link in &links {
        mark_link(upper, link, marks);
    }
    Ok(())
}

/// Marks the rows that an edge that is followed joins to a flagged upper row.
pub(crate) fn mark<V: StoreView>(
    alloc: Global,
    view: &V,
    followed: Followed,
    flags: &[List<bool>],
    edges: &[Edge],
    marks: &mut Vec<bool>,
) -> Result<(), AllocError>
    requires within { AllByRecursion (IsWithin (V.db view.now).schema) edges.now }
    ensures { OnOk result (HaveMore (is_marked followed (V.db view.now).schema (V.db view.now).rows flags.now edges.now) marks.old.items marks.new.items) }
{
    for edge in edges {
        if followed.counts(edge) {
            mark_edge(alloc, view, flags, edge, marks)?;
        }
    }
    Ok(())
}
