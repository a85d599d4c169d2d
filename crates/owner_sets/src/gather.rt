ghost use Rattle.std.specs.Prelude.{◌≡◌, ℕ, ◌<◌, [], ◌++◌, IfOk, OnOk, length, map, slice_index_or};
ghost use Rattle.std.specs.List.{AllByRecursion, range_with_len};
ghost use Rattle.own_model.specs.Db.{IsOrdered};
ghost use Rattle.own_model.specs.Stored.{rows_at};
ghost use Rattle.owner_sets.specs.Gathered.{HasMore, IsWithin, gathered, handed_down, over_edge, over_link, own_set, row_alone};

use crate::edges::links;
use crate::link::Link;
use crate::set_at::set_at;
use crate::which::Which;
use own_base::{List, MakeCopy, Subject, TableNo};
use own_model::{Edge, StoreView};
use row_reading::{is_subject, row_name};
use std::alloc::{AllocError, Global};

/// Adds the row at a place of a table, where there is one.
#[tactic(auto, unfolding(crate::specs::Gathered::row_alone))]
fn add_row<V: StoreView>(
    alloc: Global,
    view: &V,
    table: TableNo,
    at: u64,
    subjects: &mut List<Subject>,
) -> Result<(), AllocError>
    requires { table.0 < length (V.db view.now).schema.tables }
    ensures { OnOk result (subjects.new ≡ subjects.old ++ row_alone (V.db view.now).schema (V.db view.now).rows table.0 at) }
{
    let definition = &view.schema().tables.items()[table.0 as usize];
    match view.row_at(table, at) {
        Some(row) => {
            let name = row_name(alloc, table, definition, row)?;
            subjects.add(Subject(name))
        }
        None => Ok(()),
    }
}

/// What a row has by itself: a subject row itself, and any other none.
fn own_set<V: StoreView>(
    alloc: Global,
    view: &V,
    table: TableNo,
    at: u64,
) -> Result<List<Subject>, AllocError>
    requires { table.0 < length (V.db view.now).schema.tables }
    ensures { IfOk result (λ set. set ≡ own_set (V.db view.now).schema (V.db view.now).rows table.0 at) }
{
    let mut set = List::new(alloc);
    if is_subject(view.schema(), table.0 as usize) {
        add_row(alloc, view, table, at, &mut set)?;
    }
    Ok(set)
}

/// What each row of a table has by itself.
fn own_sets<V: StoreView>(
    alloc: Global,
    view: &V,
    table: TableNo,
) -> Result<Vec<List<Subject>>, AllocError>
    requires { table.0 < length (V.db view.now).schema.tables }
    ensures { IfOk result (λ sets. sets.items ≡ map (own_set (V.db view.now).schema (V.db view.now).rows table.0)
        (range_with_len 0 (length (rows_at (V.db view.now).rows table.0)))) }
{
    let mut sets = Vec::new(alloc);
    for at in 0..view.count(table) {
        sets.push(own_set(alloc, view, table, at)?)?;
    }
    Ok(sets)
}

/// Adds copies of some subjects.
fn add_copies(
    alloc: Global,
    more: &[Subject],
    subjects: &mut List<Subject>,
) -> Result<(), AllocError>
    ensures { OnOk result (subjects.new ≡ subjects.old ++ more.now) }
{
    for subject in more {
        subjects.add(subject.copy(alloc)?)?;
    }
    Ok(())
}

/// Adds what the upper row at a place of a table hands down: itself where it is a subject row, and else its set.
fn hand_down<V: StoreView>(
    alloc: Global,
    view: &V,
    done: &[List<List<Subject>>],
    table: TableNo,
    at: u64,
    subjects: &mut List<Subject>,
) -> Result<(), AllocError>
    requires { table.0 < length (V.db view.now).schema.tables }
    ensures { OnOk result (subjects.new ≡ subjects.old ++ handed_down (V.db view.now).schema (V.db view.now).rows done.now table.0 at) }
{
    if is_subject(view.schema(), table.0 as usize) {
        add_row(alloc, view, table, at, subjects)
    } else {
        add_copies(alloc, set_at(done, table, at), subjects)
    }
}

/// Adds what comes down over one link of an edge, to the list of its lower row.
fn gather_link<V: StoreView>(
    alloc: Global,
    view: &V,
    done: &[List<List<Subject>>],
    edge: &Edge,
    link: &Link,
    gathered: &mut Vec<List<Subject>>,
) -> Result<(), AllocError>
    requires { edge.now.upper.0 < length (V.db view.now).schema.tables }
    ensures { OnOk result (HasMore (λ place. over_link (V.db view.now).schema (V.db view.now).rows done.now edge.now place link.now) gathered.old.items gathered.new.items) }
{
    let lower = link.lower as usize;
    if lower < gathered.len() {
        let subjects = &mut gathered[lower];
        hand_down(alloc, view, done, edge.upper, link.upper, subjects)?;
    }
    Ok(())
}

/// Adds what comes down over an edge, to the lists of its lower rows.
fn gather_edge<V: StoreView>(
    alloc: Global,
    view: &V,
    done: &[List<List<Subject>>],
    edge: &Edge,
    gathered: &mut Vec<List<Subject>>,
) -> Result<(), AllocError>
    requires within { IsWithin (V.db view.now).schema edge.now }
    ensures { OnOk result (HasMore (over_edge (V.db view.now).schema (V.db view.now).rows done.now edge.now) gathered.old.items gathered.new.items) }
{
    let links = links(alloc, view, edge)?;
    for link in &links {
        gather_link(alloc, view, done, edge, link, gathered)?;
    }
    Ok(())
}

/// For each row of a table all that it has by itself and that comes down to it, over those of the edges out of it that
/// count. What the upper tables' rows have is done.
pub(crate) fn gathered<V: StoreView>(
    alloc: Global,
    view: &V,
    which: Which,
    done: &[List<List<Subject>>],
    table: TableNo,
    edges: &[Edge],
) -> Result<Vec<List<Subject>>, AllocError>
    requires there { table.0 < length (V.db view.now).schema.tables }
    requires within { AllByRecursion (IsWithin (V.db view.now).schema) edges.now }
    ensures rows { IfOk result (λ lists. length lists.items ≡ length (rows_at (V.db view.now).rows table.0)) }
    ensures each { IfOk result (λ lists. (place : ℕ) → place < length (rows_at (V.db view.now).rows table.0)
        → slice_index_or lists.items place [] ≡ gathered which (V.db view.now).schema (V.db view.now).rows done.now table.0 edges.now place) }
{
    let mut lists = own_sets(alloc, view, table)?;
    for edge in edges {
        if which.counts(edge) {
            gather_edge(alloc, view, done, edge, &mut lists)?;
        }
    }
    Ok(lists)
}
