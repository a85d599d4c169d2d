ghost use Rattle.std.specs.Prelude.{◌≡◌, ℕ, ◌<◌, [], ◌∷◌, ◌++◌, false, IfOk, OnOk, length, replicate, slice_index_or};
ghost use Rattle.own_model.specs.Db.{IsOrdered};
ghost use Rattle.own_model.specs.Stored.{rows_at};
ghost use Rattle.owner_sets.specs.Gathered.{IsWithin, handed_down, over_edge, over_link};
ghost use Rattle.owner_sets.specs.Leading.{HasEdges, HasMarks, is_among, leading, number_where};
ghost use Rattle.schema_model.specs.OwnerSchema.{IsOwnerSchema};

use crate::edges::links;
use crate::link::Link;
use crate::named_row::is_named;
use crate::set_at::set_at;
use own_base::{EdgeNo, List, Subject, TableNo};
use own_model::{Edge, StoreView};
use row_reading::{is_name, is_subject};
use std::alloc::{AllocError, Global};

/// Whether a subject stands in a list.
pub(crate) fn is_among(subject: &Subject, subjects: &[Subject]) -> bool
    ensures { result ≡ is_among subject.now subjects.now }
{
    subjects.iter().any(|other| is_name(&other.0, &subject.0))
}

/// Whether the upper row at a place of a table hands a subject down: a subject row itself, and any other those that reach it.
fn hands_down<V: StoreView>(
    view: &V,
    reach: &[List<List<Subject>>],
    table: TableNo,
    at: u64,
    subject: &Subject,
) -> bool
    requires { table.0 < length (V.db view.now).schema.tables }
    ensures { result ≡ is_among subject.now (handed_down (V.db view.now).schema (V.db view.now).rows reach.now table.0 at) }
{
    if is_subject(view.schema(), table.0 as usize) {
        is_named(view, table, at, &subject.0)
    } else {
        is_among(subject, set_at(reach, table, at))
    }
}

/// Marks the lower row of a link whose upper row hands a subject down.
fn mark<V: StoreView>(
    view: &V,
    reach: &[List<List<Subject>>],
    edge: &Edge,
    link: &Link,
    subject: &Subject,
    marks: &mut Vec<bool>,
)
    requires { edge.now.upper.0 < length (V.db view.now).schema.tables }
    ensures { HasMarks (λ place. is_among subject.now (over_link (V.db view.now).schema (V.db view.now).rows reach.now edge.now place link.now)) marks.old.items marks.new.items }
{
    let lower = link.lower as usize;
    if lower < marks.len() && hands_down(view, reach, edge.upper, link.upper, subject) {
        marks[lower] = true;
    }
}

/// Which of some first rows an edge leads from to a row that hands a subject down.
fn marked<V: StoreView>(
    alloc: Global,
    view: &V,
    reach: &[List<List<Subject>>],
    edge: &Edge,
    subject: &Subject,
    rows: usize,
) -> Result<Vec<bool>, AllocError>
    requires within { IsWithin (V.db view.now).schema edge.now }
    ensures length { IfOk result (λ marks. length marks.items ≡ rows) }
    ensures each { IfOk result (λ marks. (place : ℕ) → place < rows
        → slice_index_or marks.items place false ≡ is_among subject.now (over_edge (V.db view.now).schema (V.db view.now).rows reach.now edge.now place)) }
{
    let mut marks = vec![in alloc; false; rows]?;
    let links = links(alloc, view, edge)?;
    for link in &links {
        mark(view, reach, edge, link, subject, &mut marks);
    }
    Ok(marks)
}

/// Adds a number to the list of a row, where the row is marked.
fn add_where(marked: bool, number: EdgeNo, list: &mut List<EdgeNo>) -> Result<(), AllocError>
    ensures { OnOk result (list.new ≡ list.old ++ number_where marked number) }
{
    if marked { list.add(number) } else { Ok(()) }
}

/// Adds a number to the lists of the rows that are marked.
fn add_number(
    marks: &[bool],
    number: EdgeNo,
    lists: &mut Vec<List<EdgeNo>>,
) -> Result<(), AllocError>
    requires { length marks.now ≡ length lists.now.items }
    ensures { OnOk result (HasEdges (λ place. number_where (slice_index_or marks.now place false) number) lists.old.items lists.new.items) }
{
    for at in 0..lists.len() {
        add_where(marks[at], number, &mut lists[at])?;
    }
    Ok(())
}

/// Adds an edge to the lists of those rows of a table from which it leads to a row that hands a subject down.
fn add_edge<V: StoreView>(
    alloc: Global,
    view: &V,
    reach: &[List<List<Subject>>],
    edge: &Edge,
    subject: &Subject,
    table: TableNo,
    lists: &mut Vec<List<EdgeNo>>,
) -> Result<(), AllocError>
    requires within { IsWithin (V.db view.now).schema edge.now }
    ensures { OnOk result (HasEdges (leading (V.db view.now).schema (V.db view.now).rows reach.now subject.now table.0 (edge.now ∷ [])) lists.old.items lists.new.items) }
{
    if edge.lower == table {
        let marks = marked(alloc, view, reach, edge, subject, lists.len())?;
        add_number(&marks, edge.number, lists)?;
    }
    Ok(())
}

/// For each row of a table no edges yet.
fn none_yet(alloc: Global, rows: u64) -> Result<Vec<List<EdgeNo>>, AllocError>
    ensures { IfOk result (λ lists. lists.items ≡ replicate rows []) }
{
    let mut lists = Vec::new(alloc);
    for _row in 0..rows {
        lists.push(List::new(alloc))?;
    }
    Ok(lists)
}

/// For each row of a table the numbers of the edges that lead to a row that hands a subject down, by number.
pub(crate) fn leading<V: StoreView>(
    alloc: Global,
    view: &V,
    reach: &[List<List<Subject>>],
    subject: &Subject,
    table: TableNo,
) -> Result<Vec<List<EdgeNo>>, AllocError>
    requires there { table.0 < length (V.db view.now).schema.tables }
    requires owner { IsOwnerSchema (V.db view.now).schema }
    ensures rows { IfOk result (λ lists. length lists.items ≡ length (rows_at (V.db view.now).rows table.0)) }
    ensures each { IfOk result (λ lists. (place : ℕ) → place < length (rows_at (V.db view.now).rows table.0)
        → slice_index_or lists.items place [] ≡ leading (V.db view.now).schema (V.db view.now).rows reach.now subject.now table.0 (V.db view.now).schema.edges place) }
{
    let mut lists = none_yet(alloc, view.count(table))?;
    for edge in view.schema().edges.items() {
        add_edge(alloc, view, reach, edge, subject, table, &mut lists)?;
    }
    Ok(lists)
}
