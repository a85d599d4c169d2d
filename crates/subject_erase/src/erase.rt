ghost use Rattle.std.specs.Prelude.{◌≡◌, ◌++◌, IfOk, IsTrue, OnOk, Some, length, slice_get};
ghost use Rattle.std.specs.List.{AllByRecursion};
ghost use Rattle.std.specs.Option.{option_and_then, option_to_list};
ghost use Rattle.own_model.specs.Stored.{rows_at};
ghost use Rattle.owner_model.specs.Joins.{row_of};
ghost use Rattle.state_model.specs.MayBePut.{MayBePut};
ghost use Rattle.state_model.specs.Put.{put};
ghost use Rattle.owner_graph.specs.Graph.{IsGraphOf};
ghost use Rattle.schema_model.specs.OwnerSchema.{ColumnsRefer, IsOwnerSchema};
ghost use Rattle.schema_model.specs.Tables.{is_subject};
ghost use Rattle.schema_model.specs.WithinLimits.{IsWithinLimits};
ghost use Rattle.state_model.specs.Rows.{AreRowsOf};
ghost use Rattle.subject_erase.specs.Erasures as spec;
ghost use Rattle.subject_erase.specs.Losing.{erased_at, erased_by, erased_rows, erased_table, left_by, named_at};
ghost use Rattle.subject_erase.specs.Plan.{IsPlan, plan_of};
ghost use Rattle.subject_model.specs.Forget.{forget};

use crate::flags::flag_at;
use crate::losing::{loses_some, row_left};
use crate::plan::ErasePlan;
use crate::staying::staying_flags;
use anon_rules::blanked;
use own_base::{Change, ColumnSet, EdgeNo, List, MakeCopy, Row, Subject, TableNo};
use own_model::{StoreView, TableDef};
use owner_graph::{Graph, graph_of};
use owner_sets::{ByEdges, OwnerSets};
use row_reading::row_name;
use std::alloc::{AllocError, Global};

/// That a row goes.
fn removal(
    alloc: Global,
    table: TableNo,
    definition: &TableDef,
    row: &Row,
) -> Result<Change, AllocError>
    ensures { IfOk result (λ change. change ≡ spec.removal (named_at table.0 definition.now row.now)) }
{
    let name = row_name(alloc, table, definition, row)?;
    let before = row.copy(alloc)?;
    Ok(Change {
        name,
        before: Some(before),
        after: None,
    })
}

/// That a row is left without what it loses, of which some are the columns that are ruled.
fn blanking<V: StoreView>(
    alloc: Global,
    view: &V,
    staying: &[List<bool>],
    ruled: ColumnSet,
    table: TableNo,
    definition: &TableDef,
    row: &Row,
) -> Result<Change, AllocError>
    requires refer { ColumnsRefer (V.db view.now).schema definition.now }
    ensures { IfOk result (λ change. change ≡ spec.blanking (named_at table.0 definition.now row.now) (left_by (V.db view.now).schema (V.db view.now).rows staying.now definition.now ruled row.now)) }
{
    let name = row_name(alloc, table, definition, row)?;
    let before = row.copy(alloc)?;
    let left = row_left(alloc, view, staying, definition, ruled, row)?;
    Ok(Change {
        name,
        before: Some(before),
        after: Some(left),
    })
}

/// What becomes of a row that stays or not, and that the subject reaches by these edges.
fn erased_by<V: StoreView>(
    alloc: Global,
    view: &V,
    staying: &[List<bool>],
    stays: bool,
    by: &[EdgeNo],
    table: TableNo,
    definition: &TableDef,
    row: &Row,
) -> Result<Option<Change>, AllocError>
    requires refer { ColumnsRefer (V.db view.now).schema definition.now }
    ensures { IfOk result (λ change. change ≡ erased_by (V.db view.now).schema (V.db view.now).rows staying.now definition.now stays by.now (named_at table.0 definition.now row.now)) }
{
    if !stays {
        let change = removal(alloc, table, definition, row)?;
        return Ok(Some(change));
    }
    let ruled = blanked(view.schema().edges.items(), by);
    if !loses_some(view, staying, definition, ruled, row) {
        return Ok(None);
    }
    let change = blanking(alloc, view, staying, ruled, table, definition, row)?;
    Ok(Some(change))
}

/// What becomes of the row at a place of a table.
fn erased_at<V: StoreView>(
    alloc: Global,
    view: &V,
    staying: &[List<bool>],
    by: &ByEdges,
    table: TableNo,
    definition: &TableDef,
    at: u64,
) -> Result<Option<Change>, AllocError>
    requires there { slice_get (V.db view.now).schema.tables table.0 ≡ Some definition.now }
    requires refer { ColumnsRefer (V.db view.now).schema definition.now }
    ensures { IfOk result (λ change. change ≡ option_and_then (λ row. erased_at (V.db view.now).schema (V.db view.now).rows staying.now by.now table.0 definition.now (at, row)) (slice_get (rows_at (V.db view.now).rows table.0) at)) }
{
    match view.row_at(table, at) {
        Some(row) => {
            let stays = flag_at(staying, table, at);
            let by = by.at(table, at);
            erased_by(alloc, view, staying, stays, by, table, definition, row)
        }
        None => Ok(None),
    }
}

/// Adds a change, where there is one.
fn add_change(changes: &mut List<Change>, change: Option<Change>) -> Result<(), AllocError>
    ensures { OnOk result (changes.new ≡ changes.old ++ option_to_list change) }
{
    match change {
        Some(change) => changes.add(change),
        None => Ok(()),
    }
}

/// Adds what becomes of the rows of a table.
fn add_erased<V: StoreView>(
    alloc: Global,
    view: &V,
    staying: &[List<bool>],
    by: &ByEdges,
    table: TableNo,
    definition: &TableDef,
    changes: &mut List<Change>,
) -> Result<(), AllocError>
    requires there { slice_get (V.db view.now).schema.tables table.0 ≡ Some definition.now }
    requires refer { ColumnsRefer (V.db view.now).schema definition.now }
    ensures { OnOk result (changes.new ≡ changes.old ++ erased_table (V.db view.now).schema (V.db view.now).rows staying.now by.now (table.0, definition.now)) }
{
    for at in 0..view.count(table) {
        let change = erased_at(alloc, view, staying, by, table, definition, at)?;
        add_change(changes, change)?;
    }
    Ok(())
}

/// What becomes of all rows.
fn erased_rows<V: StoreView>(
    alloc: Global,
    view: &V,
    staying: &[List<bool>],
    by: &ByEdges,
) -> Result<List<Change>, AllocError>
    requires limits { IsWithinLimits (V.db view.now).schema }
    requires owner { IsOwnerSchema (V.db view.now).schema }
    ensures { IfOk result (λ changes. changes ≡ erased_rows (V.db view.now).schema (V.db view.now).rows staying.now by.now) }
{
    let mut changes = List::new(alloc);
    for (number, definition) in view.schema().tables.items().iter().enumerate() {
        let table = TableNo(number as u32);
        add_erased(alloc, view, staying, by, table, definition, &mut changes)?;
    }
    Ok(changes)
}

/// The changes by which a subject is erased, by table, then key: each row that doesn't stay goes, and of each that stays and
/// loses a value the rest is left. The graph is that of the view's edges.
pub fn erase_changes<V: StoreView>(
    alloc: Global,
    view: &V,
    graph: &Graph,
    subject: &Subject,
) -> Result<List<Change>, AllocError>
    requires limits { IsWithinLimits (V.db view.now).schema }
    requires owner { IsOwnerSchema (V.db view.now).schema }
    requires rows { AreRowsOf (V.db view.now).schema.tables (V.db view.now).rows }
    requires subject { IsTrue (is_subject (V.db view.now).schema subject.now.0.table.0) }
    requires graph { IsGraphOf (length (V.db view.now).schema.tables) (V.db view.now).schema.edges graph.now }
    ensures was { IfOk result (AllByRecursion (λ change. change.before ≡ row_of (V.db view.now) change.name)) }
    ensures may { IfOk result (MayBePut (V.db view.now).schema.tables) }
    ensures put { IfOk result (λ changes. put (V.db view.now) changes ≡ forget (V.db view.now) subject.now.0) }
    ensures plan { IfOk result (λ changes. IsPlan (V.db view.now) subject.now.0 (plan_of changes)) }
{
    let sets = OwnerSets::of(alloc, view, graph)?;
    let staying = staying_flags(alloc, view, graph, &sets, subject)?;
    let by = ByEdges::of(alloc, view, &sets, subject)?;
    erased_rows(alloc, view, staying.items(), &by)
}

/// What a subject's erasure removes and changes, each by table, then key.
pub fn plan_flat<V: StoreView>(
    alloc: Global,
    view: &V,
    subject: &Subject,
) -> Result<ErasePlan, AllocError>
    requires limits { IsWithinLimits (V.db view.now).schema }
    requires owner { IsOwnerSchema (V.db view.now).schema }
    requires rows { AreRowsOf (V.db view.now).schema.tables (V.db view.now).rows }
    requires subject { IsTrue (is_subject (V.db view.now).schema subject.now.0.table.0) }
    ensures { IfOk result (λ plan. IsPlan (V.db view.now) subject.now.0 plan) }
{
    let graph = graph_of(alloc, view.schema())?;
    let changes = erase_changes(alloc, view, &graph, subject)?;
    ErasePlan::of_changes(alloc, changes)
}
