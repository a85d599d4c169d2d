ghost use Rattle.std.specs.Prelude.{◌≡◌, ◌<◌, ◌++◌, Some, length, slice_get, IfOk, OnOk};
ghost use Rattle.own_model.specs.Stored.{rows_at};
ghost use Rattle.owner_graph.specs.Graph.{IsGraphOf};
ghost use Rattle.owner_sets.specs.ByEdges.{AreEdgesOf};
ghost use Rattle.owner_sets.specs.Sets.{AreSetsOf};
ghost use Rattle.run_model.specs.Run.{show_subject};
ghost use Rattle.schema_model.specs.OwnerSchema.{IsOwnerSchema};
ghost use Rattle.schema_model.specs.WithinLimits.{IsWithinLimits};
ghost use Rattle.state_model.specs.Rows.{AreRowsOf};
ghost use Rattle.subject_access.specs.Shown.{shown_of};
ghost use Rattle.subject_model.specs.Get.{get, table_name};
ghost use Rattle.subject_model.specs.Named.{rows_in};
ghost use Rattle.subject_model.specs.Owners.{reach};

use crate::access::Access;
use crate::shown_row::add_row;
use own_base::{List, MakeCopy, Subject, TableNo};
use own_model::{GotRow, Refusal, Reply, Schema, StoreView, TableDef};
use owner_graph::{Graph, graph_of};
use owner_sets::{ByEdges, OwnerSets};
use std::alloc::{AllocError, Global};

/// Adds the rows of a table that the subject reaches, as it is shown them.
fn add_table<V: StoreView>(
    alloc: Global,
    access: &Access<V>,
    table: TableNo,
    definition: &TableDef,
    shown: &mut List<GotRow>,
) -> Result<(), AllocError>
    requires there { slice_get (V.db access.now.view.now).schema.tables table.0 ≡ Some definition.now }
    requires limits { IsWithinLimits (V.db access.now.view.now).schema }
    requires rows { AreRowsOf (V.db access.now.view.now).schema.tables (V.db access.now.view.now).rows }
    requires owner { IsOwnerSchema (V.db access.now.view.now).schema }
    requires reach { AreSetsOf (V.db access.now.view.now) (reach (V.db access.now.view.now)) access.now.sets.now.reach }
    requires edges { AreEdgesOf (V.db access.now.view.now) access.now.subject.now.0 access.now.by.now }
    ensures { OnOk result (shown.new ≡ shown.old ++ shown_of (V.db access.now.view.now) access.now.subject.now.0 (rows_in table.0 definition.now (rows_at (V.db access.now.view.now).rows table.0))) }
{
    for at in 0..access.view.count(table) {
        if let Some(row) = access.view.row_at(table, at) {
            add_row(alloc, access, table, definition, at, row, shown)?;
        }
    }
    Ok(())
}

/// The rows that a subject reaches, as it is shown them, by table, then key.
fn shown_rows<V: StoreView>(alloc: Global, access: &Access<V>) -> Result<List<GotRow>, AllocError>
    requires limits { IsWithinLimits (V.db access.now.view.now).schema }
    requires rows { AreRowsOf (V.db access.now.view.now).schema.tables (V.db access.now.view.now).rows }
    requires owner { IsOwnerSchema (V.db access.now.view.now).schema }
    requires reach { AreSetsOf (V.db access.now.view.now) (reach (V.db access.now.view.now)) access.now.sets.now.reach }
    requires edges { AreEdgesOf (V.db access.now.view.now) access.now.subject.now.0 access.now.by.now }
    ensures { IfOk result (λ shown. shown ≡ get (V.db access.now.view.now) access.now.subject.now.0) }
{
    let mut shown = List::new(alloc);
    for (number, definition) in access.view.schema().tables.items().iter().enumerate() {
        let table = TableNo(number as u32);
        add_table(alloc, access, table, definition, &mut shown)?;
    }
    Ok(shown)
}

/// That there is no such subject, by the name of its table.
pub fn no_subject(alloc: Global, schema: &Schema, subject: &Subject) -> Result<Refusal, AllocError>
    requires { subject.now.0.table.0 < length schema.now.tables }
    ensures { IfOk result (λ refusal. refusal ≡ Refusal.NoSubject (table_name schema.now subject.now.0.table.0) subject.now.0.key) }
{
    let definition = &schema.tables.items()[subject.0.table.0 as usize];
    let table = definition.name.copy(alloc)?;
    let key = subject.0.key.copy(alloc)?;
    Ok(Refusal::NoSubject { table, key })
}

/// The answer to a GDPR GET: the rows that the subject reaches, by table, then key, or that there is no such subject. For
/// each edge the pairs of rows that it joins are gone through once, and then each row; no path is listed. The graph is that of
/// the view's edges.
pub fn collect_by_graph<V: StoreView>(
    alloc: Global,
    view: &V,
    graph: &Graph,
    subject: &Subject,
) -> Result<Reply, AllocError>
    requires there { subject.now.0.table.0 < length (V.db view.now).schema.tables }
    requires limits { IsWithinLimits (V.db view.now).schema }
    requires rows { AreRowsOf (V.db view.now).schema.tables (V.db view.now).rows }
    requires owner { IsOwnerSchema (V.db view.now).schema }
    requires graph { IsGraphOf (length (V.db view.now).schema.tables) (V.db view.now).schema.edges graph.now }
    ensures { IfOk result (λ reply. reply ≡ (show_subject (V.db view.now) subject.now.0).reply) }
{
    if view.row(&subject.0).is_none() {
        let refusal = no_subject(alloc, view.schema(), subject)?;
        return Ok(Reply::Refused(refusal));
    }
    let sets = OwnerSets::of(alloc, view, graph)?;
    let by = ByEdges::of(alloc, view, &sets, subject)?;
    let access = Access {
        view,
        sets: &sets,
        by: &by,
        subject,
    };
    let shown = shown_rows(alloc, &access)?;
    Ok(Reply::Got(shown))
}

/// The same over a view whose graph isn't at hand: it is made.
pub fn collect_flat<V: StoreView>(
    alloc: Global,
    view: &V,
    subject: &Subject,
) -> Result<Reply, AllocError>
    requires there { subject.now.0.table.0 < length (V.db view.now).schema.tables }
    requires limits { IsWithinLimits (V.db view.now).schema }
    requires rows { AreRowsOf (V.db view.now).schema.tables (V.db view.now).rows }
    requires owner { IsOwnerSchema (V.db view.now).schema }
    ensures { IfOk result (λ reply. reply ≡ (show_subject (V.db view.now) subject.now.0).reply) }
{
    let graph = graph_of(alloc, view.schema())?;
    collect_by_graph(alloc, view, &graph, subject)
}
