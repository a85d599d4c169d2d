ghost use Rattle.std.specs.Prelude.{◌≡◌, ◌<◌, ◌≤◌, [], ◌∷◌, ◌++◌, Some, length, map, slice_get, IfOk, OnOk};
ghost use Rattle.std.specs.List.{enumerate_from};
ghost use Rattle.own_model.specs.declared.limit.TheConstants.{TABLE_COLUMNS};
ghost use Rattle.own_model.specs.Stored.{rows_at};
ghost use Rattle.owner_sets.specs.ByEdges.{AreEdgesOf};
ghost use Rattle.owner_sets.specs.Sets.{AreSetsOf};
ghost use Rattle.schema_model.specs.OwnerSchema.{IsOwnerSchema};
ghost use Rattle.subject_access.specs.Shown.{shown_of};
ghost use Rattle.subject_model.specs.Get.{shown_cell};
ghost use Rattle.subject_model.specs.Named.{name_of};
ghost use Rattle.subject_model.specs.Owners.{reach};

use crate::access::Access;
use crate::cells::shown_cells;
use own_base::{EdgeNo, List, MakeCopy, Name, Row, TableNo};
use own_model::{Edge, GotRow, StoreView, TableDef};
use owner_sets::is_named;
use std::alloc::{AllocError, Global};

/// A row of the table of a name as a subject is shown it that reaches it by these edges.
pub fn got_row(
    alloc: Global,
    edges: &[Edge],
    own: bool,
    by: &[EdgeNo],
    table: Name,
    row: &Row,
) -> Result<GotRow, AllocError>
    requires { length row.now ≤ TABLE_COLUMNS }
    ensures table { IfOk result (λ got. got.table ≡ table) }
    ensures cells { IfOk result (λ got. got.cells ≡ map (shown_cell edges.now own by.now) (enumerate_from 0 row.now)) }
{
    let cells = shown_cells(alloc, edges, own, by, row)?;
    Ok(GotRow { table, cells })
}

/// Adds the row at a place of a table, as the subject is shown it, where it reaches the row.
pub(crate) fn add_row<V: StoreView>(
    alloc: Global,
    access: &Access<V>,
    table: TableNo,
    definition: &TableDef,
    at: u64,
    row: &Row,
    shown: &mut List<GotRow>,
) -> Result<(), AllocError>
    requires there { slice_get (V.db access.now.view.now).schema.tables table.0 ≡ Some definition.now }
    requires here { slice_get (rows_at (V.db access.now.view.now).rows table.0) at ≡ Some row.now }
    requires length { length row.now ≤ TABLE_COLUMNS }
    requires owner { IsOwnerSchema (V.db access.now.view.now).schema }
    requires reach { AreSetsOf (V.db access.now.view.now) (reach (V.db access.now.view.now)) access.now.sets.now.reach }
    requires edges { AreEdgesOf (V.db access.now.view.now) access.now.subject.now.0 access.now.by.now }
    ensures { OnOk result (shown.new ≡ shown.old ++ shown_of (V.db access.now.view.now) access.now.subject.now.0 (record { name = name_of table.0 definition.now row.now; row = row.now } ∷ [])) }
{
    if access.sets.reaches(access.subject, table, at) {
        let own = is_named(access.view, table, at, &access.subject.0);
        let edges = access.view.schema().edges.items();
        let by = access.by.at(table, at);
        let name = definition.name.copy(alloc)?;
        let got = got_row(alloc, edges, own, by, name, row)?;
        shown.add(got)?;
    }
    Ok(())
}
