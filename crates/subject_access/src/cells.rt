ghost use Rattle.std.specs.Prelude.{◌≡◌, ◌≤◌, not, ◌&&◌, if◌then◌else◌, length, map, IfOk};
ghost use Rattle.std.specs.List.{enumerate_from};
ghost use Rattle.own_model.specs.declared.limit.TheConstants.{TABLE_COLUMNS};
ghost use Rattle.owner_model.specs.ColumnSets.{set_of};
ghost use Rattle.owner_model.specs.RuledColumns.{is_hidden};
ghost use Rattle.subject_access.specs.Cells.{cell_in};
ghost use Rattle.subject_model.specs.Get.{shown_cell};

use anon_rules::hidden;
use own_base::{ColumnSet, EdgeNo, List, MakeCopy, Row, Value};
use own_model::{Cell, Edge};
use row_reading::has_column;
use std::alloc::{AllocError, Global};

/// The columns that are hidden from a subject in a row that it reaches by these edges: none in its own row.
fn hidden_columns(edges: &[Edge], own: bool, by: &[EdgeNo]) -> ColumnSet
    ensures { result ≡ set_of (λ column. not own && is_hidden edges.now by.now column) }
{
    if own { ColumnSet(0) } else { hidden(edges, by) }
}

/// The cell of a value in a column: hidden, where the column is.
fn cell(alloc: Global, hidden: ColumnSet, column: usize, value: &Value) -> Result<Cell, AllocError>
    ensures { IfOk result (λ cell. cell ≡ cell_in hidden (column, value.now)) }
{
    if has_column(hidden, column) {
        Ok(Cell::Hidden)
    } else {
        Ok(Cell::Shown(value.copy(alloc)?))
    }
}

/// The cells of a row.
fn cells(alloc: Global, hidden: ColumnSet, row: &Row) -> Result<List<Cell>, AllocError>
    ensures { IfOk result (λ cells. cells ≡ map (cell_in hidden) (enumerate_from 0 row.now)) }
{
    let mut cells = List::new(alloc);
    for (column, value) in row.values().iter().enumerate() {
        cells.add(cell(alloc, hidden, column, value)?)?;
    }
    Ok(cells)
}

/// The cells of a row that a subject reaches by these edges, as it is shown them.
pub(crate) fn shown_cells(
    alloc: Global,
    edges: &[Edge],
    own: bool,
    by: &[EdgeNo],
    row: &Row,
) -> Result<List<Cell>, AllocError>
    requires { length row.now ≤ TABLE_COLUMNS }
    ensures { IfOk result (λ cells. cells ≡ map (shown_cell edges.now own by.now) (enumerate_from 0 row.now)) }
{
    cells(alloc, hidden_columns(edges, own, by), row)
}
