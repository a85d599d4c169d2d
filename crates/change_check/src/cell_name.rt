ghost use Rattle.std.specs.Prelude.{◌≡◌};
ghost use Rattle.change_check.specs.CellOrder.{is_behind};
ghost use Rattle.change_check.specs.Least.{lower};

use own_base::{ColNo, RowName};

/// A column of a row, by the names of both.
#[derive(Debug, Drop)]
pub(crate) struct CellName {
    pub row: RowName,
    pub column: ColNo,
}

/// Whether the one cell comes after the other: by table, then by key, then by column.
fn is_behind(one: &CellName, other: &CellName) -> bool
    ensures { result ≡ is_behind one.now other.now }
{
    let tables = one.row.table.0.cmp(&other.row.table.0);
    let rows = tables.then(one.row.key.compare(&other.row.key));
    rows.then(one.column.0.cmp(&other.column.0)).is_gt()
}

/// The lower of a cell and of one that was found, where there are any.
pub(crate) fn lower(cell: Option<CellName>, found: Option<CellName>) -> Option<CellName>
    ensures { result ≡ lower cell found }
{
    match (cell, found) {
        (Some(cell), Some(least)) => {
            if is_behind(&least, &cell) {
                Some(cell)
            } else {
                Some(least)
            }
        }
        (Some(cell), None) => Some(cell),
        (None, found) => found,
    }
}
