ghost use Rattle.std.specs.Prelude.{◌≡◌};
ghost use Rattle.commit_check.specs.Saturated.{saturated};
ghost use Rattle.change_weight.specs.Shown.{all_shown, shown_size};

use commit_check::shown_size as items_size;
use own_base::{Row, TableNo};
use own_model::{Schema, Source1, ViewDef};

/// The size of what a view shows of a row of a table.
fn shown_size(view: &ViewDef, table: TableNo, row: &Row) -> u64
    ensures { result ≡ saturated (shown_size table.0 row.now view.now) }
{
    match view.query.source {
        Source1::Table(source) => {
            if source.0 == table.0 {
                items_size(row, view.query.items.items())
            } else {
                0
            }
        }
        Source1::View(_) | Source1::Pair { .. } => 0,
    }
}

/// The sizes of what all views show of a row of a table.
pub(crate) fn all_shown(schema: &Schema, table: TableNo, row: &Row) -> u64
    ensures { result ≡ saturated (all_shown schema.now table.0 row.now) }
{
    let mut size: u64 = 0;
    for view in schema.views.items() {
        size = size.saturating_add(shown_size(view, table, row));
    }
    size
}
