ghost use Rattle.std.specs.Prelude.{◌≡◌, ◌<◌, length};
ghost use Rattle.owner_sets.specs.Leading.{is_named};

use own_base::{RowName, TableNo};
use own_model::StoreView;
use row_reading::has_key;

/// Whether there is a row at a place of a table, and it has this name. Takes no memory.
pub fn is_named<V: StoreView>(view: &V, table: TableNo, at: u64, name: &RowName) -> bool
    requires { table.0 < length (V.db view.now).schema.tables }
    ensures { result ≡ is_named (V.db view.now).schema (V.db view.now).rows table.0 at name.now }
{
    if table != name.table {
        return false;
    }
    let definition = &view.schema().tables.items()[table.0 as usize];
    match view.row_at(table, at) {
        Some(row) => has_key(definition, row, &name.key),
        None => false,
    }
}
