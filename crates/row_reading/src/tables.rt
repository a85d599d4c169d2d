ghost use Rattle.std.specs.Prelude.{◌≡◌, ◌<◌, Some, length, slice_get};
ghost use Rattle.schema_model.specs.Tables as spec;

use own_base::TableNo;
use own_model::{Schema, StoreView, TableDef};

/// Whether the rows of a table are data subjects. Takes no memory.
pub fn is_subject(schema: &Schema, table: usize) -> bool
    ensures { result ≡ spec.is_subject schema.now table }
{
    schema
        .tables
        .items()
        .get(table)
        .is_some_and(|definition| definition.subject)
}

/// Whether an owner edge goes out of a table. Takes no memory.
pub fn is_private(schema: &Schema, table: usize) -> bool
    ensures { result ≡ spec.is_private schema.now table }
{
    schema
        .edges
        .items()
        .iter()
        .any(|edge| edge.owner && edge.lower.0 as usize == table)
}

/// Whether a table is neither a subject table nor private. Takes no memory.
pub fn is_public(schema: &Schema, table: usize) -> bool
    ensures { result ≡ spec.is_public schema.now table }
{
    !is_subject(schema, table) && !is_private(schema, table)
}

/// The table of a number. Takes no memory.
pub fn definition_of<V: StoreView>(view: &V, table: TableNo) -> &TableDef
    requires { table.0 < length (V.db view.now).schema.tables }
    ensures { slice_get (V.db view.now).schema.tables table.0 ≡ Some result.now }
{
    &view.schema().tables.items()[table.0 as usize]
}
