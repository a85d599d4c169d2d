ghost use Rattle.std.specs.Prelude.{◌≡◌, slice_get};
ghost use Rattle.std.specs.Option.{option_copied};
ghost use Rattle.schema_model.specs.Explained.{column_at, columns_at, table_name};

use own_base::{ColNo, TableNo};
use own_model::{Column, Schema, TableDef};

/// The table of this number.
pub fn table_at(schema: &Schema, table: TableNo) -> Option<&TableDef>
    ensures { option_copied result ≡ slice_get schema.now.tables table.0 }
{
    schema.tables.items().get(table.0 as usize)
}

/// The column of this number, of the table of that number.
pub fn column_at(schema: &Schema, table: TableNo, column: ColNo) -> Option<&Column>
    ensures { option_copied result ≡ column_at schema.now table.0 column.0 }
{
    match table_at(schema, table) {
        Some(table) => table.columns.items().get(column.0 as usize),
        None => None,
    }
}

/// The columns of a table.
pub fn columns_at(schema: &Schema, table: TableNo) -> &[Column]
    ensures { result.now ≡ columns_at schema.now table.0 }
{
    match table_at(schema, table) {
        Some(table) => table.columns.items(),
        None => &[],
    }
}

/// The name of a table.
pub fn table_name(schema: &Schema, table: TableNo) -> &str
    ensures { result.now ≡ table_name schema.now table.0 }
{
    match table_at(schema, table) {
        Some(table) => table.name.as_str(),
        None => "",
    }
}
