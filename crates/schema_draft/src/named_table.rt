//! The tables that names and numbers represent, over a schema and the table that a CREATE adds.
ghost use Rattle.std.specs.Prelude.{◌≡◌, ◌<◌, ◌^◌, ◌++◌, ◌∷◌, [], bytes_eq, find, length, slice_get, if◌then◌else◌};
ghost use Rattle.std.specs.Option.{option_copied};
ghost use Rattle.own_model.specs.declared.create.CreateTable.{CreateTable};
ghost use Rattle.schema_draft.specs.Names.{AreNamesOf};
ghost use Rattle.schema_model.specs.NewTable as spec;
ghost use Rattle.schema_model.specs.Tables as tables_spec;

use crate::names::Names;
use own_base::{Name, TableNo};
use own_model::{RefDef, Schema, TableDef};
use row_reading::is_same_name;

/// The number of the table of this name. Where the schema has none, it is that of the table that comes next.
pub fn number_of(schema: &Schema, names: &Names, name: &Name) -> TableNo
    requires named { AreNamesOf names.now schema.now }
    requires tables { length schema.now.tables < 2 ^ 32 }
    ensures { result.0 ≡ tables_spec.number_of schema.now name.now }
{
    match names.table(name) {
        Some(number) => number,
        None => TableNo(schema.tables.items().len() as u32),
    }
}

/// The first table of a schema that has this name.
pub fn table_named<'a>(schema: &'a Schema, names: &Names, name: &Name) -> Option<&'a TableDef>
    requires { AreNamesOf names.now schema.now }
    ensures { option_copied result ≡ find (λ table. bytes_eq table.name name.now) schema.now.tables }
{
    match names.table(name) {
        Some(number) => schema.tables.items().get(number.0 as usize),
        None => None,
    }
}

/// The table, where it has this name.
fn if_named<'a>(table: &'a TableDef, name: &Name) -> Option<&'a TableDef>
    ensures { option_copied result ≡ (if bytes_eq table.now.name name.now then Some table.now else None) }
{
    if is_same_name(&table.name, name) {
        Some(table)
    } else {
        None
    }
}

/// The table that a reference names: the first of the schema that has the name, or the new one.
pub fn target<'a>(
    schema: &'a Schema,
    names: &Names,
    table: &'a TableDef,
    refers: &RefDef,
) -> Option<&'a TableDef>
    requires { AreNamesOf names.now schema.now }
    ensures found { option_copied result ≡ find (λ target. bytes_eq target.name refers.now.table) (schema.now.tables ++ table.now ∷ []) }
    ensures target { (create : CreateTable) → table.now ≡ spec.new_table schema.now create → option_copied result ≡ spec.target_of schema.now create refers.now }
{
    table_named(schema, names, &refers.table).or(if_named(table, &refers.table))
}

/// The table of this number, of the schema or the new one.
pub fn table_at<'a>(
    schema: &'a Schema,
    table: &'a TableDef,
    number: TableNo,
) -> Option<&'a TableDef>
    ensures { option_copied result ≡ slice_get (schema.now.tables ++ table.now ∷ []) number.0 }
{
    let tables = schema.tables.items();
    let number = number.0 as usize;
    if number == tables.len() {
        Some(table)
    } else {
        tables.get(number)
    }
}
