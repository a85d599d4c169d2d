ghost use Rattle.std.specs.Prelude.{◌≡◌, slice_get};
ghost use Rattle.std.specs.List.{list_any};
ghost use Rattle.std.specs.Option.{option_copied};
ghost use Rattle.link_model.specs.Indexed.{is_indexed};
ghost use Rattle.commit_judge.specs.Unlinked.{is_unlinked, links, refers_to, table_refers};

use own_base::TableNo;
use own_model::{Column, Schema, TableDef};
use row_reading::is_lone;

/// Whether a column is UNIQUE or refers to a table, and so is indexed.
fn is_indexed(column: &Column) -> bool
    ensures { result ≡ is_indexed column.now }
{
    column.unique || column.refers.is_some()
}

/// Whether a column refers to a table.
fn refers_to(column: &Column, table: TableNo) -> bool
    ensures { result ≡ refers_to table.0 column.now }
{
    match column.refers {
        Some((_, referred)) => referred.0 == table.0,
        None => false,
    }
}

/// Whether a column of a table refers to another.
fn table_refers(definition: &TableDef, table: TableNo) -> bool
    ensures { result ≡ table_refers table.0 definition.now }
{
    definition
        .columns
        .items()
        .iter()
        .any(|column| refers_to(column, table))
}

/// Whether a column of a table links it.
fn has_linking(definition: &TableDef) -> bool
    ensures { result ≡ list_any is_indexed definition.now.columns }
{
    definition.columns.items().iter().any(is_indexed)
}

/// The table of a number, where there is one.
fn definition_of(schema: &Schema, table: TableNo) -> Option<&TableDef>
    ensures { option_copied result ≡ slice_get schema.now.tables table.0 }
{
    schema.tables.items().get(table.0 as usize)
}

/// Whether a column of the table of a number links it.
fn links(schema: &Schema, table: TableNo) -> bool
    ensures { result ≡ links schema.now table.0 }
{
    match definition_of(schema, table) {
        Some(definition) => has_linking(definition),
        None => false,
    }
}

/// Whether a column of any table refers to a table.
fn is_referred(schema: &Schema, table: TableNo) -> bool
    ensures { result ≡ list_any (table_refers table.0) schema.now.tables }
{
    schema
        .tables
        .items()
        .iter()
        .any(|definition| table_refers(definition, table))
}

/// Whether nothing is linked with a table. It goes over the columns of all tables, and over the edges. Takes no memory.
#[tactic(auto, unfolding(crate::specs::Unlinked::is_unlinked))]
pub fn is_unlinked(schema: &Schema, table: TableNo) -> bool
    ensures { result ≡ is_unlinked schema.now table.0 }
{
    !links(schema, table) && !is_referred(schema, table) && is_lone(schema, table)
}
