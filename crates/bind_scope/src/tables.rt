ghost use Rattle.std.specs.Prelude.{◌≡◌, ◌≤◌, [], length, option_map, IfSome};
ghost use Rattle.std.specs.Option.{option_map_or};
ghost use Rattle.own_model.specs.declared.limit.TheConstants.{SELECT_ITEMS, TABLE_COLUMNS};
ghost use Rattle.schema_model.specs.WithinLimits.{IsWithinLimits};
ghost use Rattle.query_model.specs.Scope as spec;
ghost use Rattle.query_model.specs.SelectFaults.{no_table};
ghost use Rattle.query_model.specs.WithinLimits.{AreViewsWithin};
ghost use Rattle.bind_scope.specs.After.{after};
ghost use Rattle.bind_scope.specs.Lent.{columns_of, table_of, view_of};

use crate::columns::Columns;
use crate::fault::Fault;
use crate::least::Least;
use own_base::{Name, TableNo, ViewNo};
use own_model::{SELECT_ITEMS, Schema, TABLE_COLUMNS, TableDef, ViewDef};
use row_reading::is_same_name;

/// A table of a schema, with its number.
#[derive(Clone, Copy, Debug)]
pub struct NumberedTable<'a> {
    pub number: TableNo,
    pub table: &'a TableDef,
}

/// A view of a schema, with its number.
#[derive(Clone, Copy, Debug)]
pub struct NumberedView<'a> {
    pub number: ViewNo,
    pub view: &'a ViewDef,
}

/// The table of a name.
#[tactic(auto, using(crate::proofs::Lookups::lookups))]
pub fn table_named<'a>(schema: &'a Schema, name: &Name) -> Option<NumberedTable<'a>>
    requires { IsWithinLimits schema.now }
    ensures found { option_map table_of result ≡ spec.table_named schema.now name.now }
    ensures within { IfSome result (λ found. length found.table.now.columns ≤ TABLE_COLUMNS) }
{
    for (number, table) in schema.tables.items().iter().enumerate() {
        if is_same_name(&table.name, name) {
            return Some(NumberedTable {
                number: TableNo(number as u32),
                table,
            });
        }
    }
    None
}

/// The view of a name.
#[tactic(auto, using(crate::proofs::Lookups::lookups))]
pub fn view_named<'a>(schema: &'a Schema, name: &Name) -> Option<NumberedView<'a>>
    requires { AreViewsWithin schema.now }
    ensures found { option_map view_of result ≡ spec.view_named schema.now name.now }
    ensures within { IfSome result (λ found. length found.view.now.names ≤ SELECT_ITEMS) }
{
    for (number, view) in schema.views.items().iter().enumerate() {
        if is_same_name(&view.name, name) {
            return Some(NumberedView {
                number: ViewNo(number as u32),
                view,
            });
        }
    }
    None
}

/// The table of a name. Where there is none, that is noted.
pub fn bind_table<'a>(
    schema: &'a Schema,
    name: &'a Name,
    least: &mut Least<'a>,
) -> Option<NumberedTable<'a>>
    requires { IsWithinLimits schema.now }
    ensures found { option_map table_of result ≡ spec.table_named schema.now name.now }
    ensures within { IfSome result (λ found. length found.table.now.columns ≤ TABLE_COLUMNS) }
    ensures noted { least.new ≡ after least.old (no_table schema.now name.now) }
{
    let found = table_named(schema, name);
    if found.is_none() {
        least.note(Fault::NoTable(name));
    }
    found
}

/// The number of a table that was found; that of the first where none was.
pub fn number_of(found: Option<NumberedTable<'_>>) -> TableNo
    ensures { result.0 ≡ option_map_or (λ found. found.0) (option_map table_of found.entry) 0 }
{
    match found {
        None => TableNo(0),
        Some(found) => found.number,
    }
}

/// The columns of a table that was found; none where none was.
pub fn columns_found(found: Option<NumberedTable<'_>>) -> Columns<'_>
    requires { IfSome found (λ found. length found.table.now.columns ≤ TABLE_COLUMNS) }
    ensures columns { columns_of result ≡ option_map_or (λ found. spec.table_columns found.1) (option_map table_of found.entry) [] }
    ensures within { length (columns_of result) ≤ TABLE_COLUMNS }
{
    match found {
        None => Columns::Nowhere,
        Some(found) => Columns::OfTable(found.table.columns.items()),
    }
}
