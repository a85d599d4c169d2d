ghost use Rattle.std.specs.Prelude.{◌≡◌, ◌≤◌, ◌++◌, [], is_some, length, map, option_map, IfOk, OnOk};
ghost use Rattle.std.specs.List.{flat_map, list_all};
ghost use Rattle.own_model.specs.declared.limit.TheConstants.{TABLE_COLUMNS};
ghost use Rattle.query_model.specs.WriteFaults.{column_in, not_a_column, twice};
ghost use Rattle.bind_scope.specs.After.{after};
ghost use Rattle.plan_bind.specs.ColumnList.{columns_meant};
ghost use Rattle.plan_bind.specs.NumberedColumns.{column_of};

use crate::numbered_column::{NumberedColumn, bind_name};
use bind_scope::{Fault, Least};
use own_base::{List, Name};
use own_model::{TABLE_COLUMNS, TableDef};
use row_reading::is_among;
use std::alloc::{AllocError, Global};

/// The columns that names mean.
fn bind_names<'a>(
    alloc: Global,
    table: &'a TableDef,
    names: &'a [Name],
    least: &mut Least<'a>,
) -> Result<List<Option<NumberedColumn<'a>>>, AllocError>
    requires { length table.now.columns ≤ TABLE_COLUMNS }
    ensures found { IfOk result (λ columns. columns_meant columns ≡ map (column_in table.now) names.now) }
    ensures noted { OnOk result (least.new ≡ after least.old (flat_map (not_a_column table.now) names.now)) }
{
    let mut columns = List::new(alloc);
    for name in names {
        columns.add(bind_name(table, name, least))?;
    }
    Ok(columns)
}

/// Notes a list that names a column twice. The first name that stands before too is enough: the others give the same
/// fault.
fn note_twice(names: &[Name], least: &mut Least<'_>)
    ensures { least.new ≡ after least.old (twice [] names.now) }
{
    for (number, name) in names.iter().enumerate() {
        if is_among(&names[..number], name) {
            least.note(Fault::Count { got: 2, wanted: 1 });
            return;
        }
    }
}

/// Whether each name means a column.
fn are_found(columns: &[Option<NumberedColumn<'_>>]) -> bool
    ensures { result ≡ list_all is_some columns.now }
{
    columns.iter().all(|column| column.is_some())
}

/// The columns that a column list names. Only where each name means a column is it looked whether one stands twice:
/// otherwise a fault of a lower rank is noted already, and the names may be many.
pub(crate) fn bind_list<'a>(
    alloc: Global,
    table: &'a TableDef,
    names: &'a [Name],
    least: &mut Least<'a>,
) -> Result<List<Option<NumberedColumn<'a>>>, AllocError>
    requires { length table.now.columns ≤ TABLE_COLUMNS }
    ensures found { IfOk result (λ columns. columns_meant columns ≡ map (column_in table.now) names.now) }
    ensures noted { OnOk result (least.new ≡ after least.old (flat_map (not_a_column table.now) names.now ++ twice [] names.now)) }
{
    let columns = bind_names(alloc, table, names, least)?;
    if are_found(columns.items()) {
        note_twice(names, least);
    }
    Ok(columns)
}
