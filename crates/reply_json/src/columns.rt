ghost use Rattle.std.specs.Prelude.{◌≡◌, ◌++◌, map, position, IfOk, OnOk};
ghost use Rattle.std.specs.Str.{bytes_eq};
ghost use Rattle.reply_json.specs.declared.columns.TableNames.{TableNames};
ghost use Rattle.query_model.specs.SelectFaults.{output_name};
ghost use Rattle.reply_json.specs.Columns.{columns_of, join_columns, select_columns};

use own_base::{List, MakeCopy, Name};
use own_model::{Item, Items, Join, Select, What};
use std::alloc::{AllocError, Global};

/// A table or a view, and the names of its columns.
#[derive(Drop)]
pub struct TableNames {
    pub name: Name,
    pub columns: List<Name>,
}

/// Where the first table of a name is listed.
fn place_of(tables: &[TableNames], name: &Name) -> Option<usize>
    ensures { result ≡ position (λ (table : TableNames). bytes_eq table.name name.now) tables.now }
{
    tables
        .iter()
        .position(|table| table.name.bytes() == name.bytes())
}

/// The names of a table's columns, or none where no such table is listed.
pub fn columns_of<'a>(tables: &'a [TableNames], name: &Name) -> &'a [Name]
    ensures { result.now ≡ columns_of tables.now name.now }
{
    let Some(place) = place_of(tables, name) else {
        return &[];
    };
    match tables.get(place) {
        Some(table) => table.columns.items(),
        None => &[],
    }
}

/// Adds copies of names.
fn add_names(names: &mut List<Name>, alloc: Global, more: &[Name]) -> Result<(), AllocError>
    ensures { OnOk result (names.new ≡ names.old ++ more.now) }
{
    for name in more {
        names.add(name.copy(alloc)?)?;
    }
    Ok(())
}

/// The name of an output column: its AS name, else the column's, `count` or `sum`.
fn output_name(alloc: Global, item: &Item) -> Result<Name, AllocError>
    ensures { IfOk result (λ name. name ≡ output_name item.now) }
{
    match (&item.alias, &item.what) {
        (Some(alias), _) => alias.copy(alloc),
        (None, What::Column(column)) => column.column.copy(alloc),
        (None, What::Count) => Name::from_str(alloc, "count"),
        (None, What::SumOf(_)) => Name::from_str(alloc, "sum"),
    }
}

/// Adds the names of the columns that a select lists.
fn add_listed(names: &mut List<Name>, alloc: Global, items: &[Item]) -> Result<(), AllocError>
    ensures { OnOk result (names.new ≡ names.old ++ map output_name items.now) }
{
    for item in items {
        names.add(output_name(alloc, item)?)?;
    }
    Ok(())
}

/// Adds the names of the columns of the table that is joined, if one is.
fn add_joined(
    names: &mut List<Name>,
    alloc: Global,
    tables: &[TableNames],
    join: &Option<Join>,
) -> Result<(), AllocError>
    ensures { OnOk result (names.new ≡ names.old ++ join_columns tables.now join.now) }
{
    match join {
        Some(join) => add_names(names, alloc, columns_of(tables, &join.table)),
        None => Ok(()),
    }
}

/// The names of the columns of a select's reply, over tables and views with these columns.
pub fn select_columns(
    alloc: Global,
    tables: &[TableNames],
    select: &Select,
) -> Result<List<Name>, AllocError>
    ensures { IfOk result (λ names. names ≡ select_columns tables.now select.now) }
{
    let mut names = List::new(alloc);
    match &select.items {
        Items::Star => {
            add_names(&mut names, alloc, columns_of(tables, &select.from))?;
            add_joined(&mut names, alloc, tables, &select.join)?;
        }
        Items::Listed(items) => add_listed(&mut names, alloc, items.items())?,
    }
    Ok(names)
}
