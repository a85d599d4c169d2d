ghost use Rattle.std.specs.Prelude.{◌≡◌, ◌++◌, map, option_map, OnOk, IfOk};
ghost use Rattle.std.specs.Option.{option_copied};
ghost use Rattle.own_model.specs.declared.history.Entry.{Entry as Made};
ghost use Rattle.shell_session.specs.Names.{column_name, columns_by, is_create, names_of_table, names_of_view, shows_names, table_names};

use crate::manner::Form;
use own_base::{List, MakeCopy, Name};
use own_model::{Column, Entry, Reply, Request, Schema, Statement, TableDef, ViewDef};
use reply_json::{TableNames, select_columns};
use std::alloc::{AllocError, Global};

/// The names of a table's columns.
fn table_columns(alloc: Global, columns: &[Column]) -> Result<List<Name>, AllocError>
    ensures { IfOk result (λ names. names ≡ map column_name columns.now) }
{
    let mut names = List::new(alloc);
    for column in columns {
        names.add(column.name.copy(alloc)?)?;
    }
    Ok(names)
}

/// A table with the names of its columns.
fn names_of_table(alloc: Global, table: &TableDef) -> Result<TableNames, AllocError>
    ensures { IfOk result (λ names. names ≡ names_of_table table.now) }
{
    let columns = table_columns(alloc, table.columns.items())?;
    Ok(TableNames {
        name: table.name.copy(alloc)?,
        columns,
    })
}

/// A view with the names of its columns.
fn names_of_view(alloc: Global, view: &ViewDef) -> Result<TableNames, AllocError>
    ensures { IfOk result (λ names. names ≡ names_of_view view.now) }
{
    let columns = view.names.copy(alloc)?;
    Ok(TableNames {
        name: view.name.copy(alloc)?,
        columns,
    })
}

/// Adds the names of the tables.
fn add_tables(
    names: &mut List<TableNames>,
    alloc: Global,
    tables: &[TableDef],
) -> Result<(), AllocError>
    ensures { OnOk result (names.new ≡ names.old ++ map names_of_table tables.now) }
{
    for table in tables {
        names.add(names_of_table(alloc, table)?)?;
    }
    Ok(())
}

/// Adds the names of the views.
fn add_views(
    names: &mut List<TableNames>,
    alloc: Global,
    views: &[ViewDef],
) -> Result<(), AllocError>
    ensures { OnOk result (names.new ≡ names.old ++ map names_of_view views.now) }
{
    for view in views {
        names.add(names_of_view(alloc, view)?)?;
    }
    Ok(())
}

/// The names of the tables and views of a schema, and of their columns.
pub(crate) fn schema_names(alloc: Global, schema: &Schema) -> Result<List<TableNames>, AllocError>
    ensures { IfOk result (λ names. names ≡ table_names schema.now) }
{
    let mut names = List::new(alloc);
    add_tables(&mut names, alloc, schema.tables.items())?;
    add_views(&mut names, alloc, schema.views.items())?;
    Ok(names)
}

/// Whether a table or a view more is asked for.
pub(crate) fn is_create(request: &Request) -> bool
    ensures { result ≡ is_create request.now }
{
    match request {
        Request::Run(statement) => matches!(
            statement.get(),
            Statement::CreateTable(_) | Statement::CreateView(_)
        ),
        _ => false,
    }
}

/// Whether a reply is told with names.
pub(crate) fn shows_names(form: Form, reply: &Reply) -> bool
    ensures { result ≡ shows_names form reply.now }
{
    match form {
        Form::Json => matches!(reply, Reply::Rows(_) | Reply::Got(_)),
        Form::Lines => false,
    }
}

/// The names of the columns of the reply to the last entry, where that shows rows of a SELECT; else none.
pub(crate) fn reply_columns(
    alloc: Global,
    names: &[TableNames],
    last: Option<&Entry>,
    reply: &Reply,
) -> Result<List<Name>, AllocError>
    ensures { IfOk result (λ columns. columns ≡ columns_by names.now (option_map (λ (entry : Made). entry.request) (option_copied last.entry)) reply.now) }
{
    let Some(entry) = last else {
        return Ok(List::new(alloc));
    };
    match (&entry.request, reply) {
        (Request::Run(statement), Reply::Rows(_)) => match statement.get() {
            Statement::Select(select) => select_columns(alloc, names, select.get()),
            _ => Ok(List::new(alloc)),
        },
        _ => Ok(List::new(alloc)),
    }
}
