//! Whether what a test was given is within the limits that binding asks for.

ghost use Rattle.std.specs.Prelude.{◌≡◌, false, MatchBool, ⊤};
ghost use Rattle.schema_model.specs.WithinLimits.{IsTableWithin, IsWithinLimits};
ghost use Rattle.query_model.specs.WithinLimits.{AreViewsWithin, IsSelectWithin, IsStatementWithin, IsTupleWithin, IsViewWithin};

use own_base::{List, Value};
use own_model::{
    Items, SELECT_ITEMS, STATEMENT_BYTES, Schema, Select, Statement, TABLE_COLUMNS, TABLES,
    TableDef, VIEWS, ViewDef,
};

fn is_table_within(table: &TableDef) -> bool
    ensures { MatchBool result (IsTableWithin table.now) ⊤ }
{
    let columns = table.columns.items().len();
    columns <= TABLE_COLUMNS && (table.key.0 as usize) < columns
}

pub fn are_tables_within(schema: &Schema) -> bool
    ensures { MatchBool result (IsWithinLimits schema.now) ⊤ }
{
    let tables = schema.tables.items();
    tables.len() <= TABLES && tables.iter().all(|table| is_table_within(table))
}

fn is_view_within(view: &ViewDef) -> bool
    ensures { MatchBool result (IsViewWithin view.now) ⊤ }
{
    view.names.items().len() <= SELECT_ITEMS
}

pub fn are_views_within(schema: &Schema) -> bool
    ensures { MatchBool result (AreViewsWithin schema.now) ⊤ }
{
    let views = schema.views.items();
    views.len() <= VIEWS && views.iter().all(|view| is_view_within(view))
}

pub fn is_select_within(select: &Select) -> bool
    ensures { MatchBool result (IsSelectWithin select.now) ⊤ }
{
    match &select.items {
        Items::Star => true,
        Items::Listed(items) => items.items().len() <= SELECT_ITEMS,
    }
}

fn is_tuple_within(tuple: &List<Value>) -> bool
    ensures { MatchBool result (IsTupleWithin tuple.now) ⊤ }
{
    tuple.items().len() <= STATEMENT_BYTES
}

pub fn is_statement_within(statement: &Statement) -> bool
    ensures { MatchBool result (IsStatementWithin statement.now) ⊤ }
{
    match statement {
        Statement::Select(select) => is_select_within(select.get()),
        Statement::Insert { rows, .. } => rows.items().iter().all(|tuple| is_tuple_within(tuple)),
        _ => true,
    }
}
