ghost use Rattle.std.specs.Prelude.{◌≡◌, ◌≤◌, ◌++◌, [], false, length, option_map, IfOk, OnOk};
ghost use Rattle.std.specs.Option.{option_map_or};
ghost use Rattle.bind_scope.specs.After.{after};
ghost use Rattle.query_model.specs.Kinds as kinds;
ghost use Rattle.query_model.specs.WriteFaults as faults;
ghost use Rattle.query_model.specs.WriteMeaning as meaning;
ghost use Rattle.plan_bind.specs.Literals.{unfit};
ghost use Rattle.plan_bind.specs.NumberedColumns.{column_of};

use crate::numbered_column::{NumberedColumn, bind_name, column_number};
use crate::value_kind::goes_with;
use bind_scope::{Fault, Least, are_compared, is_text};
use own_base::{ColNo, MakeCopy, Name, Value};
use own_model::{BoundExpr, Column, Expr, Kind, TABLE_COLUMNS, TableDef};
use row_reading::is_null;
use std::alloc::{AllocError, Global};

/// Notes a literal of another kind than its column, and a NULL for a NOT NULL one.
fn note_unfit<'a>(assigned: &'a Name, column: &Column, value: &Value, least: &mut Least<'a>)
    ensures { least.new ≡ after least.old (unfit assigned.now value.now column.now) }
{
    if !goes_with(column.kind, value) {
        least.note(Fault::WrongKind(assigned));
    }
    if is_null(value) && column.not_null {
        least.note(Fault::NullValue(assigned));
    }
}

/// Notes what is wrong with a literal for a column, where there is that column.
fn note_literal<'a>(
    assigned: &'a Name,
    column: Option<NumberedColumn<'a>>,
    value: &Value,
    least: &mut Least<'a>,
)
    ensures { least.new ≡ after least.old (option_map_or (λ found. unfit assigned.now value.now found.1) (option_map column_of column.entry) []) }
{
    if let Some(column) = column {
        note_unfit(assigned, column.column, value, least);
    }
}

/// Notes where a column is set to one whose values aren't compared with its own. The column assigned is named.
fn note_unlike_columns<'a>(
    assigned: &'a Name,
    column: Option<NumberedColumn<'a>>,
    read: Option<NumberedColumn<'a>>,
    least: &mut Least<'a>,
)
    ensures { least.new ≡ after least.old (option_map_or (λ found. faults.assigned_kind assigned.now (option_map column_of column.entry) found.1.kind) (option_map column_of read.entry) []) }
{
    if let (Some(column), Some(read)) = (column, read)
        && !are_compared(column.column.kind, read.column.kind)
    {
        least.note(Fault::WrongKind(assigned));
    }
}

/// Whether a column is there, and is of texts.
fn is_of_texts(column: Option<NumberedColumn<'_>>) -> bool
    ensures { result ≡ option_map_or (λ found. kinds.is_text found.1.kind) (option_map column_of column.entry) false }
{
    match column {
        None => false,
        Some(column) => is_text(column.column.kind),
    }
}

/// Notes a sum for a column of texts, and one of a text. The column assigned is named before the one that is read.
fn note_text_sum<'a>(
    assigned: &'a Name,
    column: Option<NumberedColumn<'a>>,
    name: &'a Name,
    read: Option<NumberedColumn<'a>>,
    least: &mut Least<'a>,
)
    ensures { least.new ≡ after least.old (faults.sum_faults assigned.now (option_map column_of column.entry) (option_map column_of read.entry) name.now) }
{
    if is_of_texts(column) {
        least.note(Fault::WrongKind(assigned));
    } else if is_of_texts(read) {
        least.note(Fault::WrongKind(name));
    }
}

/// The column of a sum.
fn bind_sum<'a>(
    table: &'a TableDef,
    assigned: &'a Name,
    column: Option<NumberedColumn<'a>>,
    name: &'a Name,
    least: &mut Least<'a>,
) -> ColNo
    requires { length table.now.columns ≤ TABLE_COLUMNS }
    ensures bound { result ≡ meaning.column_number table.now name.now }
    ensures noted { least.new ≡ after least.old (faults.not_a_column table.now name.now
        ++ faults.sum_faults assigned.now (option_map column_of column.entry) (faults.column_in table.now name.now) name.now) }
{
    let read = bind_name(table, name, least);
    note_text_sum(assigned, column, name, read, least);
    column_number(read)
}

/// What a column is set to. `column` is the one assigned, where the table has it.
pub fn bind_expression<'a>(
    alloc: Global,
    table: &'a TableDef,
    assigned: &'a Name,
    column: Option<NumberedColumn<'a>>,
    expression: &'a Expr,
    least: &mut Least<'a>,
) -> Result<BoundExpr, AllocError>
    requires { length table.now.columns ≤ TABLE_COLUMNS }
    ensures bound { IfOk result (λ bound. bound ≡ meaning.bound_expression table.now expression.now) }
    ensures noted { OnOk result (least.new ≡ after least.old (faults.expression_faults table.now assigned.now (option_map column_of column.entry) expression.now)) }
{
    match expression {
        Expr::Literal(value) => {
            note_literal(assigned, column, value, least);
            Ok(BoundExpr::Literal(value.copy(alloc)?))
        }
        Expr::Column(name) => {
            let read = bind_name(table, name, least);
            note_unlike_columns(assigned, column, read, least);
            Ok(BoundExpr::Column(column_number(read)))
        }
        Expr::Plus(name, number) => {
            let read = bind_sum(table, assigned, column, name, least);
            Ok(BoundExpr::Plus(read, *number))
        }
        Expr::Minus(name, number) => {
            let read = bind_sum(table, assigned, column, name, least);
            Ok(BoundExpr::Minus(read, *number))
        }
    }
}
