ghost use Rattle.std.specs.Prelude.{◌≡◌, ◌<◌, ℕ, List, length, unwrap_or, IfOk, IfSome};
ghost use Rattle.std.specs.List.{AllByRecursion};
ghost use Rattle.std.specs.Option.{option_copied, option_to_list};
ghost use Rattle.own_model.specs.Db.{Row as Values};
ghost use Rattle.own_model.specs.Stored.{rows_at};
ghost use Rattle.query_eval.specs.Meetings.{meeting};
ghost use Rattle.query_eval.specs.Met.{IsMet};
ghost use Rattle.query_eval.specs.Tables.{AreTables};
ghost use Rattle.query_model.specs.Footprints.{key_column};
ghost use Rattle.query_model.specs.Stored.{IsStored};

use crate::meeting::meeting_row;
use crate::pairs::Joined;
use crate::table_rows::TableRows;
use own_base::{ColNo, Row, TableNo, Value};
use own_model::StoreView;
use row_reading::cell;
use std::alloc::{AllocError, Global};

/// A number, and the row of the right table whose key it is, where there is one.
#[derive(Clone, Copy)]
pub(crate) struct Met<'a> {
    pub(crate) number: i64,
    pub(crate) row: Option<&'a Row>,
}

/// The number that stands in a column; all else counts as 0. Takes no memory.
fn number_of(value: Option<&Value>) -> i64 {
    match value {
        Some(Value::Int(number)) => *number,
        _ => 0,
    }
}

/// The numbers that stand in a column of a table's rows, rising, each with its row's place.
fn rising_numbers<V: StoreView>(
    alloc: Global,
    view: &V,
    table: TableNo,
    column: ColNo,
) -> Result<Vec<(i64, usize)>, AllocError>
    requires { table.0 < length (V.db view.now).schema.tables }
{
    let mut numbers = Vec::new(alloc);
    for row in TableRows::new(view, table) {
        let place = numbers.len();
        numbers.push((number_of(cell(row, column)), place))?;
    }
    numbers.sort_unstable();
    Ok(numbers)
}

/// A number, and the row of the right table that it meets.
fn met_by<'a, V: StoreView>(
    alloc: Global,
    view: &'a V,
    tables: Joined,
    number: i64,
) -> Result<Met<'a>, AllocError>
    requires right { tables.right.0 < length (V.db view.now).schema.tables }
    requires tables { AreTables (V.db view.now).schema (V.db view.now).rows }
    requires key { tables.right_column.0 ≡ key_column (V.db view.now).schema tables.right }
    ensures { IfOk result (IsMet tables.right_column.0 (rows_at (V.db view.now).rows tables.right.0)) }
{
    let value = Value::Int(number);
    let row = meeting_row(alloc, view, tables.right, tables.right_column, Some(&value))?;
    Ok(Met { number, row })
}

/// A number, and the row of the right table that it meets: what was looked up last, where that was for this number.
fn met_after<'a, V: StoreView>(
    alloc: Global,
    view: &'a V,
    tables: Joined,
    last: Met<'a>,
    number: i64,
) -> Result<Met<'a>, AllocError>
    requires right { tables.right.0 < length (V.db view.now).schema.tables }
    requires tables { AreTables (V.db view.now).schema (V.db view.now).rows }
    requires key { tables.right_column.0 ≡ key_column (V.db view.now).schema tables.right }
    requires last { IsMet tables.right_column.0 (rows_at (V.db view.now).rows tables.right.0) last }
    ensures { IfOk result (IsMet tables.right_column.0 (rows_at (V.db view.now).rows tables.right.0)) }
{
    if number == last.number {
        Ok(last)
    } else {
        met_by(alloc, view, tables, number)
    }
}

/// From so many rows of the right table on, look-ups by scattered keys wait for memory more than a sort of the keys takes.
const MANY_ROWS: u64 = 10_000;

/// For each row of the left table the row of the right one that its number meets, where the right one's primary key is
/// compared. They are looked up by rising numbers, so that one look-up after another goes to what lies beside each other.
/// The first left row's is the last of them. There are none where the right table has few rows.
pub(crate) fn met_rows<'a, V: StoreView>(
    alloc: Global,
    view: &'a V,
    tables: Joined,
) -> Result<Vec<Met<'a>>, AllocError>
    requires left { tables.left.0 < length (V.db view.now).schema.tables }
    requires right { tables.right.0 < length (V.db view.now).schema.tables }
    requires tables { AreTables (V.db view.now).schema (V.db view.now).rows }
    requires key { tables.right_column.0 ≡ key_column (V.db view.now).schema tables.right }
    ensures { IfOk result (λ met. AllByRecursion (IsMet tables.right_column.0 (rows_at (V.db view.now).rows tables.right.0)) met.items) }
{
    let mut met = Vec::new(alloc);
    if view.count(tables.right) < MANY_ROWS {
        return Ok(met);
    }
    let numbers = rising_numbers(alloc, view, tables.left, tables.left_column)?;
    let mut last = met_by(alloc, view, tables, 0)?;
    met.resize(numbers.len(), last)?;
    for (number, place) in numbers {
        last = met_after(alloc, view, tables, last, number)?;
        if place < met.len() {
            let from_behind = met.len() - 1 - place;
            met[from_behind] = last;
        }
    }
    Ok(met)
}

/// Takes the last of what was looked up, where there is one. Takes no memory.
pub(crate) fn next_met<'a>(met: &mut Vec<Met<'a>>) -> Option<Met<'a>>
    ensures next { (column : ℕ) (rows : List Values) → AllByRecursion (IsMet column rows) met.old.items → IfSome result (IsMet column rows) }
    ensures others { (column : ℕ) (rows : List Values) → AllByRecursion (IsMet column rows) met.old.items → AllByRecursion (IsMet column rows) met.new.items }
{
    met.pop()
}

/// The row of the right table that a value meets: the one that was looked up, where that was for this value, else it is
/// looked up now.
pub(crate) fn met_row<'a, V: StoreView>(
    alloc: Global,
    view: &'a V,
    tables: Joined,
    value: Option<&Value>,
    met: Option<Met<'a>>,
) -> Result<Option<&'a Row>, AllocError>
    requires right { tables.right.0 < length (V.db view.now).schema.tables }
    requires tables { AreTables (V.db view.now).schema (V.db view.now).rows }
    requires key { tables.right_column.0 ≡ key_column (V.db view.now).schema tables.right }
    requires stored { IsStored (unwrap_or (option_copied value) Value.Null) }
    requires met { IfSome met (IsMet tables.right_column.0 (rows_at (V.db view.now).rows tables.right.0)) }
    ensures { IfOk result (λ row. option_to_list (option_copied row) ≡ meeting (unwrap_or (option_copied value.entry) Value.Null) tables.right_column.0 (rows_at (V.db view.now).rows tables.right.0)) }
{
    match (value, met) {
        (Some(Value::Int(number)), Some(met)) if *number == met.number => Ok(met.row),
        _ => meeting_row(alloc, view, tables.right, tables.right_column, value),
    }
}
