ghost use Rattle.std.specs.Prelude.{◌≡◌, ◌<◌, length, unwrap_or, IfOk};
ghost use Rattle.std.specs.Option.{option_copied, option_to_list};
ghost use Rattle.own_model.specs.Stored.{rows_at};
ghost use Rattle.query_model.specs.Footprints.{key_column};
ghost use Rattle.query_eval.specs.Meetings.{meeting, meets};
ghost use Rattle.query_model.specs.Stored.{IsStored};
ghost use Rattle.query_eval.specs.Tables.{AreTables};

use own_base::{ColNo, Row, RowName, TableNo, Value};
use own_model::StoreView;
use pred_eval::compared;
use row_reading::{cell, literal_key};
use std::alloc::{AllocError, Global};
use std::cmp::Ordering;

/// Whether two values meet in a join: they are equal, and neither is NULL; none is NULL. Takes no memory.
#[tactic(auto, unfolding(query_model::specs::Truth::compared))]
fn meets(left: Option<&Value>, right: Option<&Value>) -> bool
    ensures { result ≡ meets (unwrap_or (option_copied left.entry) Value.Null) (unwrap_or (option_copied right.entry) Value.Null) }
{
    match (left, right) {
        (Some(left), Some(right)) => matches!(compared(left, right), Some(Ordering::Equal)),
        _ => false,
    }
}

/// The row, if it has a value in a column that meets one. Takes no memory.
fn if_it_meets<'a>(row: Option<&'a Row>, column: ColNo, value: Option<&Value>) -> Option<&'a Row>
    ensures { option_to_list (option_copied result) ≡ meeting (unwrap_or (option_copied value.entry) Value.Null) column.0 (option_to_list (option_copied row.entry)) }
{
    match row {
        Some(row) => {
            if meets(value, cell(row, column)) {
                Some(row)
            } else {
                None
            }
        }
        None => None,
    }
}

/// The row of a table whose primary key meets a value in a join, where there is one; none is NULL.
#[tactic(auto, using(crate::proofs::MeetingByKey::meeting_by_key))]
pub(crate) fn meeting_row<'a, V: StoreView>(
    alloc: Global,
    view: &'a V,
    table: TableNo,
    column: ColNo,
    value: Option<&Value>,
) -> Result<Option<&'a Row>, AllocError>
    requires there { table.0 < length (V.db view.now).schema.tables }
    requires tables { AreTables (V.db view.now).schema (V.db view.now).rows }
    requires key { column.0 ≡ key_column (V.db view.now).schema table }
    requires stored { IsStored (unwrap_or (option_copied value) Value.Null) }
    ensures { IfOk result (λ row. option_to_list (option_copied row) ≡ meeting (unwrap_or (option_copied value.entry) Value.Null) column.0 (rows_at (V.db view.now).rows table.0)) }
{
    match literal_key(alloc, value)? {
        Some(key) => {
            let row = view.row(&RowName { table, key });
            Ok(if_it_meets(row, column, value))
        }
        None => Ok(None),
    }
}
