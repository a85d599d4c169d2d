ghost use Rattle.std.specs.Prelude.{◌≡◌, IfOk, unwrap_or};
ghost use Rattle.std.specs.Option.{option_copied};
ghost use Rattle.query_model.specs.Truth.{cell, is_null};

use own_base::{ColNo, MakeCopy, Row, Value};
use std::alloc::{AllocError, Global};

/// What stands in a column of a row; none is NULL. Takes no memory.
#[tactic(auto, using(crate::proofs::AbsentColumns::absent_columns))]
pub fn cell(row: &Row, column: ColNo) -> Option<&Value>
    ensures { unwrap_or (option_copied result) Value.Null ≡ cell row.now column.0 }
{
    row.get(column)
}

/// A copy of what stands in a column of a row.
pub fn copied_cell(alloc: Global, row: &Row, column: ColNo) -> Result<Value, AllocError>
    ensures { IfOk result (λ copy. copy ≡ cell row.now column.0) }
{
    match cell(row, column) {
        Some(value) => value.copy(alloc),
        None => Ok(Value::Null),
    }
}

/// Whether a value is NULL. Takes no memory.
pub fn is_null(value: &Value) -> bool
    ensures { result ≡ is_null value.now }
{
    matches!(value, Value::Null)
}
