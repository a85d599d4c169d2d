ghost use Rattle.std.specs.Prelude.{◌≡◌, ◌==◌, find, IfOk};
ghost use Rattle.std.specs.Option.{option_copied};
ghost use Rattle.query_model.specs.Expression.{value_of};
ghost use Rattle.run_model.specs.Update.{set_value};

use own_base::{ColNo, MakeCopy, Row, Value};
use own_model::BoundExpr;
use pred_eval::{ValueFault, value};
use std::alloc::{AllocError, Global};

/// The value of an expression over a row; none where it leaves the range of INT.
pub(crate) fn value_of(
    alloc: Global,
    expr: &BoundExpr,
    row: &Row,
) -> Result<Option<Value>, AllocError>
    ensures { IfOk result (λ value. value ≡ value_of expr.now row.now) }
{
    match value(alloc, expr, row) {
        Ok(value) => Ok(Some(value)),
        Err(ValueFault::Range) => Ok(None),
        Err(ValueFault::Memory) => Err(AllocError),
    }
}

/// The first set of the column of a number. Takes no memory.
fn set_of(sets: &[(ColNo, BoundExpr)], number: usize) -> Option<&(ColNo, BoundExpr)>
    ensures { option_copied result ≡ find (λ set. set.0.0 == number) sets.now }
{
    sets.iter().find(|set| set.0.0 as usize == number)
}

/// What stands in a column after an UPDATE: what the first set of the column gives over the row as it was, else what stood
/// there.
pub(crate) fn set_value(
    alloc: Global,
    sets: &[(ColNo, BoundExpr)],
    row: &Row,
    number: usize,
    value: &Value,
) -> Result<Value, AllocError>
    ensures { IfOk result (λ after. after ≡ set_value sets.now row.now (number, value.now)) }
{
    match set_of(sets, number) {
        Some(set) => Ok(value_of(alloc, &set.1, row)?.unwrap_or(Value::Null)),
        None => value.copy(alloc),
    }
}
