ghost use Rattle.std.specs.Prelude.{◌≡◌, IfOk, IfErr, neg_ℤ, unwrap_or};
ghost use Rattle.std.specs.Option.{option_copied};
ghost use Rattle.query_model.specs.Expression.{increased, value_of};
ghost use Rattle.pred_eval.specs.ValueFault.{IsFaultOf};

use own_base::{MakeCopy, Row, Value};
use own_model::BoundExpr;
use row_reading::{cell, copied_cell};
use std::alloc::{AllocError, Global};

/// Why an expression gives no value.
#[derive(Clone, Copy, Debug, PartialEq, Eq)]
pub enum ValueFault {
    /// The number leaves the range of INT.
    Range,
    /// Memory was refused.
    Memory,
}

impl From<AllocError> for ValueFault {
    ghost use Rattle.std.specs.Prelude.{◌≡◌};
    ghost use Rattle.pred_eval.specs.declared.expression.ValueFault.TheVariants.{Memory};

    ghost from_gives = { λ _ fault. fault ≡ Memory };

    fn from(_error: AllocError) -> ValueFault {
        ValueFault::Memory
    }
}

/// A number more than a value; of NULL, and of what is no number, it is NULL.
#[tactic(auto, using(crate::proofs::Ranges::ranges))]
fn raised(value: Option<&Value>, number: i64) -> Result<Value, ValueFault>
    ensures ok { IfOk result (λ sum. increased (unwrap_or (option_copied value.entry) Value.Null) number ≡ Some sum) }
    ensures err { IfErr result (IsFaultOf (increased (unwrap_or (option_copied value.entry) Value.Null) number)) }
{
    match value {
        Some(Value::Int(value)) => match value.checked_add(number) {
            Some(sum) => Ok(Value::Int(sum)),
            None => Err(ValueFault::Range),
        },
        _ => Ok(Value::Null),
    }
}

/// A number less than a value.
#[tactic(auto, using(crate::proofs::Ranges::ranges))]
fn lowered(value: Option<&Value>, number: i64) -> Result<Value, ValueFault>
    ensures ok { IfOk result (λ rest. increased (unwrap_or (option_copied value.entry) Value.Null) (neg_ℤ number) ≡ Some rest) }
    ensures err { IfErr result (IsFaultOf (increased (unwrap_or (option_copied value.entry) Value.Null) (neg_ℤ number))) }
{
    match value {
        Some(Value::Int(value)) => match value.checked_sub(number) {
            Some(rest) => Ok(Value::Int(rest)),
            None => Err(ValueFault::Range),
        },
        _ => Ok(Value::Null),
    }
}

/// The value of an expression over a row.
#[tactic(auto, unfolding(query_model::specs::Expression::value_of))]
pub fn value(alloc: Global, expr: &BoundExpr, row: &Row) -> Result<Value, ValueFault>
    ensures ok { IfOk result (λ value. value_of expr.now row.now ≡ Some value) }
    ensures err { IfErr result (IsFaultOf (value_of expr.now row.now)) }
{
    match expr {
        BoundExpr::Literal(value) => Ok(value.copy(alloc)?),
        BoundExpr::Column(column) => Ok(copied_cell(alloc, row, *column)?),
        BoundExpr::Plus(column, number) => raised(cell(row, *column), *number),
        BoundExpr::Minus(column, number) => lowered(cell(row, *column), *number),
    }
}
