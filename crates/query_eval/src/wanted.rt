ghost use Rattle.std.specs.Prelude.{◌≡◌, map, IfSome};
ghost use Rattle.std.specs.Option.{option_copied};
ghost use Rattle.query_model.specs.Stored.{IsStored};
ghost use Rattle.query_model.specs.Truth.{is_true, keeps, least, truth};
ghost use Rattle.query_eval.specs.Candidates.{IsWanted};

use own_base::{ColNo, Value};
use own_model::{BoundCond, BoundOperand, Cmp};

/// The value, where it is a number or a text. Takes no memory.
fn as_key(value: &Value) -> Option<&Value>
    ensures { IfSome result (λ own. IsStored own.now × (own.now ≡ value.now)) }
{
    match value {
        Value::Int(_) | Value::Text(_) => Some(value),
        Value::Null | Value::Sum(_) => None,
    }
}

/// The number or text that an operand is. Takes no memory.
fn literal(right: &BoundOperand) -> Option<&Value>
    ensures { IfSome result (λ value. IsStored value.now × (right.now ≡ BoundOperand.Literal value.now)) }
{
    match right {
        BoundOperand::Literal(value) => as_key(value),
        BoundOperand::Column(_) => None,
    }
}

/// The value that a comparison wants in a column, where it is `column = literal`. Takes no memory.
fn wanted_of(own: ColNo, sign: Cmp, right: &BoundOperand, column: ColNo) -> Option<&Value>
    ensures column { IfSome result (λ value. own.0 ≡ column.0) }
    ensures sign { IfSome result (λ value. sign ≡ Cmp.Eq) }
    ensures value { IfSome result (λ value. IsStored value.now × (right.now ≡ BoundOperand.Literal value.now)) }
{
    match sign {
        Cmp::Eq => { if own == column { literal(right) } else { None } }
        Cmp::Ne | Cmp::Lt | Cmp::Le | Cmp::Gt | Cmp::Ge => None,
    }
}

/// That which a condition wants that is one comparison. Takes no memory.
fn wanted_by(part: &BoundCond, column: ColNo) -> Option<&Value>
    ensures { IfSome result (λ value. IsWanted (λ row. is_true (truth row part.now)) column.0 value.now) }
{
    match part {
        BoundCond::Compare(own, sign, right) => wanted_of(*own, *sign, right, column),
        BoundCond::Every(_) | BoundCond::Some1(_) | BoundCond::Not(_) | BoundCond::IsNull(_, _) =>
            None,
    }
}

/// That which the first part of an AND wants that wants one. Takes no memory.
fn wanted_by_each(parts: &[BoundCond], column: ColNo) -> Option<&Value>
    ensures { IfSome result (λ value. IsWanted (λ row. is_true (least (map (truth row) parts.now))) column.0 value.now) }
{
    for part in parts {
        if let Some(value) = wanted_by(part, column) {
            return Some(value);
        }
    }
    None
}

/// That which a condition wants. Takes no memory.
fn wanted_in(cond: &BoundCond, column: ColNo) -> Option<&Value>
    ensures { IfSome result (λ value. IsWanted (λ row. is_true (truth row cond.now)) column.0 value.now) }
{
    match cond {
        BoundCond::Every(parts) => wanted_by_each(parts.items(), column),
        _ => wanted_by(cond, column),
    }
}

/// The value that each row has in a column which WHERE keeps, where it says so by `column = literal`, alone or as a direct part of its
/// AND. Takes no memory.
pub(crate) fn wanted(cond: Option<&BoundCond>, column: ColNo) -> Option<&Value>
    ensures { IfSome result (λ value. IsWanted (keeps (option_copied cond.entry)) column.0 value.now) }
{
    match cond {
        None => None,
        Some(cond) => wanted_in(cond, column),
    }
}
