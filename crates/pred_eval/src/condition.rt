ghost use Rattle.std.specs.Prelude.{◌≡◌, map, unwrap_or};
ghost use Rattle.std.specs.Option.{option_copied};
ghost use Rattle.pred_eval.specs.RowPair.{whole_row};
ghost use Rattle.query_model.specs.Truth.{cell, comparison, greater, greatest, keeps, least, lesser, negation, operand, takes, truth, truth_of};
ghost use Rattle.query_model.specs.Truth.{compared as stand};
ghost use Rattle.pred_eval.specs.NullTest.{null_truth};

use crate::compare::compared;
use crate::row_pair::RowPair;
use own_base::{ColNo, Row, Value};
use own_model::{BoundCond, BoundOperand, Cmp, Truth};
use std::cmp::Ordering;

/// Whether a sign takes two values that stand so to each other.
fn takes(sign: Cmp, ordering: Ordering) -> bool
    ensures { result ≡ takes sign ordering }
{
    match sign {
        Cmp::Eq => ordering.is_eq(),
        Cmp::Ne => ordering.is_ne(),
        Cmp::Lt => ordering.is_lt(),
        Cmp::Le => ordering.is_le(),
        Cmp::Gt => ordering.is_gt(),
        Cmp::Ge => ordering.is_ge(),
    }
}

fn truth_of(holds: bool) -> Truth
    ensures { result ≡ truth_of holds }
{
    if holds { Truth::True } else { Truth::False }
}

/// A comparison; with NULL it is Unknown.
fn comparison(sign: Cmp, ordering: Option<Ordering>) -> Truth
    ensures { result ≡ comparison sign ordering }
{
    match ordering {
        None => Truth::Unknown,
        Some(ordering) => truth_of(takes(sign, ordering)),
    }
}

/// NOT of a condition.
fn negation(part: Truth) -> Truth
    ensures { result ≡ negation part }
{
    match part {
        Truth::True => Truth::False,
        Truth::False => Truth::True,
        Truth::Unknown => Truth::Unknown,
    }
}

/// The lesser of two, with False below Unknown below True.
fn lesser(one: Truth, other: Truth) -> Truth
    ensures { result ≡ lesser one other }
{
    match (one, other) {
        (Truth::False, _) | (_, Truth::False) => Truth::False,
        (Truth::True, Truth::True) => Truth::True,
        _ => Truth::Unknown,
    }
}

/// The greater of two.
fn greater(one: Truth, other: Truth) -> Truth
    ensures { result ≡ greater one other }
{
    match (one, other) {
        (Truth::True, _) | (_, Truth::True) => Truth::True,
        (Truth::False, Truth::False) => Truth::False,
        _ => Truth::Unknown,
    }
}

/// How what stands in two columns stands to each other; none is NULL.
#[tactic(auto, unfolding(query_model::specs::Truth::compared))]
fn compared_cells(left: Option<&Value>, right: Option<&Value>) -> Option<Ordering>
    ensures { result ≡ stand (unwrap_or (option_copied left.entry) Value.Null) (unwrap_or (option_copied right.entry) Value.Null) }
{
    compared(left?, right?)
}

/// The right side of a comparison; none is NULL.
fn operand<'a>(row: &'a RowPair<'_>, right: &'a BoundOperand) -> Option<&'a Value>
    ensures { unwrap_or (option_copied result) Value.Null ≡ operand row.now right.now }
{
    match right {
        BoundOperand::Column(column) => row.cell(*column),
        BoundOperand::Literal(value) => Some(value),
    }
}

/// A comparison over a row or a pair.
fn compared_in(row: &RowPair<'_>, column: ColNo, sign: Cmp, right: &BoundOperand) -> Truth
    ensures { result ≡ comparison sign (stand (cell row.now column.0) (operand row.now right.now)) }
{
    comparison(sign, compared_cells(row.cell(column), operand(row, right)))
}

/// Whether a test for NULL, or with true for another value, holds of what stands in a column; none is NULL.
fn null_test(value: Option<&Value>, negated: bool) -> Truth
    ensures { result ≡ null_truth (unwrap_or (option_copied value.entry) Value.Null) negated }
{
    let is_null = matches!(value, None | Some(Value::Null));
    truth_of(is_null != negated)
}

/// The least of the parts of an AND, up to the first that is False.
#[cycle(condition)]
fn least(parts: &[BoundCond], row: &RowPair<'_>) -> Truth
    ensures { result ≡ least (map (truth row.now) parts.now) }
{
    let mut least = Truth::True;
    for part in parts {
        least = lesser(least, truth_over(part, row));
        if matches!(least, Truth::False) {
            return least;
        }
    }
    least
}

/// The greatest of the parts of an OR, up to the first that is True.
#[cycle(condition)]
fn greatest(parts: &[BoundCond], row: &RowPair<'_>) -> Truth
    ensures { result ≡ greatest (map (truth row.now) parts.now) }
{
    let mut greatest = Truth::False;
    for part in parts {
        greatest = greater(greatest, truth_over(part, row));
        if matches!(greatest, Truth::True) {
            return greatest;
        }
    }
    greatest
}

/// Whether a condition holds of a row or a pair.
#[cycle(condition)]
#[tactic(auto, using(query_model::proofs::TruthByVariant::truth_by_variant))]
fn truth_over(cond: &BoundCond, row: &RowPair<'_>) -> Truth
    ensures { result ≡ truth row.now cond.now }
{
    match cond {
        BoundCond::Every(parts) => least(parts.items(), row),
        BoundCond::Some1(parts) => greatest(parts.items(), row),
        BoundCond::Not(part) => negation(truth_over(part.get(), row)),
        BoundCond::Compare(column, sign, right) => { compared_in(row, *column, *sign, right) }
        BoundCond::IsNull(column, negated) => null_test(row.cell(*column), *negated),
    }
}

/// Whether a condition holds of a row, or of a pair of a join: of the left table's row with the right one's behind it.
/// Takes no memory.
pub fn truth(cond: &BoundCond, left: &Row, right: Option<&Row>) -> Truth
    ensures { result ≡ truth (whole_row left.now (option_copied right.entry)) cond.now }
{
    truth_over(cond, &RowPair::new(left, right))
}

/// Whether WHERE keeps a row of a source: its condition is True of it, or there is none. Takes no memory.
pub fn keeps_row(cond: Option<&BoundCond>, row: &RowPair<'_>) -> bool
    ensures { result ≡ keeps (option_copied cond.entry) row.now }
{
    match cond {
        Some(cond) => matches!(truth_over(cond, row), Truth::True),
        None => true,
    }
}

/// Whether WHERE keeps a row, or a pair of a join. Takes no memory.
pub fn keeps(cond: Option<&BoundCond>, left: &Row, right: Option<&Row>) -> bool
    ensures { result ≡ keeps (option_copied cond.entry) (whole_row left.now (option_copied right.entry)) }
{
    keeps_row(cond, &RowPair::new(left, right))
}
