//! What an UPDATE sets a column to.

use own_base::{ColNo, List, Row, Value};
use own_model::BoundExpr;
use pred_eval::{ValueFault, value};
use std::mem::drop;
use std::process::Abort;

/// The row of this number and NULL.
fn row(rt: &(impl Abort + AllocGlobal), number: i64) -> Row {
    let values = vec![in rt.alloc(); Value::Int(number), Value::Null].expect(rt, "memory");
    Row::from_values(List::from_vec(values))
}

/// A number, a number more or less, and what that is; none is out of range.
type Case = (i64, i64, Option<i64>);

const MORE: [Case; 8] = [
    (i64::MAX, 1, None),
    (i64::MAX, 0, Some(i64::MAX)),
    (i64::MAX - 1, 1, Some(i64::MAX)),
    (i64::MIN, -1, None),
    (i64::MIN + 1, -1, Some(i64::MIN)),
    (i64::MAX, i64::MIN, Some(-1)),
    (0, i64::MIN, Some(i64::MIN)),
    (-1, i64::MIN, None),
];

const LESS: [Case; 8] = [
    (i64::MIN, 1, None),
    (i64::MIN, 0, Some(i64::MIN)),
    (i64::MIN + 1, 1, Some(i64::MIN)),
    (i64::MAX, -1, None),
    (i64::MAX - 1, -1, Some(i64::MAX)),
    (i64::MIN, i64::MIN, Some(0)),
    (-1, i64::MIN, Some(i64::MAX)),
    (0, i64::MIN, None),
];

/// The value of an expression, or whether it is out of range.
fn given(
    rt: &(impl Abort + AllocGlobal),
    expr: BoundExpr,
    number: i64,
) -> Result<Value, ValueFault> {
    let row = row(rt, number);
    let given = value(rt.alloc(), &expr, &row);
    drop(row);
    drop(expr);
    given
}

/// Whether an expression comes to this, or is out of range where that is none.
fn comes_to(
    rt: &(impl Abort + AllocGlobal),
    expr: BoundExpr,
    number: i64,
    wanted: Option<i64>,
) -> bool {
    let wanted = wanted.map(Value::Int).ok_or(ValueFault::Range);
    given(rt, expr, number) == wanted
}

#[test]
fn sums_keep_to_their_range(rt: HostRuntime) {
    for (number, more, sum) in &MORE {
        let plus = BoundExpr::Plus(ColNo(0), *more);
        assert!(rt; comes_to(&rt, plus, *number, *sum), "{number} + {more}");
    }
    for (number, less, rest) in &LESS {
        let minus = BoundExpr::Minus(ColNo(0), *less);
        assert!(rt; comes_to(&rt, minus, *number, *rest), "{number} - {less}");
    }
}

/// Whether an expression gives a value over the row of 5.
fn gives(rt: &(impl Abort + AllocGlobal), expr: BoundExpr, wanted: Value) -> bool {
    given(rt, expr, 5) == Ok(wanted)
}

/// A sum with NULL is NULL, and a literal and a column are given as they are.
#[test]
fn values_are_given(rt: HostRuntime) {
    assert!(rt; gives(&rt, BoundExpr::Plus(ColNo(1), i64::MAX), Value::Null));
    assert!(rt; gives(&rt, BoundExpr::Minus(ColNo(1), 1), Value::Null));
    assert!(rt; gives(&rt, BoundExpr::Literal(Value::Int(7)), Value::Int(7)));
    assert!(rt; gives(&rt, BoundExpr::Literal(Value::Null), Value::Null));
    assert!(rt; gives(&rt, BoundExpr::Column(ColNo(0)), Value::Int(5)));
    assert!(rt; gives(&rt, BoundExpr::Column(ColNo(1)), Value::Null));
}
