//! Whether conditions hold of rows.

use own_base::{Boxed, ColNo, List, Row, Value};
use own_model::{BoundCond, BoundOperand, Cmp, Truth};
use pred_eval::{keeps, truth};
use std::mem::drop;
use std::process::Abort;

/// The row 1, 0, NULL.
fn row(rt: &(impl Abort + AllocGlobal)) -> Row {
    let values = vec![in rt.alloc(); Value::Int(1), Value::Int(0), Value::Null].expect(
        rt, "memory",
    );
    Row::from_values(List::from_vec(values))
}

/// A comparison of a column with a literal.
fn compared(column: u32, sign: Cmp, literal: Value) -> BoundCond {
    BoundCond::Compare(ColNo(column), sign, BoundOperand::Literal(literal))
}

/// Whether a column is 1.
fn is_one(column: u32) -> BoundCond {
    compared(column, Cmp::Eq, Value::Int(1))
}

/// Whether two columns are 1 each.
fn two(rt: &(impl Abort + AllocGlobal), left: u32, right: u32) -> List<BoundCond> {
    let parts = vec![in rt.alloc(); is_one(left), is_one(right)].expect(rt, "memory");
    List::from_vec(parts)
}

/// How a condition stands.
fn standing(row: &Row, cond: BoundCond) -> Truth {
    let stands = truth(&cond, row, None);
    drop(cond);
    stands
}

/// Whether a row, or a pair of rows, is kept by a condition.
fn is_kept(row: &Row, right: Option<&Row>, cond: BoundCond) -> bool {
    let kept = keeps(Some(&cond), row, right);
    drop(cond);
    kept
}

/// Two columns, of which 0 is 1, 1 isn't and 2 is NULL: whether both are 1, and whether one is.
type Joined = (u32, u32, Truth, Truth);

const JOINED: [Joined; 9] = [
    (0, 0, Truth::True, Truth::True),
    (0, 1, Truth::False, Truth::True),
    (0, 2, Truth::Unknown, Truth::True),
    (1, 0, Truth::False, Truth::True),
    (1, 1, Truth::False, Truth::False),
    (1, 2, Truth::False, Truth::Unknown),
    (2, 0, Truth::Unknown, Truth::True),
    (2, 1, Truth::False, Truth::Unknown),
    (2, 2, Truth::Unknown, Truth::Unknown),
];

/// Whether two columns stand so, joined.
fn are_joined(rt: &(impl Abort + AllocGlobal), row: &Row, case: &Joined) -> bool {
    let (left, right, every, some) = *case;
    standing(row, BoundCond::Every(two(rt, left, right))) == every
        && standing(row, BoundCond::Some1(two(rt, left, right))) == some
}

#[test]
fn parts_are_joined(rt: HostRuntime) {
    let row = row(&rt);
    for case in &JOINED {
        assert!(rt; are_joined(&rt, &row, case), "{} and {}", case.0, case.1);
    }
}

/// Whether a column is 1, and whether it isn't.
const NEGATED: [(u32, Truth, Truth); 3] = [
    (0, Truth::True, Truth::False),
    (1, Truth::False, Truth::True),
    (2, Truth::Unknown, Truth::Unknown),
];

/// Whether a column is not 1.
fn is_not_one(rt: &(impl Abort + AllocGlobal), column: u32) -> BoundCond {
    BoundCond::Not(Boxed::new(rt.alloc(), is_one(column)).expect(rt, "memory"))
}

/// Whether a column stands so where it is to be 1, and the row is kept where it is 1.
fn holds(row: &Row, column: u32, wanted: Truth) -> bool {
    standing(row, is_one(column)) == wanted && is_kept(row, None, is_one(column)) == (column == 0)
}

/// Whether a column stands so where it is not to be 1, and the row is kept where it is 0.
fn fails(rt: &(impl Abort + AllocGlobal), row: &Row, column: u32, wanted: Truth) -> bool {
    standing(row, is_not_one(rt, column)) == wanted
        && is_kept(row, None, is_not_one(rt, column)) == (column == 1)
}

/// A row is kept where its condition is True, and not where it is Unknown.
#[test]
fn conditions_are_negated(rt: HostRuntime) {
    let row = row(&rt);
    assert!(rt; keeps(None, &row, None));
    for (column, plain, negated) in &NEGATED {
        assert!(rt; holds(&row, *column, *plain), "{column}");
        assert!(rt; fails(&rt, &row, *column, *negated), "NOT {column}");
    }
}

/// A sign, and whether it takes 0 and 1, 1 and 1, 1 and 0.
type Taken = (Cmp, Truth, Truth, Truth);

const TAKEN: [Taken; 6] = [
    (Cmp::Eq, Truth::False, Truth::True, Truth::False),
    (Cmp::Ne, Truth::True, Truth::False, Truth::True),
    (Cmp::Lt, Truth::True, Truth::False, Truth::False),
    (Cmp::Le, Truth::True, Truth::True, Truth::False),
    (Cmp::Gt, Truth::False, Truth::False, Truth::True),
    (Cmp::Ge, Truth::False, Truth::True, Truth::True),
];

/// How a comparison of a column with a number stands.
fn against(row: &Row, column: u32, sign: Cmp, number: i64) -> Truth {
    standing(row, compared(column, sign, Value::Int(number)))
}

/// Whether a sign takes values so.
fn takes(row: &Row, case: &Taken) -> bool {
    let (sign, less, equal, greater) = *case;
    against(row, 1, sign, 1) == less
        && against(row, 0, sign, 1) == equal
        && against(row, 0, sign, 0) == greater
}

#[test]
fn signs_take_values(rt: HostRuntime) {
    let row = row(&rt);
    for case in &TAKEN {
        assert!(rt; takes(&row, case), "{:?}", case.0);
    }
}

/// Whether a comparison with NULL is Unknown: of a column with a literal.
fn are_unknown(row: &Row, sign: Cmp) -> bool {
    standing(row, compared(0, sign, Value::Null)) == Truth::Unknown
        && standing(row, compared(2, sign, Value::Int(1))) == Truth::Unknown
        && standing(row, compared(2, sign, Value::Null)) == Truth::Unknown
}

/// A comparison of two columns.
fn paired(left: u32, sign: Cmp, right: u32) -> BoundCond {
    BoundCond::Compare(ColNo(left), sign, BoundOperand::Column(ColNo(right)))
}

/// Whether a comparison with NULL is Unknown: of two columns.
fn are_pairs_unknown(row: &Row, sign: Cmp) -> bool {
    standing(row, paired(0, sign, 2)) == Truth::Unknown
        && standing(row, paired(2, sign, 0)) == Truth::Unknown
        && standing(row, paired(2, sign, 2)) == Truth::Unknown
}

/// A comparison with NULL is Unknown whatever its sign.
#[test]
fn null_is_compared_with_nothing(rt: HostRuntime) {
    let row = row(&rt);
    for case in &TAKEN {
        assert!(rt; are_unknown(&row, case.0), "{:?}", case.0);
        assert!(rt; are_pairs_unknown(&row, case.0), "{:?}", case.0);
    }
}

/// Whether a pair of rows is kept where a column is to be NULL, or not to be.
fn is_pair_kept(left: &Row, right: &Row, column: u32, not: bool) -> bool {
    is_kept(left, Some(right), BoundCond::IsNull(ColNo(column), not))
}

/// Whether a column of a pair is found to be NULL, or not to be.
fn is_found(left: &Row, right: &Row, column: u32, is_null: bool) -> bool {
    is_pair_kept(left, right, column, false) == is_null
        && is_pair_kept(left, right, column, true) == !is_null
}

/// Columns of a pair, and whether each is NULL.
const NULLS: [(u32, bool); 5] = [(0, false), (1, false), (2, true), (3, false), (5, true)];

/// IS NULL and IS NOT NULL are True or False. The columns of a pair's right row follow on those of its left one.
#[test]
fn null_is_found(rt: HostRuntime) {
    let left = row(&rt);
    let right = row(&rt);
    for (column, is_null) in &NULLS {
        assert!(rt; is_found(&left, &right, *column, *is_null), "{column}");
    }
}
