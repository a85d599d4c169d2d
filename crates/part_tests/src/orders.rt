use crate::made::{numbered, numbers_of, rows_put};
use crate::parts::{changed, part_with};
use own_base::Key;
use std::process::Abort;
use table_part::TablePart;

/// What a part has, key and value: one row after another, by place and by key.
fn expect_rows(rt: &impl Abort, part: &TablePart, rows: &[(i64, i64)]) {
    assert_eq!(rt; part.len(), rows.len() as u64, "{rows:?}");
    assert!(rt;
        part.rows().filter_map(numbers_of).eq(rows.iter().copied()),
        "{rows:?}"
    );
    for (at, row) in (0..u64::MAX).zip(rows) {
        assert_eq!(rt; part.at(at).and_then(numbers_of), Some(*row));
        assert_eq!(rt; part.get(&Key::Int(row.0)).and_then(numbers_of), Some(*row));
    }
}

/// The rows before, the changes in the order in which they are handed in, and the rows after.
type Case = (
    &'static [(i64, i64)],
    &'static [(i64, Option<i64>)],
    &'static [(i64, i64)],
);

const CASES: [Case; 14] = [
    // no changes
    (&[], &[], &[]),
    (&[(1, 10)], &[], &[(1, 10)]),
    // one alone: a row is put before the others, between them and behind them
    (
        &[(2, 20), (4, 40)],
        &[(1, Some(10))],
        &[(1, 10), (2, 20), (4, 40)],
    ),
    (
        &[(2, 20), (4, 40)],
        &[(3, Some(30))],
        &[(2, 20), (3, 30), (4, 40)],
    ),
    (
        &[(2, 20), (4, 40)],
        &[(5, Some(50))],
        &[(2, 20), (4, 40), (5, 50)],
    ),
    // it is replaced, or taken away, or there is none
    (&[(2, 20), (4, 40)], &[(2, Some(21))], &[(2, 21), (4, 40)]),
    (&[(2, 20), (4, 40)], &[(4, None)], &[(2, 20)]),
    (&[(2, 20), (4, 40)], &[(3, None)], &[(2, 20), (4, 40)]),
    // several in rising, falling and mixed order
    (
        &[],
        &[(1, Some(10)), (3, Some(30)), (5, Some(50))],
        &[(1, 10), (3, 30), (5, 50)],
    ),
    (
        &[],
        &[(5, Some(50)), (3, Some(30)), (1, Some(10))],
        &[(1, 10), (3, 30), (5, 50)],
    ),
    (
        &[],
        &[(3, Some(30)), (5, Some(50)), (1, Some(10))],
        &[(1, 10), (3, 30), (5, 50)],
    ),
    // rows put, replaced and taken away together
    (
        &[(2, 20), (4, 40), (6, 60)],
        &[
            (6, None),
            (3, Some(30)),
            (4, Some(41)),
            (1, None),
            (0, Some(1)),
            (2, None),
        ],
        &[(0, 1), (3, 30), (4, 41)],
    ),
    (&[(2, 20), (4, 40)], &[(4, None), (2, None)], &[]),
    // the least and the greatest number, and those below 0
    (
        &[(0, 5)],
        &[
            (i64::MAX, Some(1)),
            (-1, Some(2)),
            (i64::MIN, Some(3)),
            (-2, Some(4)),
        ],
        &[(i64::MIN, 3), (-2, 4), (-1, 2), (0, 5), (i64::MAX, 1)],
    ),
];

/// Makes the changes of a case, and looks at both parts.
fn check_case(rt: &(impl Abort + AllocGlobal), case: &Case) {
    let (before, changes, after) = *case;
    let part = part_with(rt, &rows_put(rt, before));
    let made = changed(rt, &part, &numbered(rt, changes));
    expect_rows(rt, &made, after);
    expect_rows(rt, &part, before);
}

#[test]
fn changes_come_in_any_order(rt: HostRuntime) {
    for case in &CASES {
        check_case(&rt, case);
    }
}
