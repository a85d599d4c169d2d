//! The index of a store, carried from one list of changes to the next.

use crate::made::{Cells, REFERS, TABLE, UNIQUE, change, definition};
use own_base::{ColNo, Key, MakeCopy, TableNo};
use ref_index::RefIndex;
use std::process::Abort;
use std::slice;

/// A change of a row by its key, and after it: who holds the number 5 in the UNIQUE column, and 1 in the one that refers.
struct Case {
    key: i64,
    before: Option<Cells>,
    after: Option<Cells>,
    fives: &'static [i64],
    ones: &'static [i64],
}

const CASES: [Case; 7] = [
    Case {
        key: 1,
        before: None,
        after: Some((Some(5), None, 0)),
        fives: &[1],
        ones: &[],
    },
    Case {
        key: 3,
        before: None,
        after: Some((None, Some(1), 0)),
        fives: &[1],
        ones: &[3],
    },
    Case {
        key: 2,
        before: None,
        after: Some((Some(6), Some(1), 0)),
        fives: &[1],
        ones: &[2, 3],
    },
    // The last column isn't indexed.
    Case {
        key: 2,
        before: Some((Some(6), Some(1), 0)),
        after: Some((Some(6), Some(1), 5)),
        fives: &[1],
        ones: &[2, 3],
    },
    // A value goes to NULL, and another takes it.
    Case {
        key: 1,
        before: Some((Some(5), None, 0)),
        after: Some((None, Some(1), 0)),
        fives: &[],
        ones: &[1, 2, 3],
    },
    Case {
        key: 2,
        before: Some((Some(6), Some(1), 5)),
        after: Some((Some(5), Some(3), 5)),
        fives: &[2],
        ones: &[1, 3],
    },
    Case {
        key: 3,
        before: Some((None, Some(1), 0)),
        after: None,
        fives: &[2],
        ones: &[1],
    },
];

/// Looks at who holds a number in a column, from each place on.
fn check_holders(
    rt: &(impl Abort + AllocGlobal),
    index: &RefIndex,
    column: ColNo,
    number: i64,
    keys: &[i64],
) {
    let value = Key::Int(number);
    assert_eq!(rt;
        index.holder_count(TABLE, column, &value),
        keys.len() as u64
    );
    assert!(rt;
        index
            .holders_from(TABLE, column, &value, keys.len() as u64)
            .is_empty()
    );
    for (place, key) in keys.iter().enumerate() {
        match index
            .holders_from(TABLE, column, &value, place as u64)
            .first()
        {
            Some((_, found)) => assert!(rt; found.compare(&Key::Int(*key)).is_eq()),
            None => panic!(rt; "a holder is missing"),
        }
    }
}

/// The index of a store with the table, which has no rows.
fn of_the_table(rt: &(impl Abort + AllocGlobal)) -> RefIndex {
    let table = definition(rt);
    assert!(rt; table.columns.items().len() < 1 << 32);
    let index = RefIndex::new(rt.alloc());
    index
        .with_table(rt.alloc(), TABLE, &table)
        .expect(rt, "memory")
}

#[test]
fn holders_follow_the_changes(rt: HostRuntime) {
    let mut index = of_the_table(&rt);
    for case in &CASES {
        let change = change(&rt, case.key, case.before, case.after);
        let next = index.with_changes(rt.alloc(), slice::from_ref(&change));
        drop(change);
        index = next.expect(&rt, "memory");
        check_holders(&rt, &index, UNIQUE, 5, case.fives);
        check_holders(&rt, &index, REFERS, 1, case.ones);
    }
}

/// The index before stays as it is, and so does a copy; a column that isn't indexed, and a table that isn't there, have no
/// holders.
#[test]
fn an_index_stays_as_it_is(rt: HostRuntime) {
    let index = of_the_table(&rt);
    let put = change(&rt, 1, None, Some((Some(5), Some(1), 5)));
    let next = index
        .with_changes(rt.alloc(), slice::from_ref(&put))
        .expect(&rt, "memory");
    drop(put);
    let copy = next.copy(rt.alloc()).expect(&rt, "memory");
    let gone = change(&rt, 1, Some((Some(5), Some(1), 5)), None);
    let last = next
        .with_changes(rt.alloc(), slice::from_ref(&gone))
        .expect(&rt, "memory");
    drop(gone);
    check_holders(&rt, &index, UNIQUE, 5, &[]);
    check_holders(&rt, &next, UNIQUE, 5, &[1]);
    check_holders(&rt, &copy, REFERS, 1, &[1]);
    check_holders(&rt, &last, REFERS, 1, &[]);
    check_holders(&rt, &next, ColNo(3), 5, &[]);
    assert_eq!(rt; next.holder_count(TableNo(1), UNIQUE, &Key::Int(5)), 0);
}
