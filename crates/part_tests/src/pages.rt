use crate::made::{change_of, numbers_of};
use crate::parts::{change_each, changed, part_with};
use own_base::{Change, Key, MakeCopy, Row};
use std::process::Abort;
use table_part::TablePart;

/// The changes of the keys from 1 up to this one: rows with ten times the key as their value, or none.
fn up_to(rt: &(impl Abort + AllocGlobal), last: i64, put: bool) -> Vec<Change> {
    let mut changes = Vec::new(rt.alloc());
    for key in 1..=last {
        let value = if put {
            Some(key.wrapping_mul(10))
        } else {
            None
        };
        changes
            .push(change_of(rt, Key::Int(key), value))
            .expect(rt, "memory");
    }
    changes
}

/// The key of a row that is a number.
fn key_of(row: &Row) -> Option<i64> {
    numbers_of(row).map(|(key, _)| key)
}

/// Whether a part has the rows of the keys from 1 up to this one.
fn has_up_to(part: &TablePart, last: i64) -> bool {
    part.rows()
        .filter_map(numbers_of)
        .eq((1..=last).map(|key| (key, key.wrapping_mul(10))))
}

/// The rows of the last page, of fewer than a hundred pages.
fn last_page(part: &TablePart) -> &[Row] {
    (0..100)
        .rev()
        .find_map(|number| part.page(number))
        .unwrap_or(&[])
}

#[test]
fn a_row_too_many_for_a_page_makes_a_second(rt: HostRuntime) {
    let part = part_with(&rt, &up_to(&rt, 32, true));
    let made = changed(&rt, &part, &[change_of(&rt, Key::Int(33), Some(330))]);
    assert_eq!(rt; made.at(32).and_then(key_of), Some(33));
    assert!(rt; made.page(1).is_some());
    assert!(rt; has_up_to(&made, 33));
    assert!(rt; part.at(32).is_none());
    assert_eq!(rt; part.page(0).map(|page| page.len()), Some(32));
    assert!(rt; part.page(1).is_none());
    assert!(rt; has_up_to(&part, 32));
}

#[test]
fn no_row_leaves_no_page(rt: HostRuntime) {
    let part = part_with(&rt, &up_to(&rt, 33, true));
    let made = changed(&rt, &part, &up_to(&rt, 33, false));
    assert_eq!(rt; made.len(), 0);
    assert!(rt; made.rows().next().is_none());
    assert!(rt; made.page(0).is_none());
    assert!(rt; made.rows_from(0).is_empty());
    assert!(rt; has_up_to(&part, 33));
}

#[test]
fn a_page_without_a_changed_key_stays(rt: HostRuntime) {
    let part = part_with(&rt, &up_to(&rt, 33, true));
    let made = changed(&rt, &part, &[change_of(&rt, Key::Int(1), None)]);
    assert_eq!(rt; made.len(), 32);
    let (before, after) = (last_page(&part), last_page(&made));
    assert!(rt; !before.is_empty());
    assert!(rt;
        after
            .iter()
            .map(numbers_of)
            .eq(before.iter().map(numbers_of))
    );
    assert!(rt; has_up_to(&part, 33));
}

/// Keys, and the key of the row that each names.
const KEYS: [(i64, Option<i64>); 4] = [(0, None), (1, Some(1)), (33, Some(33)), (34, None)];

/// Places, and the key of the row at each.
const PLACES: [(u64, Option<i64>); 4] = [
    (0, Some(1)),
    (32, Some(33)),
    (33, None),
    (u64::MAX, None),
];

#[test]
fn the_ends_of_a_part(rt: HostRuntime) {
    let part = part_with(&rt, &up_to(&rt, 33, true));
    for (key, there) in &KEYS {
        assert_eq!(rt; part.get(&Key::Int(*key)).and_then(key_of), *there, "{key}");
    }
    for (place, key) in &PLACES {
        assert_eq!(rt; part.at(*place).and_then(key_of), *key, "{place}");
        assert_eq!(rt;
            part.rows_from(*place).first().and_then(key_of),
            *key,
            "{place}"
        );
    }
    assert_eq!(rt; part.rows_from(32).len(), 1);
    assert_eq!(rt;
        part.page(0).and_then(|page| page.first()).and_then(key_of),
        Some(1)
    );
    assert!(rt; part.page(u64::MAX).is_none());
}

#[test]
fn a_copy_is_a_part_of_its_own(rt: HostRuntime) {
    let part = part_with(&rt, &up_to(&rt, 3, true));
    let copy = part.copy(rt.alloc()).expect(&rt, "memory");
    assert!(rt; has_up_to(&copy, 3));
    let made = changed(&rt, &copy, &up_to(&rt, 2, false));
    assert_eq!(rt; made.rows().next().and_then(key_of), Some(3));
    assert!(rt; has_up_to(&copy, 3));
    assert!(rt; has_up_to(&part, 3));
}

#[test]
fn a_row_too_many_makes_a_second_page_where_rows_come_one_by_one(rt: HostRuntime) {
    let mut part = part_with(&rt, &[]);
    change_each(&rt, &mut part, &up_to(&rt, 32, true));
    let before = part.copy(rt.alloc()).expect(&rt, "memory");
    change_each(&rt, &mut part, &[change_of(&rt, Key::Int(33), Some(330))]);
    assert_eq!(rt; part.at(32).and_then(key_of), Some(33));
    assert!(rt; part.page(1).is_some());
    assert!(rt; has_up_to(&part, 33));
    assert!(rt; before.at(32).is_none());
    assert!(rt; before.page(1).is_none());
    assert!(rt; has_up_to(&before, 32));
    change_each(&rt, &mut part, &up_to(&rt, 33, false));
    assert_eq!(rt; part.len(), 0);
    assert!(rt; part.page(0).is_none());
    assert!(rt; has_up_to(&before, 32));
}

#[test]
fn a_row_takes_the_place_of_one_and_goes(rt: HostRuntime) {
    let mut part = part_with(&rt, &up_to(&rt, 3, true));
    change_each(&rt, &mut part, &[change_of(&rt, Key::Int(2), Some(7))]);
    assert_eq!(rt; part.at(1).and_then(numbers_of), Some((2, 7)));
    change_each(&rt, &mut part, &[change_of(&rt, Key::Int(2), None)]);
    assert_eq!(rt; part.at(1).and_then(key_of), Some(3));
    change_each(&rt, &mut part, &[change_of(&rt, Key::Int(9), None)]);
    assert_eq!(rt; part.len(), 2);
}
