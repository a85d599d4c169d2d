use crate::made::{change_of, texts_put, value_of};
use crate::parts::{changed, part_with};
use own_base::{Key, Text};
use std::process::Abort;

/// A key that is a text.
fn key_of(rt: &(impl Abort + AllocGlobal), text: &str) -> Key {
    Key::Text(Text::from_str(rt.alloc(), text).expect(rt, "memory"))
}

/// Texts, in the order in which they are put.
const GIVEN: [&str; 6] = ["b", "\u{e9}", "", "ab", "B", "a"];

/// The places of those texts, in the order of the bytes.
const PLACES: [i64; 6] = [2, 4, 5, 3, 0, 1];

#[test]
fn texts_are_ordered_by_bytes(rt: HostRuntime) {
    let part = part_with(&rt, &texts_put(&rt, &GIVEN));
    assert!(rt; part.rows().filter_map(value_of).eq(PLACES.iter().copied()));
    for (place, text) in (0..i64::MAX).zip(&GIVEN) {
        let key = key_of(&rt, text);
        assert_eq!(rt; part.get(&key).and_then(value_of), Some(place), "{text}");
    }
    assert!(rt; part.get(&key_of(&rt, "A")).is_none());
    assert!(rt; part.get(&Key::Int(0)).is_none());
}

#[test]
fn a_text_takes_its_row_away(rt: HostRuntime) {
    let part = part_with(&rt, &texts_put(&rt, &["ab", "a", "abc"]));
    let gone = [change_of(&rt, key_of(&rt, "ab"), None)];
    let made = changed(&rt, &part, &gone);
    assert!(rt; made.rows().filter_map(value_of).eq([1, 2].iter().copied()));
    assert!(rt;
        part.rows()
            .filter_map(value_of)
            .eq([1, 0, 2].iter().copied())
    );
}
