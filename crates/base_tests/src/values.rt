ghost use Rattle.std.specs.Prelude.{IfOk, ◌≡◌};
ghost use Rattle.own_base.specs.Row.{row_size};

use own_base::{
    Boxed, Change, ColNo, Key, List, MakeCopy, Name, Row, RowName, Subject, TableNo, Text, Value,
};
use std::cmp::Ordering;
use std::mem::drop;
use std::process::Abort;

#[test]
fn lists_keep_their_order(rt: HostRuntime) {
    let mut list = List::new(rt.alloc());
    assert!(rt; list.push(7).is_ok());
    list.add(-1).expect(&rt, "memory");
    assert_eq!(rt; list.items(), [7, -1].as_slice());
    let items = list.into_vec();
    assert_eq!(rt; List::from_vec(items).items(), [7, -1].as_slice());
}

#[test]
fn lists_and_pairs_are_copied(rt: HostRuntime) {
    let mut pairs = List::new(rt.alloc());
    pairs.add((Key::Int(1), Key::Int(2))).expect(&rt, "memory");
    assert_eq!(rt;
        pairs.copy(rt.alloc()).expect(&rt, "memory").items(),
        pairs.items()
    );
}

/// Texts and their bytes.
const TEXTS: [(&str, &[u8]); 3] = [
    ("", b""),
    ("it's;\t\0", b"it's;\x09\x00"),
    ("\u{e9}\\", b"\xc3\xa9\x5c"),
];

/// Whether a text of these words has these bytes, and it, its copy and the text of a string say the words.
fn has_bytes(rt: &(impl Abort + AllocGlobal), held: &str, bytes: &[u8]) -> bool {
    let text = Text::from_str(rt.alloc(), held).expect(rt, "memory");
    let copy = text.copy(rt.alloc()).expect(rt, "memory");
    let string = String::from_str(rt.alloc(), held).expect(rt, "memory");
    let taken_over = Text::from_string(string).expect(rt, "memory");
    text.bytes() == bytes && copy.as_str() == held && taken_over.as_str() == held
}

#[test]
fn texts_hold_bytes(rt: HostRuntime) {
    for (held, bytes) in &TEXTS {
        assert!(rt; has_bytes(&rt, held, bytes), "{held}");
    }
}

#[test]
fn names_hold_bytes(rt: HostRuntime) {
    let name = Name::from_str(rt.alloc(), "_users_2").expect(&rt, "memory");
    assert_eq!(rt; name.bytes(), b"_users_2".as_slice());
    let copy = name.copy(rt.alloc()).expect(&rt, "memory");
    assert_eq!(rt; copy.as_str(), "_users_2");
}

/// The row 5, a text.
fn row_of(rt: &(impl Abort + AllocGlobal), text: &str) -> Row {
    let text = Text::from_str(rt.alloc(), text).expect(rt, "memory");
    let values = vec![in rt.alloc(); Value::Int(5), Value::Text(text)].expect(rt, "memory");
    Row::from_values(List::from_vec(values))
}

#[test]
fn rows_give_values_by_column(rt: HostRuntime) {
    let row = row_of(&rt, "Ann");
    assert!(rt; row.get(ColNo(0)) == Some(&Value::Int(5)));
    assert!(rt; row.get(ColNo(2)).is_none());
}

#[test]
fn rows_are_copied_and_shared(rt: HostRuntime) {
    let row = row_of(&rt, "Ann");
    let alone = row.copy(rt.alloc()).expect(&rt, "memory");
    let shared = row.into_shared(rt.alloc()).expect(&rt, "memory");
    let copy = shared.copy(rt.alloc()).expect(&rt, "memory");
    assert_eq!(rt; copy.values(), alone.values());
    drop(shared);
    let again = copy.into_shared(rt.alloc()).expect(&rt, "memory");
    assert_eq!(rt; again.values(), alone.values());
}

/// The size of a text.
fn size_of(rt: &(impl Abort + AllocGlobal), text: &str) -> u64 {
    Value::Text(Text::from_str(rt.alloc(), text).expect(rt, "memory")).size()
}

#[test]
fn sizes_count_texts_by_byte(rt: HostRuntime) {
    assert_eq!(rt; Value::Null.size(), 32);
    assert_eq!(rt; size_of(&rt, "\u{e9}t\u{e9}"), 37);
    assert_eq!(rt; Row::from_values(List::new(rt.alloc())).size(), 64);
}

#[test]
fn names_of_rows_are_copied(rt: HostRuntime) {
    let alloc = rt.alloc();
    let name = RowName {
        table: TableNo(2),
        key: Key::Int(5),
    };
    assert_eq!(rt; name.copy(alloc).expect(&rt, "memory"), name);
    assert_eq!(rt; name.key.compare(&Key::Int(10)), Ordering::Less);
    let subject = Subject(name);
    assert_eq!(rt; subject.copy(alloc).expect(&rt, "memory"), subject);
}

#[test]
fn changes_are_copied(rt: HostRuntime) {
    let alloc = rt.alloc();
    let change = Change {
        name: RowName {
            table: TableNo(2),
            key: Key::Int(5),
        },
        before: None,
        after: Some(Row::from_values(List::new(alloc))),
    };
    let copy = change.copy(alloc).expect(&rt, "memory");
    assert_eq!(rt; copy.name, change.name);
    assert!(rt; copy.before.is_none());
    assert!(rt; copy.after.is_some());
}

#[test]
fn boxes_are_seen_as_their_value(rt: HostRuntime) {
    let boxed = Boxed::new(rt.alloc(), Key::Int(5)).expect(&rt, "memory");
    assert_eq!(rt; *boxed.get(), Key::Int(5));
    assert_eq!(rt; boxed.into_inner(), Key::Int(5));
}
