use disk_fields::{
    Field, Unread, byte_count_of, no_more, read_items, read_text, read_u32, read_u64, write_items,
    write_text, write_u32, write_u64,
};
use own_base::{List, Row, Text, Value};
use std::mem::drop;
use std::process::Abort;

/// Two numbers, of four bytes and of eight, written one behind the other.
fn two_numbers(rt: &(impl Abort + AllocGlobal), low: u32, high: u64) -> Vec<u8> {
    let mut out = Vec::new(rt.alloc());
    write_u32(low, &mut out).expect(rt, "memory");
    write_u64(high, &mut out).expect(rt, "memory");
    out
}

/// The bytes are two numbers, and nothing behind them.
fn assert_two_numbers(rt: &impl Abort, bytes: &[u8], low: u32, high: u64) {
    let (first, rest) = read_u32(bytes).expect(rt, "a number");
    let (second, rest) = read_u64(rest).expect(rt, "a number");
    assert_eq!(rt; first, low);
    assert_eq!(rt; second, high);
    assert!(rt; no_more(rest).is_ok());
    assert!(rt; matches!(read_u32(rest), Err(Unread::Malformed)));
}

#[test]
fn numbers_are_written_the_highest_byte_first(rt: HostRuntime) {
    let out = two_numbers(&rt, 0x0102_0304, 0x0506_0708_090a_0b0c);
    assert_eq!(rt;
        out.as_slice(),
        [1, 2, 3, 4, 5, 6, 7, 8, 9, 10, 11, 12].as_slice()
    );
    assert_two_numbers(&rt, &out, 0x0102_0304, 0x0506_0708_090a_0b0c);
    assert!(rt; matches!(no_more(&out), Err(Unread::Malformed)));
}

/// The bytes of a text that has fewer than 256.
fn written(rt: &(impl Abort + AllocGlobal), text: &Text) -> Vec<u8> {
    let mut out = Vec::new(rt.alloc());
    if text.bytes().len() < 256 {
        write_text(text, &mut out).expect(rt, "memory");
    }
    out
}

/// The bytes are this text, and nothing behind it.
fn assert_text(rt: &(impl Abort + AllocGlobal), bytes: &[u8], text: &Text) {
    let (read, rest) = read_text(rt.alloc(), 5, bytes).expect(rt, "a text");
    assert_eq!(rt; read, *text);
    assert!(rt; rest.is_empty());
}

#[test]
fn texts_are_written_with_their_length(rt: HostRuntime) {
    let text = Text::from_str(rt.alloc(), "\u{e9}t\u{e9}").expect(&rt, "memory");
    let out = written(&rt, &text);
    assert_eq!(rt;
        out.as_slice(),
        [0, 0, 0, 5, 195, 169, 116, 195, 169].as_slice()
    );
    assert_text(&rt, &out, &text);
    assert!(rt; read_text(rt.alloc(), 4, &out).is_err());
}

/// The bytes are NULL and the least number, and nothing behind them.
fn assert_null_and_least(rt: &(impl Abort + AllocGlobal), bytes: &[u8]) {
    let (read, rest) = read_items::<Value>(rt.alloc(), 2, bytes).expect(rt, "values");
    assert!(rt; rest.is_empty());
    assert!(rt; matches!(read.items(), [Value::Null, Value::Int(i64::MIN)]));
}

#[test]
fn values_are_written_one_behind_another(rt: HostRuntime) {
    let values = [Value::Null, Value::Int(i64::MIN)];
    let mut out = Vec::new(rt.alloc());
    assert_eq!(rt; byte_count_of(&values), 10);
    write_items(&values, &mut out).expect(&rt, "memory");
    drop(values);
    assert_eq!(rt; out.as_slice(), [0, 1, 128, 0, 0, 0, 0, 0, 0, 0].as_slice());
    assert_null_and_least(&rt, &out);
}

#[test]
fn a_list_tells_its_length(rt: HostRuntime) {
    let bytes = [0, 0, 0, 1, 0, 0, 0, 1, 0, 9];
    let (rows, rest) = List::<Row>::read(rt.alloc(), &bytes).expect(&rt, "rows");
    assert_eq!(rt; rest, [9].as_slice());
    assert_eq!(rt; rows.items().len(), 1);
}
