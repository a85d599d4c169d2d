//! Values as a reply shows them.

use own_base::{Sum, Text, Value};
use sql_print::print_value;
use std::alloc::{AllocError, Global};
use std::process::Abort;

/// A text as a reply shows it.
fn shown(alloc: Global, text: &str) -> Result<Text, AllocError> {
    let value = Value::Text(Text::from_str(alloc, text)?);
    print_value(alloc, &value)
}

#[test]
fn texts_are_shown_on_one_line(rt: HostRuntime) {
    for (text, wanted) in [
        ("", "''"),
        ("Ann", "'Ann'"),
        ("it's", "'it''s'"),
        ("'", "''''"),
        ("\t", "'\\09'"),
        ("a\nb\r", "'a\\0ab\\0d'"),
        ("\0\u{1f} ~", "'\\00\\1f ~'"),
        ("a\\b", "'a\\5cb'"),
        ("\u{7f}\u{80}", "'\\7f\u{80}'"),
        (
            "\u{e9}'\u{20ac}\\\u{1f600}",
            "'\u{e9}''\u{20ac}\\5c\u{1f600}'",
        ),
    ] {
        assert_eq!(rt;
            shown(rt.alloc(), text).expect(&rt, "memory").as_str(),
            wanted
        );
    }
}

/// What each number of `number` is shown as.
const NUMBERS: [&str; 6] = [
    "NULL",
    "0",
    "9223372036854775807",
    "-9223372036854775808",
    "-1",
    "9223372036854775807000000",
];

fn sum(rt: &(impl Abort + AllocGlobal), number: i128) -> Value {
    Value::Sum(Sum::new(rt.alloc(), number).expect(rt, "memory"))
}

fn number(rt: &(impl Abort + AllocGlobal), which: usize) -> Value {
    match which {
        0 => Value::Null,
        1 => Value::Int(0),
        2 => Value::Int(9_223_372_036_854_775_807),
        3 => Value::Int(-9_223_372_036_854_775_807 - 1),
        4 => sum(rt, -1),
        _ => sum(rt, 9_223_372_036_854_775_807_000_000),
    }
}

#[test]
fn numbers_are_shown_in_decimal(rt: HostRuntime) {
    for (which, wanted) in NUMBERS.iter().enumerate() {
        assert_eq!(rt;
            print_value(rt.alloc(), &number(&rt, which))
                .expect(&rt, "memory")
                .as_str(),
            *wanted
        );
    }
}
