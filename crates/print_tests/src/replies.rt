//! Replies, and their lines.

use own_base::{List, Name, Place, Row, SessionNo, Sum, Text, Value};
use own_model::{Cell, GotRow, Reply};
use sql_print::print_reply;
use std::alloc::{AllocError, Global};
use std::mem::drop;

/// NULL, -5 and a text.
fn values(alloc: Global) -> Result<Vec<Value>, AllocError> {
    let text = Text::from_str(alloc, "a|b")?;
    let values = vec![in alloc; Value::Null, Value::Int(-5), Value::Text(text)]?;
    Ok(values)
}

/// A row of those values, and one of a sum.
fn rows(alloc: Global) -> Result<Reply, AllocError> {
    let first = Row::from_values(List::from_vec(values(alloc)?));
    let sum = Sum::new(alloc, -170_141_183_460_469_231_731)?;
    let sums = vec![in alloc; Value::Sum(sum)]?;
    let rows = vec![in alloc; first, Row::from_values(List::from_vec(sums))]?;
    Ok(Reply::Rows(List::from_vec(rows)))
}

/// A row of 1 and a hidden value.
fn got(alloc: Global) -> Result<Reply, AllocError> {
    let table = Name::from_str(alloc, "acc")?;
    let cells = vec![in alloc; Cell::Shown(Value::Int(1)), Cell::Hidden]?;
    let row = GotRow {
        table,
        cells: List::from_vec(cells),
    };
    let rows = vec![in alloc; row]?;
    Ok(Reply::Got(List::from_vec(rows)))
}

/// Two lines.
fn graph(alloc: Global) -> Result<Reply, AllocError> {
    let first = Text::from_str(alloc, "a -> b")?;
    let second = Text::from_str(alloc, "")?;
    let lines = vec![in alloc; first, second]?;
    Ok(Reply::Graph(List::from_vec(lines)))
}

/// The lines of each reply, at place 70, to call 3 of session 2.
const LINES: [&str; 7] = [
    "70 2.3 ok\n",
    "70 2.3 ok 0\n",
    "70 2.3 end\n",
    "70 2.3 forgot 12 removed 4294967295 changed\n",
    "70 2.3 rows 2\n  NULL|-5|'a|b'\n  -170141183460469231731\n",
    "70 2.3 got 1\n  acc|1|HIDDEN\n",
    "70 2.3 graph 2\n  a -> b\n  \n",
];

fn reply(alloc: Global, which: usize) -> Result<Reply, AllocError> {
    match which {
        0 => Ok(Reply::Done),
        1 => Ok(Reply::Counted(0)),
        2 => Ok(Reply::Ended),
        3 => Ok(Reply::Forgot {
            removed: 12,
            changed: 4_294_967_295,
        }),
        4 => rows(alloc),
        5 => got(alloc),
        _ => graph(alloc),
    }
}

fn lines(alloc: Global, which: usize) -> Result<Text, AllocError> {
    let reply = reply(alloc, which)?;
    let lines = print_reply(alloc, Some(Place(70)), SessionNo(2), 3, &reply);
    drop(reply);
    lines
}

#[test]
fn replies_have_their_lines(rt: HostRuntime) {
    for (which, wanted) in LINES.iter().enumerate() {
        assert_eq!(rt;
            lines(rt.alloc(), which).expect(&rt, "memory").as_str(),
            *wanted
        );
    }
}
