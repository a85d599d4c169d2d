//! Calls of `read_statement` on texts whose answers were worked out by hand from the grammar.

ghost use Rattle.std.specs.Prelude.{◌<◌, ◌^◌, length};

use own_model::LimitName;
use sql_reader::{ReadFault, read_statement};
use std::alloc::Global;
use std::mem::drop;
use std::process::Abort;

/// What reading gives: a statement, a fault at a byte, or a limit.
#[derive(Clone, Copy, Debug, PartialEq, Eq)]
pub enum Answer {
    Read,
    At(u32),
    Over(LimitName),
    Memory,
}

pub fn answer_of(alloc: Global, text: &str) -> Answer
    requires { length text.now < 2 ^ 32 }
{
    match read_statement(alloc, text) {
        Ok(statement) => {
            drop(statement);
            Answer::Read
        }
        Err(ReadFault::Syntax(at)) => Answer::At(at),
        Err(ReadFault::Limit(limit)) => Answer::Over(limit),
        Err(ReadFault::Memory) => Answer::Memory,
    }
}

/// Adds what stands behind a `{` in a row: a text so many times, and what comes after its `}`.
fn spell_out(rt: &impl Abort, text: &mut String, piece: &str) {
    let (repeated, after) = piece.split_once('}').expect(rt, "a }");
    let (times, part) = repeated.split_once(' ').expect(rt, "a space");
    for _ in 0..times.parse::<u32>().expect(rt, "a number") {
        text.push_str(part).expect(rt, "memory");
    }
    text.push_str(after).expect(rt, "memory");
}

/// The text of a row, where `{64 a}` represents 64 times `a`.
pub fn spelled_out(rt: &(impl Abort + AllocGlobal), row: &str) -> String {
    let mut text = String::new(rt.alloc());
    for (at, piece) in row.split('{').enumerate() {
        if at == 0 {
            text.push_str(piece).expect(rt, "memory");
        } else {
            spell_out(rt, &mut text, piece);
        }
    }
    text
}

/// Each row is a text, with a `^` where the fault stands. A row without `^` is read.
pub fn check_rows(rt: &(impl Abort + AllocGlobal), rows: &[&str]) {
    for row in rows {
        let (before, after) = row.split_once('^').unwrap_or((*row, ""));
        let mut text = spelled_out(rt, before);
        let wanted = if row.contains('^') {
            Answer::At(u32::try_from(text.len()).expect(rt, "a place"))
        } else {
            Answer::Read
        };
        text.push_str(spelled_out(rt, after).as_str())
            .expect(rt, "memory");
        assert!(rt; text.len() < 100000);
        assert_eq!(rt; answer_of(rt.alloc(), text.as_str()), wanted, "{row}");
    }
}

/// Each row is a text that meets the limit.
pub fn check_limit(rt: &(impl Abort + AllocGlobal), rows: &[&str], limit: LimitName) {
    for row in rows {
        let text = spelled_out(rt, row);
        assert!(rt; text.len() < 100000);
        let answer = answer_of(rt.alloc(), text.as_str());
        assert_eq!(rt; answer, Answer::Over(limit), "{row}");
    }
}
