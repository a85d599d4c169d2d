//! What a reply adds to a tally.

ghost use Rattle.std.specs.Prelude.{◌≡◌, [], ◌∷◌, count_by};
ghost use Rattle.made_model.specs.Summary.{changed_of, got_of, is_memory, is_refused, number_of, removed_of, rows_of, sum_of, third_number};

use own_base::{Row, Value};
use own_model::{Refusal, Reply};

/// The third column of a row.
const THIRD: usize = 2;

/// How many rows the reply shows a person.
pub(crate) fn got_of(reply: &Reply) -> usize
    ensures { result ≡ got_of reply.now }
{
    match reply {
        Reply::Got(rows) => rows.items().len(),
        Reply::Done
        | Reply::Counted(_)
        | Reply::Rows(_)
        | Reply::Forgot { .. }
        | Reply::Graph(_)
        | Reply::Ended
        | Reply::Refused(_) => 0,
    }
}

/// How many rows the reply tells were removed, and how many were changed.
pub(crate) fn forgot_of(reply: &Reply) -> (u32, u32)
    ensures removed { result.0 ≡ removed_of reply.now }
    ensures changed { result.1 ≡ changed_of reply.now }
{
    match reply {
        Reply::Forgot { removed, changed } => (*removed, *changed),
        Reply::Done
        | Reply::Counted(_)
        | Reply::Rows(_)
        | Reply::Got(_)
        | Reply::Graph(_)
        | Reply::Ended
        | Reply::Refused(_) => (0, 0),
    }
}

/// How often the reply refuses for another cause than memory, and how often for want of memory: once at most.
pub(crate) fn refused_of(reply: &Reply) -> (u8, u8)
    ensures refused { result.0 ≡ count_by is_refused (reply.now ∷ []) }
    ensures memory { result.1 ≡ count_by is_memory (reply.now ∷ []) }
{
    match reply {
        Reply::Refused(Refusal::Memory) => (0, 1),
        Reply::Refused(_) => (1, 0),
        Reply::Done
        | Reply::Counted(_)
        | Reply::Rows(_)
        | Reply::Got(_)
        | Reply::Forgot { .. }
        | Reply::Graph(_)
        | Reply::Ended => (0, 0),
    }
}

/// The rows of a SELECT.
pub(crate) fn rows_of(reply: &Reply) -> &[Row]
    ensures { result.now ≡ rows_of reply.now }
{
    match reply {
        Reply::Rows(rows) => rows.items(),
        Reply::Done
        | Reply::Counted(_)
        | Reply::Got(_)
        | Reply::Forgot { .. }
        | Reply::Graph(_)
        | Reply::Ended
        | Reply::Refused(_) => &[],
    }
}

/// A number as itself, and 0 for what is none.
fn number_of(value: &Value) -> i128
    ensures { result ≡ number_of value.now }
{
    match value {
        Value::Int(number) => i128::from(*number),
        Value::Sum(sum) => sum.get(),
        Value::Null | Value::Text(_) => 0,
    }
}

/// The third value of a row, where it is a number.
fn third_number(row: &[Value]) -> i128
    ensures { result ≡ third_number row.now }
{
    match row.get(THIRD) {
        Some(value) => number_of(value),
        None => 0,
    }
}

/// The sum of the third values.
pub(crate) fn sum_of(rows: &[Row]) -> i128
    ensures { result ≡ sum_of rows.now }
{
    let mut sum: i128 = 0;
    for row in rows {
        sum = sum.saturating_add(third_number(row.values()));
    }
    sum
}
