ghost use Rattle.std.specs.Prelude.{◌≡◌, ◌++◌, ◌∷◌, map, IfOk, OnOk};
ghost use Rattle.std.specs.List.{flat_map};
ghost use Rattle.std.specs.Option.{option_map};
ghost use Rattle.text_model.specs.Lines.{barred, got_line, line_below, lines_below, place_text, reply_lines, reply_text, row_line};
ghost use Rattle.text_model.specs.Shown.{shown_cell, shown_value};

use crate::refusal::push_refusal;
use crate::text_buffer::TextBuffer;
use crate::value::{push_cell, push_value};
use own_base::{Place, Row, SessionNo, Text, Value};
use own_model::{Cell, GotRow, Reply};
use std::alloc::{AllocError, Global};

/// The room for a reply's first line, in bytes.
const LINE_BYTES: usize = 48;

/// The room for a value of a reply's rows, in bytes.
const VALUE_BYTES: usize = 12;

/// Writes a place, or `-` for none.
fn push_place(buffer: &mut TextBuffer, place: Option<Place>) -> Result<(), AllocError>
    ensures { OnOk result (buffer.new ≡ buffer.old ++ place_text (option_map (λ place. place.0) place)) }
{
    match place {
        Some(place) => buffer.push_number(place.0),
        None => buffer.push("-"),
    }
}

/// Writes what the first line says after the place and the call.
#[tactic(auto, unfolding(text_model::specs::Lines::reply_text))]
fn push_reply(buffer: &mut TextBuffer, reply: &Reply) -> Result<(), AllocError>
    ensures { OnOk result (buffer.new ≡ buffer.old ++ reply_text reply.now) }
{
    match reply {
        Reply::Done => buffer.push("ok"),
        Reply::Counted(count) => {
            buffer.push("ok ")?;
            buffer.push_number(*count)
        }
        Reply::Rows(rows) => {
            buffer.push("rows ")?;
            buffer.push_number(rows.items().len() as u64)
        }
        Reply::Got(rows) => {
            buffer.push("got ")?;
            buffer.push_number(rows.items().len() as u64)
        }
        Reply::Forgot { removed, changed } => {
            buffer.push("forgot ")?;
            buffer.push_number(u64::from(*removed))?;
            buffer.push(" removed ")?;
            buffer.push_number(u64::from(*changed))?;
            buffer.push(" changed")
        }
        Reply::Graph(lines) => {
            buffer.push("graph ")?;
            buffer.push_number(lines.items().len() as u64)
        }
        Reply::Ended => buffer.push("end"),
        Reply::Refused(refusal) => push_refusal(buffer, refusal),
    }
}

/// Writes each value after a bar.
fn push_more_values(buffer: &mut TextBuffer, values: &[Value]) -> Result<(), AllocError>
    ensures { OnOk result (buffer.new ≡ buffer.old ++ flat_map (λ value. 124 ∷ shown_value value) values.now) }
{
    for value in values {
        buffer.push("|")?;
        push_value(buffer, value)?;
    }
    Ok(())
}

/// Writes each value, hidden or not, after a bar.
fn push_more_cells(buffer: &mut TextBuffer, cells: &[Cell]) -> Result<(), AllocError>
    ensures { OnOk result (buffer.new ≡ buffer.old ++ flat_map (λ cell. 124 ∷ shown_cell cell) cells.now) }
{
    for cell in cells {
        buffer.push("|")?;
        push_cell(buffer, cell)?;
    }
    Ok(())
}

/// Writes the values with a bar between.
fn push_values(buffer: &mut TextBuffer, values: &[Value]) -> Result<(), AllocError>
    ensures { OnOk result (buffer.new ≡ buffer.old ++ barred (map shown_value values.now)) }
{
    match values {
        [] => Ok(()),
        [first, rest @ ..] => {
            push_value(buffer, first)?;
            push_more_values(buffer, rest)?;
            Ok(())
        }
    }
}

/// Writes a row of a SELECT.
#[tactic(auto, unfolding(text_model::specs::Lines::row_line))]
fn push_row(buffer: &mut TextBuffer, row: &[Value]) -> Result<(), AllocError>
    ensures { OnOk result (buffer.new ≡ buffer.old ++ row_line row.now) }
{
    buffer.push("  ")?;
    push_values(buffer, row)?;
    buffer.push("\n")
}

/// Writes a row of a GDPR GET, after its table.
fn push_got(buffer: &mut TextBuffer, row: &GotRow) -> Result<(), AllocError>
    ensures { OnOk result (buffer.new ≡ buffer.old ++ got_line row.now) }
{
    buffer.push("  ")?;
    buffer.push(row.table.as_str())?;
    push_more_cells(buffer, row.cells.items())?;
    buffer.push("\n")?;
    Ok(())
}

/// Writes a line below the first.
fn push_line(buffer: &mut TextBuffer, line: &Text) -> Result<(), AllocError>
    ensures { OnOk result (buffer.new ≡ buffer.old ++ line_below line.now) }
{
    buffer.push("  ")?;
    buffer.push(line.as_str())?;
    buffer.push("\n")
}

fn push_rows(buffer: &mut TextBuffer, rows: &[Row]) -> Result<(), AllocError>
    ensures { OnOk result (buffer.new ≡ buffer.old ++ flat_map row_line rows.now) }
{
    for row in rows {
        push_row(buffer, row.values())?;
    }
    Ok(())
}

fn push_got_rows(buffer: &mut TextBuffer, rows: &[GotRow]) -> Result<(), AllocError>
    ensures { OnOk result (buffer.new ≡ buffer.old ++ flat_map got_line rows.now) }
{
    for row in rows {
        push_got(buffer, row)?;
    }
    Ok(())
}

fn push_lines(buffer: &mut TextBuffer, lines: &[Text]) -> Result<(), AllocError>
    ensures { OnOk result (buffer.new ≡ buffer.old ++ flat_map line_below lines.now) }
{
    for line in lines {
        push_line(buffer, line)?;
    }
    Ok(())
}

/// Writes the lines below the first.
#[tactic(auto, unfolding(text_model::specs::Lines::lines_below))]
fn push_lines_below(buffer: &mut TextBuffer, reply: &Reply) -> Result<(), AllocError>
    ensures { OnOk result (buffer.new ≡ buffer.old ++ lines_below reply.now) }
{
    match reply {
        Reply::Rows(rows) => push_rows(buffer, rows.items()),
        Reply::Got(rows) => push_got_rows(buffer, rows.items()),
        Reply::Graph(lines) => push_lines(buffer, lines.items()),
        Reply::Done | Reply::Counted(_) | Reply::Forgot { .. } | Reply::Ended | Reply::Refused(_) =>
            Ok(()),
    }
}

/// How many bytes the lines of a reply take, more or less: some 12 for each value of its rows.
fn bytes_of(reply: &Reply) -> usize {
    match reply {
        Reply::Rows(rows) => match rows.items() {
            [] => LINE_BYTES,
            [first, ..] => rows
                .items()
                .len()
                .saturating_mul(first.values().len())
                .saturating_mul(VALUE_BYTES)
                .saturating_add(LINE_BYTES),
        },
        _ => LINE_BYTES,
    }
}

/// The lines of a reply: `PLACE SESSION.CALL REPLY`, with `-` for no place, and a line for each row. Each line ends
/// with a line feed.
#[tactic(auto, unfolding(text_model::specs::Lines::reply_lines))]
pub fn print_reply(
    alloc: Global,
    place: Option<Place>,
    session: SessionNo,
    call: u32,
    reply: &Reply,
) -> Result<Text, AllocError>
    ensures { IfOk result (λ text. text ≡ reply_lines (option_map (λ place. place.0) place) session.0 call reply.now) }
{
    let mut buffer = TextBuffer::with_capacity(alloc, bytes_of(reply))?;
    push_place(&mut buffer, place)?;
    buffer.push(" ")?;
    buffer.push_number(u64::from(session.0))?;
    buffer.push(".")?;
    buffer.push_number(u64::from(call))?;
    buffer.push(" ")?;
    push_reply(&mut buffer, reply)?;
    buffer.push("\n")?;
    push_lines_below(&mut buffer, reply)?;
    Ok(buffer.into_text()?)
}
