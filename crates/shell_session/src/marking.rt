use crate::notes::Notes;
use own_model::{Refusal, Reply};
use std::alloc::{AllocError, Global};

/// What prompts somebody at the beginning of a call, and inside one.
const PROMPT: &[u8] = b"subjectdb> ";

const PROMPT_INSIDE: &[u8] = b"     ...> ";

/// What somebody at a terminal is greeted with.
const GREETING: &[u8] = b"Each call ends with a semicolon: SELECT * FROM users;\n\
Help: docs/language.md, docs/refusals.md. To leave: Ctrl-D at a prompt.\n";

/// Greets somebody at a terminal.
pub(crate) fn greet<N: Notes>(notes: &mut N) {
    notes.note(GREETING);
}

/// Prompts for the next line.
pub(crate) fn prompt<N: Notes>(notes: &mut N, is_inside: bool) {
    notes.note(if is_inside { PROMPT_INSIDE } else { PROMPT });
}

/// What stands below a byte before the mark: a tab stays one, what continues a character takes no place.
fn add_below(line: &mut Vec<u8>, before: &[u8]) -> Result<(), AllocError> {
    for byte in before {
        if *byte == b'\t' {
            line.push(b'\t')?;
        } else if *byte < 128 || *byte >= 192 {
            line.push(b' ')?;
        }
    }
    Ok(())
}

/// The part of a text up to its last line feed, and what follows.
fn last_line(text: &[u8]) -> &[u8] {
    match text.iter().rposition(|byte| *byte == b'\n') {
        Some(at) => match text.get(at + 1..) {
            Some(rest) => rest,
            None => &[],
        },
        None => text,
    }
}

/// A text up to its first line feed.
fn first_line(text: &[u8]) -> &[u8] {
    match text.iter().position(|byte| *byte == b'\n') {
        Some(at) => &text[..at],
        None => text,
    }
}

/// The line of a text that has a byte, and below it a mark under that byte.
fn marked(alloc: Global, text: &[u8], byte: usize) -> Result<Vec<u8>, AllocError> {
    let (before, after) = text.split_at(byte.min(text.len()));
    let before = last_line(before);
    let mut lines = Vec::new(alloc);
    lines.extend_from_slice(b"  ")?;
    lines.extend_from_slice(before)?;
    lines.extend_from_slice(first_line(after))?;
    lines.extend_from_slice(b"\n  ")?;
    add_below(&mut lines, before)?;
    lines.extend_from_slice(b"^\n")?;
    Ok(lines)
}

/// Shows somebody at a terminal where a text stops being a statement, where the reply tells that. Without memory for it
/// nothing is shown.
pub(crate) fn mark<N: Notes>(alloc: Global, text: &[u8], reply: &Reply, notes: &mut N) {
    if let Reply::Refused(Refusal::Syntax(byte)) = reply {
        if let Ok(lines) = marked(alloc, text, *byte as usize) {
            notes.note(&lines);
        }
    }
}
