ghost use Rattle.std.specs.Prelude.{◌≡◌, ◌++◌, IfOk, OnOk};
ghost use Rattle.text_model.specs.Shown.{shown_cell, shown_key, shown_value};

use crate::quoted::push_shown;
use crate::text_buffer::TextBuffer;
use own_base::{Key, Text, Value};
use own_model::Cell;
use std::alloc::{AllocError, Global};

/// Writes a value as a reply shows it.
#[tactic(auto, unfolding(text_model::specs::Shown::shown_value))]
pub fn push_value(buffer: &mut TextBuffer, value: &Value) -> Result<(), AllocError>
    ensures { OnOk result (buffer.new ≡ buffer.old ++ shown_value value.now) }
{
    match value {
        Value::Null => buffer.push("NULL"),
        Value::Int(number) => buffer.push_signed(*number),
        Value::Text(text) => push_shown(buffer, text.as_str()),
        Value::Sum(sum) => buffer.push_sum(sum.get()),
    }
}

/// Writes a key as a reply shows it.
#[tactic(auto, unfolding(text_model::specs::Shown::shown_key))]
pub fn push_key(buffer: &mut TextBuffer, key: &Key) -> Result<(), AllocError>
    ensures { OnOk result (buffer.new ≡ buffer.old ++ shown_key key.now) }
{
    match key {
        Key::Int(number) => buffer.push_signed(*number),
        Key::Text(text) => push_shown(buffer, text.as_str()),
    }
}

/// Writes a value that GDPR GET shows, or the word for one that it hides.
#[tactic(auto, unfolding(text_model::specs::Shown::shown_cell))]
pub fn push_cell(buffer: &mut TextBuffer, cell: &Cell) -> Result<(), AllocError>
    ensures { OnOk result (buffer.new ≡ buffer.old ++ shown_cell cell.now) }
{
    match cell {
        Cell::Shown(value) => push_value(buffer, value),
        Cell::Hidden => buffer.push("HIDDEN"),
    }
}

/// A value as a reply shows it, on one line: `NULL`, a number, or a text in quotes.
pub fn print_value(alloc: Global, value: &Value) -> Result<Text, AllocError>
    ensures { IfOk result (λ text. text ≡ shown_value value.now) }
{
    let mut buffer = TextBuffer::new(alloc);
    push_value(&mut buffer, value)?;
    Ok(buffer.into_text()?)
}
