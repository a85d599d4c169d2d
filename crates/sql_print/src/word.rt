ghost use Rattle.std.specs.Prelude.{◌≡◌, ◌++◌, ◌∷◌, OnOk};
ghost use Rattle.std.specs.List.{flat_map};
ghost use Rattle.text_model.specs.Words.{Words, bracketed, column_words, key_word, listed, literal_word, literal_words, word};
ghost use Rattle.sql_print.specs.Spaces.{after_spaces};

use crate::quoted::push_quoted;
use crate::text_buffer::TextBuffer;
use own_base::{Key, Name, Value};
use own_model::ColRef;
use std::alloc::AllocError;

/// A part of a statement, which is written as words.
pub trait Worded {
    ghost words: { Self → Words };

    /// Writes the words, each after a space.
    fn push_words(&self, buffer: &mut TextBuffer) -> Result<(), AllocError>
        ensures { OnOk result (buffer.new ≡ buffer.old ++ after_spaces (words self.now)) };
}

impl Worded for Name {
    ghost words = { λ name. word name };

    fn push_words(&self, buffer: &mut TextBuffer) -> Result<(), AllocError> {
        buffer.push(" ")?;
        buffer.push(self.as_str())?;
        Ok(())
    }
}

/// Writes a literal, without a space before it.
#[tactic(auto, unfolding(text_model::specs::Words::literal_word))]
fn push_literal(buffer: &mut TextBuffer, value: &Value) -> Result<(), AllocError>
    ensures { OnOk result (buffer.new ≡ buffer.old ++ literal_word value.now) }
{
    match value {
        Value::Null => buffer.push("NULL"),
        Value::Int(number) => buffer.push_signed(*number),
        Value::Text(text) => push_quoted(buffer, text.as_str()),
        Value::Sum(sum) => buffer.push_sum(sum.get()),
    }
}

impl Worded for Value {
    ghost words = { literal_words };

    fn push_words(&self, buffer: &mut TextBuffer) -> Result<(), AllocError> {
        buffer.push(" ")?;
        push_literal(buffer, self)?;
        Ok(())
    }
}

/// Writes the key of a data subject, without a space before it.
#[tactic(auto, unfolding(text_model::specs::Words::key_word))]
fn push_key(buffer: &mut TextBuffer, key: &Key) -> Result<(), AllocError>
    ensures { OnOk result (buffer.new ≡ buffer.old ++ key_word key.now) }
{
    match key {
        Key::Int(number) => buffer.push_signed(*number),
        Key::Text(text) => push_quoted(buffer, text.as_str()),
    }
}

impl Worded for Key {
    ghost words = { λ key. word (key_word key) };

    fn push_words(&self, buffer: &mut TextBuffer) -> Result<(), AllocError> {
        buffer.push(" ")?;
        push_key(buffer, self)?;
        Ok(())
    }
}

impl Worded for ColRef {
    ghost words = { column_words };

    #[tactic(auto, unfolding(text_model::specs::Words::column_words))]
    fn push_words(&self, buffer: &mut TextBuffer) -> Result<(), AllocError> {
        match &self.table {
            Some(table) => {
                table.push_words(buffer)?;
                buffer.push(" .")?;
                self.column.push_words(buffer)?;
                Ok(())
            }
            None => self.column.push_words(buffer),
        }
    }
}

/// Writes the parts one after another.
pub fn push_all<T: Worded>(buffer: &mut TextBuffer, parts: &[T]) -> Result<(), AllocError>
    ensures { OnOk result (buffer.new ≡ buffer.old ++ after_spaces (flat_map T.words parts.now)) }
{
    for part in parts {
        part.push_words(buffer)?;
    }
    Ok(())
}

/// Writes each part after a comma.
fn push_others<T: Worded>(buffer: &mut TextBuffer, parts: &[T]) -> Result<(), AllocError>
    ensures { OnOk result (buffer.new ≡ buffer.old ++ flat_map (λ part. 32 ∷ 44 ∷ after_spaces (T.words part)) parts.now) }
{
    for part in parts {
        buffer.push(" ,")?;
        part.push_words(buffer)?;
    }
    Ok(())
}

/// Writes the parts with a comma between.
pub fn push_listed<T: Worded>(buffer: &mut TextBuffer, parts: &[T]) -> Result<(), AllocError>
    ensures { OnOk result (buffer.new ≡ buffer.old ++ after_spaces (listed T.words parts.now)) }
{
    match parts {
        [] => Ok(()),
        [first, rest @ ..] => {
            first.push_words(buffer)?;
            push_others(buffer, rest)?;
            Ok(())
        }
    }
}

/// Writes the parts in brackets, with a comma between.
pub fn push_bracketed<T: Worded>(buffer: &mut TextBuffer, parts: &[T]) -> Result<(), AllocError>
    ensures { OnOk result (buffer.new ≡ buffer.old ++ after_spaces (bracketed (listed T.words parts.now))) }
{
    buffer.push(" (")?;
    push_listed(buffer, parts)?;
    buffer.push(" )")?;
    Ok(())
}
