ghost use Rattle.disk_fields.specs.Reading.{Gives, key_from};

use crate::field::Field;
use crate::number::{read_i64, write_u64};
use crate::text::{read_text, write_text};
use crate::unread::Unread;
use own_base::{Key, Value};
use own_model::TEXT_BYTES;
use std::alloc::{AllocError, Global};

impl Field for Value {
    ghost use Rattle.disk_model.specs.Bounds.{IsTypedValue, IsShortValue};
    ghost use Rattle.disk_model.specs.Spelling.{value_spelling};
    ghost use Rattle.disk_fields.specs.Reading.{value_at};

    ghost reading = { value_at };

    ghost spelling = { value_spelling };

    ghost is_bounded = { IsShortValue };

    ghost is_typed = { IsTypedValue };

    #[tactic(auto, unfolding(crate::specs::Reading::value_at))]
    fn read(alloc: Global, bytes: &[u8]) -> Result<(Value, &[u8]), Unread> {
        match bytes {
            [] => Err(Unread::Malformed),
            [0, rest @ ..] => Ok((Value::Null, rest)),
            [1, rest @ ..] => {
                let (number, rest) = read_i64(rest)?;
                Ok((Value::Int(number), rest))
            }
            [2, rest @ ..] => {
                let (text, rest) = read_text(alloc, TEXT_BYTES as u32, rest)?;
                Ok((Value::Text(text), rest))
            }
            [_, ..] => Err(Unread::Malformed),
        }
    }

    fn byte_count(&self) -> u64 {
        match self {
            Value::Null => 1,
            Value::Int(_) => 9,
            Value::Text(text) => 5 + text.bytes().len() as u64,
            Value::Sum(_) => 0,
        }
    }

    fn write(&self, out: &mut Vec<u8>) -> Result<(), AllocError> {
        match self {
            Value::Null => {
                out.push(0)?;
                Ok(())
            }
            Value::Int(number) => {
                out.push(1)?;
                write_u64(number.cast_unsigned(), out)
            }
            Value::Text(text) => {
                out.push(2)?;
                write_text(text, out)
            }
            Value::Sum(_) => unreachable!(),
        }
    }
}

/// Reads a value that may be a key.
fn into_key(value: Value) -> Result<Key, Unread>
    ensures { Gives (λ key. key) result (key_from value) }
{
    match value {
        Value::Int(number) => Ok(Key::Int(number)),
        Value::Text(text) => Ok(Key::Text(text)),
        Value::Null | Value::Sum(_) => Err(Unread::Malformed),
    }
}

impl Field for Key {
    ghost use Rattle.disk_model.specs.Bounds.{IsTypedValue, IsShortValue};
    ghost use Rattle.disk_model.specs.Spelling.{key_spelling};
    ghost use Rattle.disk_model.specs.Value.{as_value};
    ghost use Rattle.disk_fields.specs.Reading.{key_at};

    ghost reading = { key_at };

    ghost spelling = { key_spelling };

    ghost is_bounded = { λ key. IsShortValue (as_value key) };

    ghost is_typed = { λ key. IsTypedValue (as_value key) };

    #[tactic(auto, unfolding(crate::specs::Reading::key_at))]
    fn read(alloc: Global, bytes: &[u8]) -> Result<(Key, &[u8]), Unread> {
        let (value, rest) = Value::read(alloc, bytes)?;
        Ok((into_key(value)?, rest))
    }

    fn byte_count(&self) -> u64 {
        match self {
            Key::Int(_) => 9,
            Key::Text(text) => 5 + text.bytes().len() as u64,
        }
    }

    fn write(&self, out: &mut Vec<u8>) -> Result<(), AllocError> {
        match self {
            Key::Int(number) => {
                out.push(1)?;
                write_u64(number.cast_unsigned(), out)
            }
            Key::Text(text) => {
                out.push(2)?;
                write_text(text, out)
            }
        }
    }
}
