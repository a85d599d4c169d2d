ghost use Rattle.std.specs.Prelude.{◌≡◌};
ghost use Rattle.own_base.specs.Key.{key_cmp};
ghost use Rattle.own_base.specs.Row.{value_size};

use crate::make_copy::MakeCopy;
use crate::sum::Sum;
use crate::text::Text;
use std::alloc::{AllocError, Global};
use std::cmp::Ordering;

/// A value of a row. `Sum` stands in the rows of views and replies alone.
#[derive(Debug, Drop, PartialEq, Eq)]
pub enum Value {
    Null,
    Int(i64),
    Text(Text),
    Sum(Sum),
}

/// What a value takes in its row, in bytes: a text's bytes and a sum's number lie beside it.
const _: () = prove!(size_of::<Value>() == 16);

/// A value of a primary key. Numbers are ordered by value, texts by bytes.
#[derive(Debug, Drop, PartialEq, Eq, PartialOrd, Ord)]
pub enum Key {
    Int(i64),
    Text(Text),
}

/// The size of a value that is no text, in the unit of the weight limit.
pub const VALUE_SIZE: u64 = 32;

impl Value {
    /// The size, in the unit of the weight limit: `VALUE_SIZE`, and a text's bytes besides. Takes no memory.
    pub fn size(&self) -> u64
        ensures { result ≡ value_size self.now }
    {
        match self {
            Value::Text(text) => VALUE_SIZE + text.bytes().len() as u64,
            Value::Null | Value::Int(_) | Value::Sum(_) => VALUE_SIZE,
        }
    }
}

impl Key {
    /// How this key stands to another: numbers by value and before texts, texts by bytes. Takes no memory.
    pub fn compare(&self, other: &Key) -> Ordering
        ensures { result ≡ key_cmp self.now other.now }
    {
        self.cmp(other)
    }
}

impl Default for Key {
    /// The number 0: what stands in a place kept for a key before there is one.
    fn default() -> Key {
        Key::Int(0)
    }
}

impl MakeCopy for Value {
    fn copy(&self, alloc: Global) -> Result<Value, AllocError> {
        match self {
            Value::Null => Ok(Value::Null),
            Value::Int(number) => Ok(Value::Int(*number)),
            Value::Text(text) => Ok(Value::Text(text.copy(alloc)?)),
            Value::Sum(sum) => Ok(Value::Sum(sum.copy(alloc)?)),
        }
    }
}

impl MakeCopy for Key {
    fn copy(&self, alloc: Global) -> Result<Key, AllocError> {
        match self {
            Key::Int(number) => Ok(Key::Int(*number)),
            Key::Text(text) => Ok(Key::Text(text.copy(alloc)?)),
        }
    }
}
