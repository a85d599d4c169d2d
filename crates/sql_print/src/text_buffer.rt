ghost use Rattle.std.specs.Prelude.{◌≡◌, ◌<◌, [], ◌∷◌, ◌++◌, IfOk, OnOk};
ghost use Rattle.std.specs.Fmt.{decimal, signed_decimal};

use itoa::Buffer;
use own_base::Text;
use std::alloc::{AllocError, Global};
use std::marker::Model;

/// A text that is being written, which contracts see as its bytes so far.
#[derive(Drop)]
pub struct TextBuffer {
    text: String,
}

impl Model for TextBuffer {
    ghost use Rattle.std.specs.Prelude.{List, ℕ, string_bytes};

    ghost Value = { List ℕ };

    ghost view = { λ buffer. string_bytes buffer.text };
}

impl TextBuffer {
    /// The empty text. It takes no memory until the first byte.
    pub fn new(alloc: Global) -> TextBuffer
        ensures { result ≡ [] }
    {
        TextBuffer {
            text: String::new(alloc),
        }
    }

    /// The empty text, with room for so many bytes.
    pub fn with_capacity(alloc: Global, bytes: usize) -> Result<TextBuffer, AllocError>
        ensures { IfOk result (λ buffer. buffer ≡ []) }
    {
        let text = String::with_capacity(alloc, bytes)?;
        Ok(TextBuffer { text })
    }

    /// Writes this at the end.
    pub fn push(&mut self, piece: &str) -> Result<(), AllocError>
        ensures { OnOk result (self.new ≡ self.old ++ piece.now) }
    {
        self.text.push_str(piece)
    }

    /// Writes a character of ASCII.
    pub fn push_ascii(&mut self, byte: u8) -> Result<(), AllocError>
        requires { byte < 128 }
        ensures { OnOk result (self.new ≡ self.old ++ byte ∷ []) }
    {
        self.text.push(char::from(byte))
    }

    /// Writes a number in decimal.
    pub fn push_number(&mut self, number: u64) -> Result<(), AllocError>
        ensures { OnOk result (self.new ≡ self.old ++ decimal number) }
    {
        let mut digits = Buffer::new();
        self.text.push_str(digits.format(number))
    }

    /// Writes a number in decimal, after `-` where it is below 0.
    pub fn push_signed(&mut self, number: i64) -> Result<(), AllocError>
        ensures { OnOk result (self.new ≡ self.old ++ signed_decimal number) }
    {
        let mut digits = Buffer::new();
        self.text.push_str(digits.format(number))
    }

    /// Writes a sum in decimal, after `-` where it is below 0.
    pub fn push_sum(&mut self, sum: i128) -> Result<(), AllocError>
        ensures { OnOk result (self.new ≡ self.old ++ signed_decimal sum) }
    {
        let mut digits = Buffer::new();
        self.text.push_str(digits.format(sum))
    }

    /// The text that was written.
    pub fn into_text(self) -> Result<Text, AllocError>
        ensures { IfOk result (λ text. text ≡ self) }
    {
        Text::from_string(self.text)
    }
}
