ghost use Rattle.std.specs.Prelude.{◌≡◌, [], ◌++◌, IfOk, OnOk};

use own_base::Text;
use std::alloc::{AllocError, Global};
use std::marker::Model;

/// A line that is being written, which contracts see as its bytes so far.
#[derive(Drop)]
pub struct Line {
    text: String,
}

impl Model for Line {
    ghost use Rattle.std.specs.Prelude.{List, ℕ, string_bytes};

    ghost Value = { List ℕ };

    ghost view = { λ line. string_bytes line.text };
}

impl Line {
    /// The empty line. It takes no memory until the first byte.
    pub fn new(alloc: Global) -> Line
        ensures { result ≡ [] }
    {
        Line {
            text: String::new(alloc),
        }
    }

    /// Writes this at the end.
    pub fn push(&mut self, piece: &str) -> Result<(), AllocError>
        ensures { OnOk result (self.new ≡ self.old ++ piece.now) }
    {
        self.text.push_str(piece)
    }

    /// The text that was written.
    pub fn into_text(self) -> Result<Text, AllocError>
        ensures { IfOk result (λ text. text ≡ self) }
    {
        Text::from_string(self.text)
    }
}
