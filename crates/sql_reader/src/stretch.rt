//! What stands between two semicolons or session lines of an input: at most one call.

ghost use Rattle.std.specs.Prelude.{◌≡◌, ◌<◌, ◌≤◌, ◌+◌, ◌^◌, ℕ, length, drop};
ghost use Rattle.std.specs.Str.{IsCharBoundary};
ghost use Rattle.script_model.specs.Piece.{bytes_of, SessionLine};
ghost use Rattle.sql_reader.specs.scripts.Fronts.{AtFront};
ghost use Rattle.sql_reader.specs.scripts.Stretches.{IsScan, IsStretch, IsLineEnding, is_closing};

use crate::piece::{Front, SESSION_BYTES, front_of};
use crate::session_line::session_of;

/// What a stretch meets.
#[derive(Clone, Copy, Debug, PartialEq, Eq)]
pub enum Ending {
    Semicolon,
    /// A session line that names this session.
    Session(u8),
    /// A session line at this byte that names no session.
    BadLine(usize),
    /// The end of the input.
    End,
}

impl Ending {
    /// A semicolon closes the text.
    pub fn closes(&self) -> bool
        ensures { result ≡ is_closing self.now }
    {
        matches!(self, Ending::Semicolon)
    }
}

/// Where the text of a stretch begins and ends, what the stretch meets, and the byte after that. Where the two places
/// are one, there is no text.
#[derive(Clone, Copy, Debug)]
pub struct Scanned {
    start: usize,
    end: usize,
    ending: Ending,
    next: usize,
}

/// The text of a stretch, the byte at which it begins, what the stretch meets, and the byte after that. An empty text
/// is no call.
#[derive(Clone, Copy, Debug)]
pub struct Stretch<'a> {
    pub text: &'a str,
    pub start: usize,
    pub ending: Ending,
    pub next: usize,
}

/// What the session line of that many bytes at a place means.
fn line_ending(bytes: &[u8], at: usize, len: usize) -> Ending
    requires within { at + len ≤ length bytes.now }
    requires long { SESSION_BYTES ≤ len }
    ensures { IsLineEnding bytes.now at len result }
{
    match session_of(&bytes[at + SESSION_BYTES..at + len]) {
        Some(session) => Ending::Session(session),
        None => Ending::BadLine(at),
    }
}

/// Goes over the stretch that begins at a byte.
fn scan(text: &str, from: usize) -> Scanned
    requires within { from ≤ length text.now }
    requires short { length text.now < 2 ^ 62 }
    requires boundary { IsCharBoundary text.now from }
    ensures { IsScan text.now from result }
{
    let bytes = text.as_bytes();
    let mut begins = from == 0;
    let mut start = from;
    let mut end = from;
    let mut at = from;
    while at < bytes.len() {
        match front_of(&bytes[at..], begins) {
            Front::Empty(len) => {
                at += len;
                begins = bytes[at - 1] == b'\n';
            }
            Front::Text { len, held } => {
                if start == end {
                    start = at;
                }
                end = at + held;
                begins = false;
                at += len;
            }
            Front::Semicolon => {
                let (ending, next) = (Ending::Semicolon, at + 1);
                return Scanned {
                    start,
                    end,
                    ending,
                    next,
                };
            }
            Front::SessionLine(len) => {
                let (ending, next) = (line_ending(bytes, at, len), at + len);
                return Scanned {
                    start,
                    end,
                    ending,
                    next,
                };
            }
        }
    }
    let (ending, next) = (Ending::End, at);
    Scanned {
        start,
        end,
        ending,
        next,
    }
}

/// The stretch that begins at a byte.
pub fn next_stretch(text: &str, from: usize) -> Stretch<'_>
    requires within { from ≤ length text.now }
    requires short { length text.now < 2 ^ 62 }
    requires boundary { IsCharBoundary text.now from }
    ensures { IsStretch text.now from result }
{
    let found = scan(text, from);
    Stretch {
        text: &text[found.start..found.end],
        start: found.start,
        ending: found.ending,
        next: found.next,
    }
}
