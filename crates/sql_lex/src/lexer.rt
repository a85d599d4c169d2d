ghost use Rattle.std.specs.Prelude.{◌≡◌, ◌+◌, ◌-◌, ◌<◌, ◌≤◌, ◌^◌, length, slice_index, slice_range, Option, Result, OnErr, IfOk, MatchOption};
ghost use Rattle.sql_lex.specs.Lexing.{IsNextAnswer, SameAnswer};

use crate::filler::skip;
use crate::scan::scan;
use crate::token::{SyntaxAt, Token};
use std::marker::Model;

/// A text that is cut into tokens, from its front on. Contracts see the text, and the byte up to which it is cut.
#[derive(Debug, Drop)]
pub struct Lexer<'a> {
    text: &'a str,
    at: usize,
}

impl<'a> Model for Lexer<'a> {
    ghost use Rattle.std.specs.Prelude.{◌≤◌, ◌<◌, ◌^◌, length};
    ghost use Rattle.sql_lex.specs.Lexing.{Lexing};

    ghost Value = { Lexing };

    ghost view = { λ lexer. record { text = lexer.text.now; at = lexer.at } };

    ghost invariant = { λ lexer. (lexer.at ≤ length lexer.text.now) × (length lexer.text.now < 2 ^ 32) };
}

/// The slice between two bytes, of which the first and the last are ASCII.
fn slice(text: &str, start: usize, end: usize) -> &str
    requires order { start < end }
    requires within { end ≤ length text.now }
    requires first { slice_index text.now start < 128 }
    requires last { slice_index text.now (end - 1) < 128 }
    ensures { result.now ≡ slice_range text.now start end }
{
    &text[start..end]
}

/// The token that comes next from the byte `at` on.
fn token_at(text: &str, at: usize) -> Result<Option<Token<'_>>, SyntaxAt>
    requires within { at ≤ length text.now }
    requires short { length text.now < 2 ^ 32 }
    ensures { IsNextAnswer (record { text = text.now; at = at }) result }
{
    let bytes = text.as_bytes();
    let start = at + skip(&bytes[at..]);
    if start == bytes.len() {
        return Ok(None);
    }
    match scan(&bytes[start..]) {
        Some((kind, len)) => Ok(Some(Token {
            kind,
            text: slice(text, start, start + len),
            start: start as u32,
            end: (start + len) as u32,
        })),
        None => Err(SyntaxAt(start as u32)),
    }
}

impl<'a> Lexer<'a> {
    /// At the front of the text. Takes no memory.
    pub fn new(text: &'a str) -> Lexer<'a>
        requires { length text.now < 2 ^ 32 }
        ensures { result ≡ record { text = text.now; at = 0 } }
    {
        Lexer { text, at: 0 }
    }

    /// The next token, after white space and comments, or `None` at the end. The error is the byte at which no
    /// token begins, or the quote of a text that isn't closed. Takes no memory.
    pub fn next(&mut self) -> Result<Option<Token<'a>>, SyntaxAt>
        ensures answer { IsNextAnswer self.old result }
        // No other answer would be right: each comes exactly where what it says holds.
        ensures only { (other : Result (Option Token) SyntaxAt) → IsNextAnswer self.old other → SameAnswer result other }
        // Only a token moves the lexer, which then stands where the token ends.
        ensures moved { IfOk result (λ found. MatchOption found (self.new ≡ self.old) (λ token. self.new ≡ record self.old { at = token.end })) }
        ensures unchanged { OnErr result (self.new ≡ self.old) }
    {
        let answer = token_at(self.text, self.at);
        if let Ok(Some(token)) = &answer {
            self.at = token.end as usize;
        }
        answer
    }
}
