ghost use Rattle.std.specs.Prelude.{◌≡◌, ◌<◌, ℕ, List, length, take, true, slice_index, IsTrue, IfSome, IfNone};
ghost use Rattle.std.specs.List.{list_any};
ghost use Rattle.std.specs.Str.{bytes_eq};
ghost use Rattle.sql_lex.specs.Bytes as spec;
ghost use Rattle.sql_lex.specs.Tokens.{Begins, Scans, is_mark};

use crate::bytes::{begins_word, number_len, word_len};
use crate::keyword::is_keyword;
use crate::quoted::closed_len;
use crate::token::TokenKind;

const MARKS: [&[u8]; 14] = [
    b"(", b")", b",", b".", b"=", b"<>", b"!=", b"<", b"<=", b">", b">=", b"+", b"-", b"*",
];

/// Whether the bytes are one of these marks.
fn is_among(marks: &[&[u8]], bytes: &[u8]) -> bool
    ensures { result ≡ list_any (λ mark. bytes_eq mark.now bytes.now) marks.now }
{
    marks.iter().any(|mark| *mark == bytes)
}

/// Whether the bytes are a mark.
fn is_mark(bytes: &[u8]) -> bool
    ensures { result ≡ is_mark bytes.now }
{
    is_among(&MARKS, bytes)
}

/// The token at the front, which is a word: a name or a keyword.
fn scan_word(bytes: &[u8]) -> (TokenKind, usize)
    requires { spec.first_passes spec.begins_word bytes.now ≡ true }
    ensures { Scans bytes.now result.0 result.1 }
{
    let len = word_len(bytes);
    if is_keyword(&bytes[..len]) {
        (TokenKind::Keyword, len)
    } else {
        (TokenKind::Name, len)
    }
}

/// The length of the mark at the front, if one stands there.
fn mark_len(bytes: &[u8]) -> Option<usize>
    ensures found { IfSome result (λ len. Scans bytes.now TokenKind.Mark len) }
    ensures none { IfNone result ((token after : List ℕ) → Begins TokenKind.Mark bytes.now token after → ⊥) }
{
    if bytes.len() >= 2 && is_mark(&bytes[..2]) {
        Some(2)
    } else if bytes.len() >= 1 && is_mark(&bytes[..1]) {
        Some(1)
    } else {
        None
    }
}

/// The length of the text in quotes whose first quote is at the front, if it is closed.
fn quoted_len(bytes: &[u8]) -> Option<usize>
    requires some { 0 < length bytes.now }
    requires quote { slice_index bytes.now 0 ≡ 39 }
    ensures found { IfSome result (λ len. Scans bytes.now TokenKind.Quoted len) }
    ensures none { IfNone result ((token after : List ℕ) → Begins TokenKind.Quoted bytes.now token after → ⊥) }
{
    match closed_len(&bytes[1..]) {
        Some(len) => Some(1 + len),
        None => None,
    }
}

/// The kind and the length of the token at the front, if one stands there.
pub fn scan(bytes: &[u8]) -> Option<(TokenKind, usize)>
    requires { 0 < length bytes.now }
    ensures found { IfSome result (λ token. Scans bytes.now token.0 token.1) }
    ensures none { IfNone result ((kind : TokenKind) (token after : List ℕ) → Begins kind bytes.now token after → ⊥) }
{
    let first = bytes[0];
    if begins_word(first) {
        return Some(scan_word(bytes));
    }
    if first.is_ascii_digit() {
        return Some((TokenKind::Number, number_len(bytes)));
    }
    if first == b'\'' {
        return match quoted_len(bytes) {
            Some(len) => Some((TokenKind::Quoted, len)),
            None => None,
        };
    }
    match mark_len(bytes) {
        Some(len) => Some((TokenKind::Mark, len)),
        None => None,
    }
}
