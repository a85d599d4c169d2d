ghost use Rattle.std.specs.Prelude.{◌≡◌, ◌≢◌, ◌<◌, ◌≤◌, ◌^◌, ◌==◌, ◌∷◌, ◌++◌, ℕ, List, None, Some, length, map, slice_index, All, is_ok, IfOk, IfSome, IfNone, MatchOption, string_bytes, IsUtf8, false};
ghost use Rattle.std.specs.Char.{to_ascii_lowercase};
ghost use Rattle.std.specs.List.{list_all};
ghost use Rattle.own_base.specs.Name.{is_spelled, begins_name, continues_name};
ghost use Rattle.sql_lex.specs.Bytes.{first_passes};
ghost use Rattle.sql_lex.specs.Tokens.{quoted};
ghost use Rattle.grammar_model.specs.Limits.{no_limits, store_limits};
ghost use Rattle.sql_reader.specs.reading.Reader.{Judges};
ghost use Rattle.grammar_model.specs.Terminal.{terminal_of};
ghost use Rattle.sql_reader.specs.reading.Judges.{name_of, number_of, text_of, inside, unquoted, folded, ranged, short_text};
ghost use Rattle.grammar_model.specs.Values.{digits_after};

use crate::fault::RuleFault;
use own_base::{NAME_BYTES, Name, Text};
use own_model::{LimitName, TEXT_BYTES};
use sql_lex::{Token, TokenKind};
use std::alloc::{AllocError, Global};

const QUOTE: u8 = b'\'';

/// A lower-case letter or `_`.
fn begins_name(byte: u8) -> bool
    ensures { result ≡ begins_name byte }
{
    (b'a' <= byte && byte <= b'z') || byte == b'_'
}

/// A lower-case letter, a digit or `_`.
fn continues_name(byte: u8) -> bool
    ensures { result ≡ continues_name byte }
{
    begins_name(byte) || (b'0' <= byte && byte <= b'9')
}

/// Whether each byte may stand in a name.
fn all_continue(bytes: &[u8]) -> bool
    ensures { result ≡ list_all continues_name bytes.now }
{
    bytes.iter().all(|byte| continues_name(*byte))
}

/// Whether a schema may spell a name so, whatever its length.
fn is_spelled(name: &[u8]) -> bool
    ensures { result ≡ is_spelled name.now }
{
    !name.is_empty() && begins_name(name[0]) && all_continue(&name[1..])
}

/// Whether each byte, in lower case, may stand in a name.
fn all_continue_lowered(bytes: &[u8]) -> bool
    ensures { result ≡ list_all (λ byte. continues_name (to_ascii_lowercase byte)) bytes.now }
{
    bytes
        .iter()
        .all(|byte| continues_name(byte.to_ascii_lowercase()))
}

/// Whether a schema may spell a name so once it is in lower case, whatever its length.
fn is_spelled_lowered(name: &[u8]) -> bool
    ensures { result ≡ is_spelled (map to_ascii_lowercase name.now) }
{
    if name.is_empty() {
        return false;
    }
    begins_name(name[0].to_ascii_lowercase()) && all_continue_lowered(&name[1..])
}

/// Whether the token is a name, whatever its length. Takes no memory.
pub fn can_be_name(token: &Token) -> bool
    ensures { result ≡ is_ok (name_of no_limits (terminal_of token.now)) }
{
    match token.kind {
        TokenKind::Name => is_spelled_lowered(token.text.as_bytes()),
        _ => false,
    }
}

/// A name in lower case.
fn folded(name: String) -> Result<Name, RuleFault>
    ensures { Judges (folded store_limits (string_bytes name)) result }
{
    if !is_spelled(name.as_bytes()) {
        return Err(RuleFault::Syntax);
    }
    if name.len() > NAME_BYTES {
        return Err(RuleFault::Limit(LimitName::Name));
    }
    let name = Name::from_string(name)?;
    Ok(name)
}

/// The name that a token is.
pub fn name_of(alloc: Global, token: &Token) -> Result<Name, RuleFault>
    ensures { Judges (name_of store_limits (terminal_of token.now)) result }
{
    match token.kind {
        TokenKind::Name => {
            let lower = token.text.to_ascii_lowercase(alloc)?;
            folded(lower)
        }
        _ => Err(RuleFault::Syntax),
    }
}

/// The number that the digits write, where it is at most 2^63.
fn magnitude(digits: &[u8]) -> Option<u128>
    ensures { MatchOption result (2 ^ 63 < digits_after 0 digits.now)
        (λ number. (number ≡ digits_after 0 digits.now) × (number ≤ 2 ^ 63)) }
{
    let mut number: u128 = 0;
    for digit in digits {
        number = 10 * number + u128::from(digit.saturating_sub(b'0'));
        if number > 1 << 63 {
            return None;
        }
    }
    Some(number)
}

/// The number with its sign, where i64 has it.
fn ranged(negative: bool, digits: &[u8]) -> Result<i64, RuleFault>
    ensures { Judges (ranged negative (digits_after 0 digits.now)) result }
{
    match magnitude(digits) {
        Some(number) if negative => Ok(-(number as i128) as i64),
        Some(number) if number < 1 << 63 => Ok(number as i64),
        _ => Err(RuleFault::Syntax),
    }
}

/// The number that a token is.
pub fn number_of(negative: bool, token: &Token) -> Result<i64, RuleFault>
    ensures { Judges (number_of negative (terminal_of token.now)) result }
{
    match token.kind {
        TokenKind::Number => ranged(negative, token.text.as_bytes()),
        _ => Err(RuleFault::Syntax),
    }
}

/// Where the first quote is, if there is one.
fn quote_at(bytes: &[u8]) -> Option<usize>
    ensures found { IfSome result (λ at. (at < length bytes.now) × (slice_index bytes.now at ≡ 39)) }
    ensures before { IfSome result (λ at. (k : ℕ) → k < at → slice_index bytes.now k ≢ 39) }
    ensures none { IfNone result (All (λ byte. byte ≢ 39) bytes.now) }
{
    bytes.iter().position(|byte| *byte == QUOTE)
}

/// What comes before and after the first quote, if there is one.
fn split_at_quote(text: &str) -> Option<(&str, &str)>
    ensures found { IfSome result (λ parts. (text.now ≡ parts.0.now ++ 39 ∷ parts.1.now) × All (λ byte. byte ≢ 39) parts.0.now) }
    ensures texts { IfSome result (λ parts. IsUtf8 parts.0.now × IsUtf8 parts.1.now) }
    ensures none { IfNone result (All (λ byte. byte ≢ 39) text.now) }
{
    match quote_at(text.as_bytes()) {
        Some(at) => Some((&text[..at], &text[at + 1..])),
        None => None,
    }
}

/// What comes after a quote at the front.
fn after_quote(text: &str) -> Option<&str>
    ensures found { IfSome result (λ after. text.now ≡ 39 ∷ after.now) }
    ensures texts { IfSome result (λ after. IsUtf8 after.now) }
    ensures none { IfNone result (first_passes (λ byte. byte == 39) text.now ≡ false) }
{
    let bytes = text.as_bytes();
    if bytes.is_empty() || bytes[0] != QUOTE {
        return None;
    }
    Some(&text[1..])
}

/// The value of a text in quotes, of which the bytes after the first quote are given: the last of them closes it.
fn closed(alloc: Global, text: &str) -> Result<Option<String>, AllocError>
    ensures { IfOk result (λ found. MatchOption found (inside false text.now ≡ None) (λ value. inside false text.now ≡ Some (string_bytes value))) }
{
    let mut value = String::new(alloc);
    let mut rest = text;
    while let Some((front, back)) = split_at_quote(rest) {
        value.push_str(front)?;
        let Some(after) = after_quote(back) else {
            if back.is_empty() {
                return Ok(Some(value));
            }
            return Ok(None);
        };
        value.push_str("'")?;
        rest = after;
    }
    Ok(None)
}

/// What stands between the quotes, where this is a text in quotes.
fn unquoted(alloc: Global, text: &str) -> Result<Option<String>, AllocError>
    ensures { IfOk result (λ found. MatchOption found ((value : List ℕ) → text.now ≡ quoted value → ⊥) (λ value. text.now ≡ quoted (string_bytes value))) }
{
    match after_quote(text) {
        Some(inside) => closed(alloc, inside),
        None => Ok(None),
    }
}

/// A text of at most `TEXT_BYTES` bytes.
fn short_text(value: String) -> Result<Text, RuleFault>
    ensures { Judges (short_text store_limits (Some (string_bytes value))) result }
{
    if value.len() > TEXT_BYTES {
        return Err(RuleFault::Limit(LimitName::Text));
    }
    Ok(Text::from_string(value)?)
}

/// The value of a text in quotes.
fn value_of(alloc: Global, text: &str) -> Result<Text, RuleFault>
    ensures { Judges (short_text store_limits (unquoted text.now)) result }
{
    match unquoted(alloc, text)? {
        Some(value) => short_text(value),
        None => Err(RuleFault::Syntax),
    }
}

/// The text that a token is.
pub fn text_of(alloc: Global, token: &Token) -> Result<Text, RuleFault>
    ensures { Judges (text_of store_limits (terminal_of token.now)) result }
{
    match token.kind {
        TokenKind::Quoted => value_of(alloc, token.text),
        _ => Err(RuleFault::Syntax),
    }
}
