ghost use Rattle.std.specs.Prelude.{◌≡◌, ◌≢◌, ◌<◌, ◌++◌, ◌∷◌, ℕ, length, slice_index, take, All, OnOk, IfSome, IfNone, IsUtf8, true, false};
ghost use Rattle.std.specs.List.{flat_map};
ghost use Rattle.sql_lex.specs.Tokens.{doubled, quoted};
ghost use Rattle.text_model.specs.Shown.{hex_digit as hex_digit_of, shown_byte, shown_text};
ghost use Rattle.sql_print.specs.Escapes.{is_escaped};

use crate::text_buffer::TextBuffer;
use std::alloc::AllocError;

/// Whether a reply shows another byte or more in place of this one.
fn is_escaped(byte: u8) -> bool
    ensures { result ≡ is_escaped byte }
{
    byte == b'\'' || byte < 32 || byte == 127 || byte == b'\\'
}

/// Where the first quote is, if there is one.
fn quote_at(bytes: &[u8]) -> Option<usize>
    ensures found { IfSome result (λ at. (at < length bytes.now) × (slice_index bytes.now at ≡ 39)) }
    ensures before { IfSome result (λ at. All (λ byte. byte ≢ 39) (take at bytes.now)) }
    ensures none { IfNone result (All (λ byte. byte ≢ 39) bytes.now) }
{
    bytes.iter().position(|byte| *byte == b'\'')
}

/// Where the first byte is that a reply escapes, if there is one.
fn escaped_at(bytes: &[u8]) -> Option<usize>
    ensures found { IfSome result (λ at. (at < length bytes.now) × (is_escaped (slice_index bytes.now at) ≡ true)) }
    ensures before { IfSome result (λ at. All (λ byte. is_escaped byte ≡ false) (take at bytes.now)) }
    ensures none { IfNone result (All (λ byte. is_escaped byte ≡ false) bytes.now) }
{
    bytes.iter().position(|byte| is_escaped(*byte))
}

/// What comes before and after the byte of ASCII at this place.
fn split_around(text: &str, at: usize) -> (&str, &str)
    requires within { at < length text.now }
    requires ascii { slice_index text.now at < 128 }
    ensures whole { text.now ≡ result.0.now ++ slice_index text.now at ∷ result.1.now }
    ensures front { result.0.now ≡ take at text.now }
    ensures texts { IsUtf8 result.0.now × IsUtf8 result.1.now }
    ensures shorter { length result.1.now < length text.now }
{
    (&text[..at], &text[at + 1..])
}

/// Writes a text with each quote in it doubled.
fn push_doubled(buffer: &mut TextBuffer, text: &str) -> Result<(), AllocError>
    ensures { OnOk result (buffer.new ≡ buffer.old ++ doubled text.now) }
{
    let mut rest = text;
    while let Some(at) = quote_at(rest.as_bytes()) {
        let (front, back) = split_around(rest, at);
        buffer.push(front)?;
        buffer.push("''")?;
        rest = back;
    }
    buffer.push(rest)
}

/// Writes a text as a statement has it, in quotes.
pub fn push_quoted(buffer: &mut TextBuffer, text: &str) -> Result<(), AllocError>
    ensures { OnOk result (buffer.new ≡ buffer.old ++ quoted text.now) }
{
    buffer.push("'")?;
    push_doubled(buffer, text)?;
    buffer.push("'")
}

fn hex_digit(digit: u8) -> u8
    requires { digit < 16 }
    ensures value { result ≡ hex_digit_of digit }
    ensures ascii { result < 128 }
{
    if digit < 10 {
        b'0' + digit
    } else {
        b'a' + (digit - 10)
    }
}

/// Writes what a reply shows in place of a byte that it escapes.
fn push_escape(buffer: &mut TextBuffer, byte: u8) -> Result<(), AllocError>
    requires { is_escaped byte ≡ true }
    ensures { OnOk result (buffer.new ≡ buffer.old ++ shown_byte byte) }
{
    if byte == b'\'' {
        return buffer.push("''");
    }
    buffer.push("\\")?;
    buffer.push_ascii(hex_digit(byte / 16))?;
    buffer.push_ascii(hex_digit(byte % 16))
}

/// Writes the bytes of a text as a reply shows them.
fn push_shown_bytes(buffer: &mut TextBuffer, text: &str) -> Result<(), AllocError>
    ensures { OnOk result (buffer.new ≡ buffer.old ++ flat_map shown_byte text.now) }
{
    let mut rest = text;
    while let Some(at) = escaped_at(rest.as_bytes()) {
        let byte = rest.as_bytes()[at];
        let (front, back) = split_around(rest, at);
        buffer.push(front)?;
        push_escape(buffer, byte)?;
        rest = back;
    }
    buffer.push(rest)
}

/// Writes a text as a reply shows it, in quotes.
#[tactic(auto, unfolding(text_model::specs::Shown::shown_text))]
pub fn push_shown(buffer: &mut TextBuffer, text: &str) -> Result<(), AllocError>
    ensures { OnOk result (buffer.new ≡ buffer.old ++ shown_text text.now) }
{
    buffer.push("'")?;
    push_shown_bytes(buffer, text)?;
    buffer.push("'")
}
