ghost use Rattle.std.specs.Prelude.{◌≡◌, ◌<◌, ◌≤◌, ℕ, length, slice_index, true, false};
ghost use Rattle.std.specs.Char.{is_ascii_digit};
ghost use Rattle.sql_lex.specs.Bytes as spec;

/// A space, a tab, or an end of line.
pub fn is_space(byte: u8) -> bool
    ensures { result ≡ spec.is_space byte }
{
    byte == b' ' || byte == b'\t' || byte == b'\n' || byte == b'\r'
}

/// A letter or `_`.
pub fn begins_word(byte: u8) -> bool
    ensures { result ≡ spec.begins_word byte }
{
    byte.is_ascii_alphabetic() || byte == b'_'
}

/// A letter, a digit or `_`.
pub fn continues_word(byte: u8) -> bool
    ensures { result ≡ spec.continues_word byte }
{
    byte.is_ascii_alphanumeric() || byte == b'_'
}

/// How many bytes at the front may stand in a word.
pub fn word_len(bytes: &[u8]) -> usize
    ensures within { result ≤ length bytes.now }
    ensures each { (k : ℕ) → k < result → spec.continues_word (slice_index bytes.now k) ≡ true }
    ensures ends { result < length bytes.now → spec.continues_word (slice_index bytes.now result) ≡ false }
{
    let end = bytes.iter().position(|byte| !continues_word(*byte));
    end.unwrap_or(bytes.len())
}

/// How many bytes at the front are digits.
pub fn number_len(bytes: &[u8]) -> usize
    ensures within { result ≤ length bytes.now }
    ensures each { (k : ℕ) → k < result → is_ascii_digit (slice_index bytes.now k) ≡ true }
    ensures ends { result < length bytes.now → is_ascii_digit (slice_index bytes.now result) ≡ false }
{
    let end = bytes.iter().position(|byte| !byte.is_ascii_digit());
    end.unwrap_or(bytes.len())
}
