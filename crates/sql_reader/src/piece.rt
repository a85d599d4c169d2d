//! The pieces that an input is made of.

ghost use Rattle.std.specs.Prelude.{◌≡◌, ◌≢◌, ◌<◌, ◌≤◌, ◌+◌, ◌-◌, ◌^◌, ℕ, Bool, true, false, length, drop, take, slice_index, All, ◌∷◌, MatchOption};
ghost use Rattle.sql_lex.specs.Bytes.{is_space as is_space_byte};
ghost use Rattle.sql_lex.specs.Filler.{EndsLine};
ghost use Rattle.script_model.specs.Piece.{IsWithoutQuote};
ghost use Rattle.sql_reader.specs.scripts.Fronts.{IsFront, is_plain as is_plain_byte};

/// What stands at the front of an input's bytes.
#[derive(Clone, Copy, Debug, PartialEq, Eq)]
pub enum Front {
    /// That many bytes that are empty: white space, or a comment.
    Empty(usize),
    /// A part of a text: how many bytes it has, and how many of them come up to its last that isn't empty.
    Text { len: usize, held: usize },
    Semicolon,
    /// A session line of that many bytes.
    SessionLine(usize),
}

/// How many bytes `-- session ` has.
pub const SESSION_BYTES: usize = 11;

/// A space, a tab, or an end of line.
pub fn is_space(byte: u8) -> bool
    ensures { result ≡ is_space_byte byte }
{
    byte == b' ' || byte == b'\t' || byte == b'\n' || byte == b'\r'
}

/// How many bytes of white space stand at the front.
fn spaces_len(bytes: &[u8]) -> usize
    ensures within { result ≤ length bytes.now }
    ensures spaces { All (λ byte. is_space_byte byte ≡ true) (take result bytes.now) }
    ensures ends { result < length bytes.now → is_space_byte (slice_index bytes.now result) ≡ false }
{
    let end = bytes.iter().position(|byte| !is_space(*byte));
    end.unwrap_or(bytes.len())
}

/// No quote, no dash, no semicolon, and no end of line: nothing but itself begins or ends with it.
fn is_plain(byte: u8) -> bool
    ensures { result ≡ is_plain_byte byte }
{
    byte != b'\'' && byte != b'-' && byte != b';' && byte != b'\n'
}

/// How many bytes at the front are plain.
fn plain_len(bytes: &[u8]) -> usize
    ensures within { result ≤ length bytes.now }
    ensures plain { All (λ byte. is_plain_byte byte ≡ true) (take result bytes.now) }
    ensures ends { result < length bytes.now → is_plain_byte (slice_index bytes.now result) ≡ false }
{
    let end = bytes.iter().position(|byte| !is_plain(*byte));
    end.unwrap_or(bytes.len())
}

/// How many bytes stand before the end of the line.
fn line_len(bytes: &[u8]) -> usize
    ensures within { result ≤ length bytes.now }
    ensures line { All (λ byte. byte ≢ 10) (take result bytes.now) }
    ensures ends { EndsLine (drop result bytes.now) }
{
    let end = bytes.iter().position(|byte| *byte == b'\n');
    end.unwrap_or(bytes.len())
}

/// How many bytes come up to the last that is no white space.
fn trimmed_len(bytes: &[u8]) -> usize
    ensures within { result ≤ length bytes.now }
    ensures spaces { All (λ byte. is_space_byte byte ≡ true) (drop result bytes.now) }
    ensures last { 0 < result → is_space_byte (slice_index bytes.now (result - 1)) ≡ false }
{
    let last = bytes.iter().rposition(|byte| !is_space(*byte));
    match last {
        Some(at) => at + 1,
        None => 0,
    }
}

/// Where the first quote stands.
fn quote_place(bytes: &[u8]) -> Option<usize>
    ensures { MatchOption result (IsWithoutQuote bytes.now) (λ at. (at < length bytes.now) × (slice_index bytes.now at ≡ 39) × IsWithoutQuote (take at bytes.now)) }
{
    bytes.iter().position(|byte| *byte == b'\'')
}

/// What a quote begins, before these bytes: a text up to the next quote, or one that isn't closed.
fn quoted(after: &[u8]) -> Front
    requires { length after.now < 2 ^ 62 }
    ensures { (begins : Bool) → IsFront begins (39 ∷ after.now) result }
{
    match quote_place(after) {
        Some(at) => Front::Text {
            len: at + 2,
            held: at + 2,
        },
        None => Front::Text {
            len: after.len() + 1,
            held: trimmed_len(after) + 1,
        },
    }
}

/// What a plain byte that is no white space begins, before these bytes: a text up to the first byte that isn't plain.
fn plain(after: &[u8]) -> Front
    requires { length after.now < 2 ^ 62 }
    ensures { (begins : Bool) (byte : ℕ) → is_plain_byte byte ≡ true → is_space_byte byte ≡ false → IsFront begins (byte ∷ after.now) result }
{
    let run = plain_len(after);
    Front::Text {
        len: run + 1,
        held: trimmed_len(&after[..run]) + 1,
    }
}

/// What a dash begins, where `begins` tells whether a line begins with it: a session line, a comment, or nothing else.
fn dash(bytes: &[u8], begins: bool) -> Front
    requires some { 0 < length bytes.now }
    requires dash { slice_index bytes.now 0 ≡ 45 }
    ensures { IsFront begins bytes.now result }
{
    if begins && bytes.starts_with(b"-- session ") {
        Front::SessionLine(SESSION_BYTES + line_len(&bytes[SESSION_BYTES..]))
    } else if bytes.starts_with(b"--") {
        Front::Empty(2 + line_len(&bytes[2..]))
    } else {
        Front::Text { len: 1, held: 1 }
    }
}

/// What stands at the front of the bytes, where `begins` tells whether a line begins there.
pub fn front_of(bytes: &[u8], begins: bool) -> Front
    requires some { 0 < length bytes.now }
    requires short { length bytes.now < 2 ^ 62 }
    ensures { IsFront begins bytes.now result }
{
    let byte = bytes[0];
    if byte == b'\'' {
        quoted(&bytes[1..])
    } else if byte == b';' {
        Front::Semicolon
    } else if byte == b'-' {
        dash(bytes, begins)
    } else if is_space(byte) {
        Front::Empty(1 + spaces_len(&bytes[1..]))
    } else {
        plain(&bytes[1..])
    }
}
