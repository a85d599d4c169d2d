ghost use Rattle.std.specs.Prelude.{◌≡◌, ◌≢◌, ◌+◌, ◌<◌, ◌≤◌, ℕ, length, drop, take, All, ◌++◌, false};
ghost use Rattle.sql_lex.specs.Filler.{EndsLine, FrontFiller, Skips, begins_filler};

use crate::bytes::is_space;

/// How many bytes stand before the end of the line.
fn line_len(bytes: &[u8]) -> usize
    ensures within { result ≤ length bytes.now }
    ensures line { All (λ byte. byte ≢ 10) (take result bytes.now) }
    ensures ends { EndsLine (drop result bytes.now) }
{
    let end = bytes.iter().position(|byte| *byte == b'\n');
    end.unwrap_or(bytes.len())
}

/// How many bytes the filler at the front has: 0 where none stands there.
fn filler_len(bytes: &[u8]) -> usize
    ensures within { result ≤ length bytes.now }
    ensures none { result ≡ 0 → begins_filler bytes.now ≡ false }
    ensures some { 0 < result → FrontFiller bytes.now result }
{
    if bytes.starts_with(b"--") {
        2 + line_len(&bytes[2..])
    } else if !bytes.is_empty() && is_space(bytes[0]) {
        1
    } else {
        0
    }
}

/// How many bytes of white space and comments stand at the front.
pub fn skip(bytes: &[u8]) -> usize
    ensures within { result ≤ length bytes.now }
    ensures skips { Skips bytes.now (drop result bytes.now) }
{
    let mut at = 0;
    while at < bytes.len() {
        let step = filler_len(&bytes[at..]);
        if step == 0 {
            return at;
        }
        at += step;
    }
    at
}
