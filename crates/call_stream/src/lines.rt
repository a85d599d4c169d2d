//! Lines of an input.

ghost use Rattle.std.specs.Prelude.{◌≡◌, count_by, ◌==◌};

/// How many lines end in the bytes.
pub fn line_feeds(bytes: &[u8]) -> u64
    ensures { result ≡ count_by (λ byte. byte == 10) bytes.now }
{
    bytes.iter().filter(|byte| **byte == b'\n').count() as u64
}
