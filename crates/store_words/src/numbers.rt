ghost use Rattle.std.specs.Prelude.{◌≡◌};
ghost use Rattle.store_words.specs.Numbers.{is_numeral, number_up_to};

/// The number from 1 to `most` that a word writes in decimal digits, without a sign and without a leading zero.
pub(crate) fn number_up_to(most: u32, word: &str) -> Option<u32>
    ensures { result ≡ number_up_to most word.now }
{
    if !is_numeral(word.as_bytes()) {
        return None;
    }
    let number = word.parse::<u32>().ok()?;
    (number <= most).then_some(number)
}

/// Whether the bytes are digits, of which the first is no zero.
fn is_numeral(bytes: &[u8]) -> bool
    ensures { result ≡ is_numeral bytes.now }
{
    match bytes.first() {
        Some(first) => *first != b'0' && bytes.iter().all(|byte| byte.is_ascii_digit()),
        None => false,
    }
}
