ghost use Rattle.std.specs.Prelude.{ℕ, IfSome, IfNone};
ghost use Rattle.sql_lex.specs.Tokens.{Closes};

const QUOTE: u8 = b'\'';

/// Of the bytes after an opening quote: how many come up to and with the quote that closes the text.
pub fn closed_len(bytes: &[u8]) -> Option<usize>
    ensures found { IfSome result (λ len. Closes bytes.now len) }
    ensures none { IfNone result ((len : ℕ) → Closes bytes.now len → ⊥) }
{
    let mut at = 0;
    while at < bytes.len() {
        if bytes[at] != QUOTE {
            at += 1;
        } else if at + 1 < bytes.len() && bytes[at + 1] == QUOTE {
            at += 2;
        } else {
            return Some(at + 1);
        }
    }
    None
}
