ghost use Rattle.std.specs.Prelude.{◌≡◌, ◌≤◌, ℕ, List, IfNone, IfSome, length, take};
ghost use Rattle.std.specs.Int.{w64, from_be_bytes};
ghost use Rattle.disk_model.specs.Number.{IsNumber};
ghost use Rattle.crash_recover.specs.Parts.{AreInFront};

/// Reads a number of four bytes, where there are so many. Takes no memory.
pub(crate) fn number_of_four(bytes: &[u8]) -> Option<(u64, &[u8])>
    ensures some { IfSome result (λ read. IsNumber 4 read.0 bytes.now read.1.now) }
    ensures none { IfNone result ((number : ℕ) (rest : List ℕ) → IsNumber 4 number bytes.now rest → ⊥) }
{
    let (front, rest) = bytes.split_first_chunk::<4>()?;
    Some((u64::from(u32::from_be_bytes(*front)), rest))
}

/// Reads a number of eight bytes, where there are so many. Takes no memory.
pub(crate) fn number_of_eight(bytes: &[u8]) -> Option<(u64, &[u8])>
    ensures some { IfSome result (λ read. IsNumber 8 read.0 bytes.now read.1.now) }
    ensures value { IfSome result (λ read. read.0 ≡ from_be_bytes w64 (take 8 bytes.now)) }
    ensures none { IfNone result ((number : ℕ) (rest : List ℕ) → IsNumber 8 number bytes.now rest → ⊥) }
{
    let (front, rest) = bytes.split_first_chunk::<8>()?;
    Some((u64::from_be_bytes(*front), rest))
}

/// The first so many bytes, and those behind them, of which there is at least one. Takes no memory.
pub(crate) fn split_in_front(bytes: &[u8], count: u64) -> Option<(&[u8], &[u8])>
    ensures some { IfSome result (λ parts. AreInFront bytes.now count parts.0.now parts.1.now) }
    ensures none { IfNone result (length bytes.now ≤ count) }
{
    if bytes.len() as u64 <= count {
        return None;
    }
    Some(bytes.split_at(count as usize))
}
