ghost use Rattle.std.specs.Prelude.{◌≡◌, ◌==◌, ◌++◌, ◌<◌, ◌^◌, ℕ, List, Option, OnOk, if◌then◌else◌, length};
ghost use Rattle.std.specs.List.{AllByRecursion, flat_map};
ghost use Rattle.disk_model.specs.Bounds.{IsCountable};
ghost use Rattle.disk_model.specs.Spelling.{list_spelling};
ghost use Rattle.disk_fields.specs.Reading.{Gives, items_at, list_at};

use crate::number::{read_u32, write_u32};
use crate::unread::Unread;
use own_base::List as Items;
use std::alloc::{AllocError, Global};

/// A part of what is written to the disk.
pub trait Field {
    // What is read of it from the front of bytes, and the bytes after it.
    ghost reading: { List ℕ → Option (Self × List ℕ) };

    // Its bytes.
    ghost spelling: { Self → List ℕ };

    // What a caller that writes it sees to.
    ghost is_bounded: { Self → Type 0 };

    // What its type sees to.
    ghost is_typed: { Self → Type 0 };

    /// Reads it from the front, and lends the bytes after it.
    fn read(alloc: Global, bytes: &[u8]) -> Result<(Self, &[u8]), Unread>
        ensures { Gives (λ read. (read.0, read.1.now)) result (reading bytes.now) };

    /// How many bytes it takes. Takes no memory.
    fn byte_count(&self) -> u64
        requires { length (spelling self.now) < 2 ^ 64 }
        ensures { result ≡ length (spelling self.now) };

    /// Writes it at the end.
    fn write(&self, out: &mut Vec<u8>) -> Result<(), AllocError>
        requires { is_bounded self.now }
        ensures written { OnOk result (out.new.items ≡ out.old.items ++ spelling self.now) }
        ensures typed { OnOk result (is_typed self.now) };
}

/// Nothing may follow.
pub fn no_more(rest: &[u8]) -> Result<(), Unread>
    ensures { Gives (λ none. none) result (if length rest.now == 0 then Some tt else None) }
{
    if rest.is_empty() {
        Ok(())
    } else {
        Err(Unread::Malformed)
    }
}

/// Reads so many, one behind another.
pub fn read_items<F: Field + Drop>(
    alloc: Global,
    count: u32,
    bytes: &[u8],
) -> Result<(Items<F>, &[u8]), Unread>
    ensures { Gives (λ read. (read.0, read.1.now)) result (items_at F.reading count bytes.now) }
{
    let mut items = Items::new(alloc);
    let mut rest = bytes;
    for _ in 0..count {
        let (item, after) = F::read(alloc, rest)?;
        items.add(item)?;
        rest = after;
    }
    Ok((items, rest))
}

/// How many bytes they take, one behind another. Takes no memory.
pub fn byte_count_of<F: Field>(items: &[F]) -> u64
    requires { length (flat_map F.spelling items.now) < 2 ^ 64 }
    ensures { result ≡ length (flat_map F.spelling items.now) }
{
    let mut count = 0;
    for item in items {
        count += item.byte_count();
    }
    count
}

/// Writes them at the end, one behind another.
pub fn write_items<F: Field>(items: &[F], out: &mut Vec<u8>) -> Result<(), AllocError>
    requires { AllByRecursion F.is_bounded items.now }
    ensures written { OnOk result (out.new.items ≡ out.old.items ++ flat_map F.spelling items.now) }
    ensures typed { OnOk result (AllByRecursion F.is_typed items.now) }
{
    for item in items {
        item.write(out)?;
    }
    Ok(())
}

/// Four bytes for their number, and then one behind another.
impl<F: Field + Drop> Field for Items<F> {
    ghost reading = { list_at F.reading };

    ghost spelling = { list_spelling F.spelling };

    ghost is_bounded = { λ items. IsCountable items × AllByRecursion F.is_bounded items };

    ghost is_typed = { AllByRecursion F.is_typed };

    #[tactic(auto, unfolding(crate::specs::Reading::list_at))]
    fn read(alloc: Global, bytes: &[u8]) -> Result<(Items<F>, &[u8]), Unread> {
        let (count, rest) = read_u32(bytes)?;
        read_items(alloc, count, rest)
    }

    fn byte_count(&self) -> u64 {
        4 + byte_count_of(self.items())
    }

    fn write(&self, out: &mut Vec<u8>) -> Result<(), AllocError> {
        write_u32(self.items().len() as u32, out)?;
        write_items(self.items(), out)
    }
}
