ghost use Rattle.std.specs.Prelude.{◌≡◌, ◌++◌, ◌+◌, IsUtf8, OnOk, length};
ghost use Rattle.disk_model.specs.Bounds.{IsCountable};
ghost use Rattle.disk_model.specs.Spelling.{text_spelling};
ghost use Rattle.disk_fields.specs.Reading.{Gives, text_at};

use crate::number::{read_u32, write_u32};
use crate::unread::Unread;
use own_base::Text;
use std::alloc::{AllocError, Global};

/// Reads a text of at most so many bytes.
#[tactic(auto, unfolding(crate::specs::Reading::text_at))]
pub fn read_text(alloc: Global, most: u32, bytes: &[u8]) -> Result<(Text, &[u8]), Unread>
    ensures { Gives (λ read. (read.0, read.1.now)) result (text_at most bytes.now) }
{
    let (length, rest) = read_u32(bytes)?;
    if length > most {
        return Err(Unread::Malformed);
    }
    let length = length as usize;
    if rest.len() < length {
        return Err(Unread::Malformed);
    }
    let (front, rest) = rest.split_at(length);
    match str::from_utf8(front) {
        Ok(text) => Ok((Text::from_str(alloc, text)?, rest)),
        Err(_) => Err(Unread::Malformed),
    }
}

/// Writes a text at the end: four bytes for its length, and its own.
pub fn write_text(text: &Text, out: &mut Vec<u8>) -> Result<(), AllocError>
    requires { IsCountable text.now }
    ensures written { OnOk result (out.new.items ≡ out.old.items ++ text_spelling text.now) }
    ensures typed { OnOk result (IsUtf8 text.now) }
{
    let bytes = text.bytes();
    write_u32(bytes.len() as u32, out)?;
    out.extend_from_slice(bytes)?;
    Ok(())
}
