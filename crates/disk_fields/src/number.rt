ghost use Rattle.std.specs.Prelude.{◌≡◌, ◌++◌, OnOk};
ghost use Rattle.std.specs.Int.{w32, w64};
ghost use Rattle.disk_model.specs.Spelling.{number_spelling};
ghost use Rattle.disk_fields.specs.Reading.{Gives, number_at, signed_at};

use crate::unread::Unread;
use byteorder::{BigEndian, ByteOrder};
use std::alloc::AllocError;

/// Reads a number of four bytes.
pub fn read_u32(bytes: &[u8]) -> Result<(u32, &[u8]), Unread>
    ensures { Gives (λ read. (read.0, read.1.now)) result (number_at w32 bytes.now) }
{
    if bytes.len() < 4 {
        return Err(Unread::Malformed);
    }
    let (front, rest) = bytes.split_at(4);
    let number = u32::from_be_bytes([front[0], front[1], front[2], front[3]]);
    Ok((number, rest))
}

/// Reads a number of eight bytes.
pub fn read_u64(bytes: &[u8]) -> Result<(u64, &[u8]), Unread>
    ensures { Gives (λ read. (read.0, read.1.now)) result (number_at w64 bytes.now) }
{
    if bytes.len() < 8 {
        return Err(Unread::Malformed);
    }
    let (front, rest) = bytes.split_at(8);
    let number = u64::from_be_bytes([
        front[0], front[1], front[2], front[3], front[4], front[5], front[6], front[7],
    ]);
    Ok((number, rest))
}

/// Reads a signed number of eight bytes.
#[tactic(auto, unfolding(crate::specs::Reading::signed_at))]
pub(crate) fn read_i64(bytes: &[u8]) -> Result<(i64, &[u8]), Unread>
    ensures { Gives (λ read. (read.0, read.1.now)) result (signed_at bytes.now) }
{
    let (number, rest) = read_u64(bytes)?;
    Ok((number.cast_signed(), rest))
}

/// Writes a number of four bytes at the end.
pub fn write_u32(number: u32, out: &mut Vec<u8>) -> Result<(), AllocError>
    ensures { OnOk result (out.new.items ≡ out.old.items ++ number_spelling 4 number) }
{
    let mut bytes = [0; 4];
    BigEndian::write_u32(&mut bytes, number);
    out.extend_from_slice(&bytes)?;
    Ok(())
}

/// Writes a number of eight bytes at the end.
pub fn write_u64(number: u64, out: &mut Vec<u8>) -> Result<(), AllocError>
    ensures { OnOk result (out.new.items ≡ out.old.items ++ number_spelling 8 number) }
{
    let mut bytes = [0; 8];
    BigEndian::write_u64(&mut bytes, number);
    out.extend_from_slice(&bytes)?;
    Ok(())
}
