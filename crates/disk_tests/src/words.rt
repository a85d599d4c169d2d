//! Which bytes are an image or a payload, and what an area is judged to be: the sentences of docs/disk.md one by one, by
//! nothing but bytes and places. Each function gives the bytes after a part, or nothing where there is no such part.
use std::cmp::Ordering;

/// What an area is judged to be.
#[derive(Clone, Copy, Debug, PartialEq, Eq)]
pub enum Judgement {
    /// It isn't opened.
    Shut,
    /// The bytes from this place on aren't what has to stand there.
    Damaged(usize),
    /// An image and so many payloads.
    Whole(usize),
}

/// A number of so many bytes, the highest first.
fn number(width: usize, bytes: &[u8]) -> Option<(u64, &[u8])> {
    let front = bytes.get(..width)?;
    let rest = bytes.get(width..)?;
    let mut number = 0;
    for byte in front {
        number = number << 8 | u64::from(*byte);
    }
    Some((number, rest))
}

/// How many bytes follow the first one of a character, and the least and the greatest that the next one may be.
fn behind_first(first: u8) -> Option<(u32, u8, u8)> {
    match first {
        0..=0x7f => Some((0, 0x80, 0xbf)),
        0xc2..=0xdf => Some((1, 0x80, 0xbf)),
        0xe0 => Some((2, 0xa0, 0xbf)),
        0xe1..=0xec | 0xee | 0xef => Some((2, 0x80, 0xbf)),
        0xed => Some((2, 0x80, 0x9f)),
        0xf0 => Some((3, 0x90, 0xbf)),
        0xf1..=0xf3 => Some((3, 0x80, 0xbf)),
        0xf4 => Some((3, 0x80, 0x8f)),
        _ => None,
    }
}

/// Whether the bytes are UTF-8.
fn is_utf8(bytes: &[u8]) -> bool {
    let mut wanted = (0, 0x80, 0xbf);
    for byte in bytes {
        let (count, least, greatest) = wanted;
        if count == 0 {
            match behind_first(*byte) {
                Some(next) => wanted = next,
                None => return false,
            }
        } else if least <= *byte && *byte <= greatest {
            wanted = (count - 1, 0x80, 0xbf);
        } else {
            return false;
        }
    }
    wanted.0 == 0
}

/// Four bytes for its length, and that many bytes of UTF-8.
fn after_text(most: u64, bytes: &[u8]) -> Option<&[u8]> {
    let (length, rest) = number(4, bytes)?;
    let text = rest.get(..length as usize)?;
    if length > most || !is_utf8(text) {
        return None;
    }
    rest.get(length as usize..)
}

/// NULL, a signed number, or a text of at most 4,096 bytes.
fn after_value(bytes: &[u8]) -> Option<&[u8]> {
    match bytes.split_first()? {
        (0, rest) => Some(rest),
        (1, rest) => rest.get(8..),
        (2, rest) => after_text(4_096, rest),
        _ => None,
    }
}

/// The number of the table, and a value other than NULL.
fn after_name(bytes: &[u8]) -> Option<&[u8]> {
    let key = bytes.get(4..)?;
    if *key.first()? == 0 {
        return None;
    }
    after_value(key)
}

/// A list of 1 to 32 values.
fn after_row(bytes: &[u8]) -> Option<&[u8]> {
    let (count, mut rest) = number(4, bytes)?;
    if count == 0 || count > 32 {
        return None;
    }
    for _ in 0..count {
        rest = after_value(rest)?;
    }
    Some(rest)
}

/// A list of rows.
fn after_rows(bytes: &[u8]) -> Option<&[u8]> {
    let (count, mut rest) = number(4, bytes)?;
    for _ in 0..count {
        rest = after_row(rest)?;
    }
    Some(rest)
}

/// The name of the row, and the row that is put or none.
fn after_change(bytes: &[u8]) -> Option<&[u8]> {
    match after_name(bytes)?.split_first()? {
        (0, rest) => Some(rest),
        (1, rest) => after_row(rest),
        _ => None,
    }
}

/// How two signed numbers or two texts compare, behind their kinds.
fn compared(kind: u8, one: &[u8], other: &[u8]) -> Option<Ordering> {
    if kind == 1 {
        let (one, _) = number(8, one)?;
        let (other, _) = number(8, other)?;
        return Some(one.cast_signed().cmp(&other.cast_signed()));
    }
    let (length, one) = number(4, one)?;
    let one = one.get(..length as usize)?;
    let (length, other) = number(4, other)?;
    let other = other.get(..length as usize)?;
    Some(one.cmp(other))
}

/// Whether the one name is below the other: by table, then numbers before texts, then by number or text.
fn is_below(one: &[u8], other: &[u8]) -> Option<bool> {
    let (table, one) = number(4, one)?;
    let (other_table, other) = number(4, other)?;
    if table != other_table {
        return Some(table < other_table);
    }
    let (kind, one) = one.split_first()?;
    let (other_kind, other) = other.split_first()?;
    if kind != other_kind {
        return Some(kind < other_kind);
    }
    Some(compared(*kind, one, other)? == Ordering::Less)
}

/// A list of changes: at least one, each name below the next.
fn after_changes(bytes: &[u8]) -> Option<&[u8]> {
    let (count, mut rest) = number(4, bytes)?;
    let mut last = None;
    for _ in 0..count {
        let after = after_change(rest)?;
        if let Some(last) = last
            && !is_below(last, rest)?
        {
            return None;
        }
        last = Some(rest);
        rest = after;
    }
    last?;
    Some(rest)
}

/// A create, changes or a forget, and nothing behind it.
pub fn is_payload(bytes: &[u8]) -> bool {
    let after = match bytes.split_first() {
        Some((1 | 2, rest)) => after_text(u64::MAX, rest),
        Some((3, rest)) => after_changes(rest),
        Some((4, rest)) => after_name(rest),
        _ => None,
    };
    after.is_some_and(<[u8]>::is_empty)
}

/// So many creates, and after them a list of rows for each that makes a table.
fn after_creates(count: u64, bytes: &[u8]) -> Option<&[u8]> {
    let mut rest = bytes;
    let mut tables: u64 = 0;
    for _ in 0..count {
        let (kind, text) = rest.split_first()?;
        if *kind != 1 && *kind != 2 {
            return None;
        }
        if *kind == 1 {
            tables = tables.saturating_add(1);
        }
        rest = after_text(u64::MAX, text)?;
    }
    for _ in 0..tables {
        rest = after_rows(rest)?;
    }
    Some(rest)
}

/// The version, the number of commits, the creates, the rows.
fn after_image(bytes: &[u8]) -> Option<&[u8]> {
    let (version, rest) = bytes.split_first()?;
    let (commits, rest) = number(8, rest)?;
    let (creates, rest) = number(4, rest)?;
    if *version != 1 || commits > 4_611_686_018_427_387_904 || creates > 96 {
        return None;
    }
    after_creates(creates, rest)
}

/// An image, and nothing behind it.
pub fn is_image(bytes: &[u8]) -> bool {
    after_image(bytes).is_some_and(<[u8]>::is_empty)
}

/// So many bytes at a place.
fn part(area: &[u8], place: usize, length: u64) -> Option<&[u8]> {
    area.get(place..place.checked_add(length as usize)?)
}

/// The payload of the record whose gate is at a place.
fn payload_at(area: &[u8], gate: usize) -> Option<&[u8]> {
    let (length, _) = number(4, area.get(gate..)?.get(1..)?)?;
    part(area, gate.checked_add(5)?, length)
}

/// The image of an area that is opened.
fn image_in(area: &[u8]) -> Option<&[u8]> {
    let (length, _) = number(8, area.get(9..)?)?;
    part(area, 17, length)
}

/// The records from a gate on.
fn judged_records(area: &[u8], first: usize) -> Judgement {
    let mut gate = first;
    for count in 0..area.len() {
        match area.get(gate) {
            None => return Judgement::Damaged(gate),
            Some(1) => {}
            Some(_) => return Judgement::Whole(count),
        }
        match payload_at(area, gate) {
            Some(payload) if is_payload(payload) => gate = gate.saturating_add(5 + payload.len()),
            _ => return Judgement::Damaged(gate),
        }
    }
    Judgement::Damaged(gate)
}

/// What the area is judged to be.
pub fn judged(area: &[u8]) -> Judgement {
    if area.len() < 18 || area.first() != Some(&1) {
        return Judgement::Shut;
    }
    match image_in(area) {
        Some(image) if is_image(image) => judged_records(area, 17 + image.len()),
        _ => Judgement::Damaged(17),
    }
}
