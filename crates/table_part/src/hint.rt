use own_base::{Key, Text, Value};

/// Numbers from the negative of this one up have a hint each, up to the one below it.
const BOUND: i64 = 1 << 62;

/// The hint of a number, in the lower half of all hints and in the order of numbers. Those far from 0 share one.
fn hint_of_number(number: i64) -> u64 {
    let near = number.max(-BOUND).min(BOUND - 1);
    near.wrapping_add(BOUND).cast_unsigned()
}

/// The hint of a text, in the upper half of all hints and in the order of the texts' first bytes.
fn hint_of_text(text: &Text) -> u64 {
    let mut first = [0u8; 8];
    for (place, byte) in first.iter_mut().zip(text.bytes()) {
        *place = *byte;
    }
    (u64::from_be_bytes(first) >> 1) | (1 << 63)
}

/// The hint of a key, for a `KeyOf` of items that are found by their primary key. Takes no memory.
pub fn hint_of_key(key: &Key) -> u64 {
    match key {
        Key::Int(number) => hint_of_number(*number),
        Key::Text(text) => hint_of_text(text),
    }
}

/// Numbers above the negative of this one and below it have a hint each beside which another key has room.
const NEAR: i64 = 1 << 29;

/// The bits of the hint of a key that stands behind another.
const BITS_BEHIND: u32 = 32;

/// The greatest number that the hint of such a key tells from those below it.
const GREATEST_BEHIND: i64 = (1 << 30) - 1;

/// The hint of a key that stands behind another, for [`hint_before`]: a number below 2^32, numbers in its lower half and texts in
/// its upper one. Takes no memory.
pub fn hint_behind(key: &Key) -> u64 {
    match key {
        Key::Int(number) => (*number)
            .max(-GREATEST_BEHIND)
            .min(GREATEST_BEHIND)
            .wrapping_add(GREATEST_BEHIND)
            .cast_unsigned(),
        Key::Text(text) => hint_of_text(text) >> BITS_BEHIND,
    }
}

/// The hint of two keys one behind the other, of which the second has this hint of [`hint_behind`]. The first stands above it;
/// where it is no number near 0, it takes the whole. By its highest two bits numbers far below 0, near numbers, those far above
/// it and texts stand one behind the other. Takes no memory.
pub fn hint_before(key: &Key, behind: u64) -> u64 {
    match key {
        Key::Int(number) if *number <= -NEAR => hint_of_number(*number) >> 1,
        Key::Int(number) if *number < NEAR => {
            let own = number.wrapping_add(NEAR).cast_unsigned() << BITS_BEHIND;
            (1 << 62) | own | behind
        }
        Key::Int(number) => (1 << 63) | (hint_of_number(*number) >> 1),
        Key::Text(text) => (1 << 63) | (hint_of_text(text) >> 1),
    }
}

/// The hint of what stands in the column of a row that is its key. Takes no memory.
pub(crate) fn hint_of_value(value: Option<&Value>) -> u64 {
    match value {
        Some(Value::Int(number)) => hint_of_number(*number),
        Some(Value::Text(text)) => hint_of_text(text),
        Some(Value::Null | Value::Sum(_)) | None => hint_of_number(0),
    }
}
