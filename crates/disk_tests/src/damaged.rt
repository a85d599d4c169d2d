//! Every front of an area and every change of one of its bytes, judged by the words of docs/disk.md and by the codecs.
use crate::words;
use crate::words::Judgement;
use disk_fields::{read_u32, read_u64};
use std::alloc::{AllocError, Global};
use std::process::Abort;

/// An opened area: a gate, the epoch 7, the length 64 of the image, the image; two records; a closed gate and a byte that
/// doesn't count.
const AREA: [u8; 200] = [
    1, 0, 0, 0, 0, 0, 0, 0, 7, 0, 0, 0, 0, 0, 0, 0, 64,
    // the version, two commits, two creates: a table and a view
    1, 0, 0, 0, 0, 0, 0, 0, 2, 0, 0, 0, 2, 1, 0, 0, 0, 1, 84, 2, 0, 0, 0, 1, 86,
    // two rows: (5, 'Ann') and (6, NULL)
    0, 0, 0, 2, 0, 0, 0, 2, 1, 0, 0, 0, 0, 0, 0, 0, 5, 2, 0, 0, 0, 3, 65, 110, 110, 0, 0, 0, 2, 1,
    0, 0, 0, 0, 0, 0, 0, 6, 0,
    // a gate, and a payload of 68 bytes: three changes of table 0
    1, 0, 0, 0, 68, 3, 0, 0, 0, 3,
    // (-1, NULL) is put
    0, 0, 0, 0, 1, 255, 255, 255, 255, 255, 255, 255, 255, 1, 0, 0, 0, 2, 1, 255, 255, 255, 255,
    255, 255, 255, 255, 0,
    // the row 1 is taken away
    0, 0, 0, 0, 1, 0, 0, 0, 0, 0, 0, 0, 1, 0,
    // ('b') is put
    0, 0, 0, 0, 2, 0, 0, 0, 1, 98, 1, 0, 0, 0, 1, 2, 0, 0, 0, 1, 98,
    // a gate, and a payload of 39 bytes: a table by a text that ends with a character of two bytes
    1, 0, 0, 0, 39, 1, 0, 0, 0, 34, 67, 82, 69, 65, 84, 69, 32, 84, 65, 66, 76, 69, 32, 99, 97,
    102, 32, 40, 105, 100, 32, 73, 78, 84, 32, 80, 82, 73, 77, 65, 82, 89, 195, 169,
    // a closed gate, and what doesn't count
    0, 1,
];

/// Whether the codec reads an image.
fn is_image(alloc: Global, bytes: &[u8]) -> Result<bool, AllocError> {
    Ok(check_image::decode(alloc, bytes)?.is_some())
}

/// Whether the codec reads a payload.
fn is_payload(alloc: Global, bytes: &[u8]) -> Result<bool, AllocError> {
    Ok(rec_codec::decode(alloc, bytes)?.is_some())
}

/// So many bytes in front, and those behind them.
fn split(bytes: &[u8], length: u64) -> Option<(&[u8], &[u8])> {
    bytes.split_at_checked(length as usize)
}

/// The image of an area, and what is behind it.
fn image_in(area: &[u8]) -> Option<(&[u8], &[u8])> {
    let (_, rest) = area.split_first()?;
    let (_, rest) = read_u64(rest).ok()?;
    let (length, rest) = read_u64(rest).ok()?;
    split(rest, length)
}

/// The payload of a record, and what is behind it.
fn payload_of(record: &[u8]) -> Option<(&[u8], &[u8])> {
    let (length, rest) = read_u32(record).ok()?;
    split(rest, length.into())
}

/// The records of an area, judged by the codecs.
fn judged_records(alloc: Global, area: &[u8], records: &[u8]) -> Result<Judgement, AllocError> {
    let mut rest = records;
    for count in 0..area.len() {
        let gate = area.len().saturating_sub(rest.len());
        let record = match rest.split_first() {
            None => return Ok(Judgement::Damaged(gate)),
            Some((1, record)) => record,
            Some(_) => return Ok(Judgement::Whole(count)),
        };
        let Some((payload, behind)) = payload_of(record) else {
            return Ok(Judgement::Damaged(gate));
        };
        if !is_payload(alloc, payload)? {
            return Ok(Judgement::Damaged(gate));
        }
        rest = behind;
    }
    Ok(Judgement::Shut)
}

/// What the area is judged to be by the codecs.
fn judged(alloc: Global, area: &[u8]) -> Result<Judgement, AllocError> {
    if area.len() < 18 || area.first() != Some(&1) {
        return Ok(Judgement::Shut);
    }
    let Some((image, records)) = image_in(area) else {
        return Ok(Judgement::Damaged(17));
    };
    if !is_image(alloc, image)? {
        return Ok(Judgement::Damaged(17));
    }
    judged_records(alloc, area, records)
}

/// Compares the two judgements of an area, and answers what they are.
fn compared(rt: &(impl Abort + AllocGlobal), area: &[u8]) -> Judgement {
    let wanted = words::judged(area);
    let found = judged(rt.alloc(), area).expect(rt, "memory");
    assert_eq!(rt; found, wanted, "at {area:?}");
    wanted
}

/// What a few fronts of the area are judged to be, by hand.
const FRONTS: [(usize, Judgement); 8] = [
    (17, Judgement::Shut),
    (80, Judgement::Damaged(17)),
    (81, Judgement::Damaged(81)),
    (82, Judgement::Damaged(81)),
    (154, Judgement::Damaged(154)),
    (198, Judgement::Damaged(198)),
    (199, Judgement::Whole(2)),
    (200, Judgement::Whole(2)),
];

/// So many bytes of the area, in front.
fn front(length: usize) -> &'static [u8] {
    AREA.get(..length).unwrap_or(&AREA)
}

#[test]
fn each_front_of_an_area(rt: HostRuntime) {
    for length in 0..=AREA.len() {
        let _ = compared(&rt, front(length));
    }
    for (length, wanted) in &FRONTS {
        assert_eq!(rt; words::judged(front(*length)), *wanted, "of {length}");
    }
}

/// The area.
fn whole_area(rt: &(impl Abort + AllocGlobal)) -> Vec<u8> {
    Vec::from_slice(rt.alloc(), &AREA).expect(rt, "memory")
}

/// Compares the two judgements of the area with each other byte at a place. Answers for how many it is whole.
fn compare_at(rt: &(impl Abort + AllocGlobal), place: usize) -> u32 {
    let mut area = whole_area(rt);
    let mut whole: u32 = 0;
    for byte in 0..=255 {
        if let Some(changed) = area.get_mut(place) {
            *changed = byte;
        }
        if matches!(compared(rt, &area), Judgement::Whole(_)) {
            whole = whole.saturating_add(1);
        }
    }
    whole
}

/// For how many bytes at a place the area is whole: the gate opens at one byte alone; any epoch will do; a length has to
/// be right.
const WHOLE: [(usize, u32); 4] = [(0, 1), (1, 256), (16, 1), (199, 256)];

#[test]
fn each_change_of_a_byte(rt: HostRuntime) {
    for place in 0..AREA.len() {
        let whole = compare_at(&rt, place);
        assert!(rt; whole >= 1, "at {place}");
    }
    for (place, wanted) in &WHOLE {
        assert_eq!(rt; compare_at(&rt, *place), *wanted, "at {place}");
    }
}

/// An image's front is one exactly where it is whole.
fn assert_image(rt: &(impl Abort + AllocGlobal), bytes: &[u8], wanted: bool) {
    let found = is_image(rt.alloc(), bytes).expect(rt, "memory");
    assert_eq!(rt; found, wanted, "at {bytes:?}");
    assert_eq!(rt; words::is_image(bytes), wanted, "at {bytes:?}");
}

/// A payload's front is one exactly where it is whole.
fn assert_payload(rt: &(impl Abort + AllocGlobal), bytes: &[u8], wanted: bool) {
    let found = is_payload(rt.alloc(), bytes).expect(rt, "memory");
    assert_eq!(rt; found, wanted, "at {bytes:?}");
    assert_eq!(rt; words::is_payload(bytes), wanted, "at {bytes:?}");
}

/// Where the payloads of the area begin, and their lengths.
const PAYLOADS: [(usize, usize); 2] = [(86, 68), (159, 39)];

/// So many bytes of the area from a place on.
fn part(first: usize, length: usize) -> &'static [u8] {
    AREA.get(first..first.saturating_add(length)).unwrap_or(&[])
}

#[test]
fn each_front_of_an_image_and_of_payloads(rt: HostRuntime) {
    for length in 0..=64 {
        assert_image(&rt, part(17, length), length == 64);
    }
    for (first, bytes) in &PAYLOADS {
        for length in 0..=*bytes {
            assert_payload(&rt, part(*first, length), length == *bytes);
        }
    }
}
