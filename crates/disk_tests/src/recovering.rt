//! What two areas are judged to be, by the page docs/disk.md: an area that is unlawful from some place on, and each way in
//! which a commit is unlawful on what those before it leave.
use crash_recover::{Judged, judge};
use own_base::Area;
use std::alloc::{AllocError, Global};
use std::process::Abort;

/// What is told of a judgement: of a store its area, its epoch, how many commits are behind its image, and where these end.
#[derive(Clone, Copy, Debug, PartialEq, Eq)]
enum Told {
    Empty,
    Whole(Area, u64, usize, u64),
    Damaged(Area, u64),
}

fn outcome_of(judged: &Judged) -> Told {
    match judged {
        Judged::Empty => Told::Empty,
        Judged::Whole {
            area,
            epoch,
            commits,
            end,
            ..
        } => Told::Whole(*area, *epoch, commits.items().len(), *end),
        Judged::Damaged { area, offset } => Told::Damaged(*area, *offset),
    }
}

/// What these areas are judged to be.
fn judged(rt: &(impl Abort + AllocGlobal), a: &[u8], b: &[u8]) -> Told {
    let judged = judge(rt.alloc(), a, b).expect(rt, "memory");
    outcome_of(&judged)
}

/// An area of the empty store: an open gate, the epoch 1, the length 13, the image, a closed gate.
const BEGUN: [u8; 31] = [
    1, 0, 0, 0, 0, 0, 0, 0, 1, 0, 0, 0, 0, 0, 0, 0, 13, 1, 0, 0, 0, 0, 0, 0, 0, 0, 0, 0, 0, 0, 0,
];

/// The area of the empty store with other bytes from a place on, and bytes behind it.
fn changed(alloc: Global, at: usize, bytes: &[u8], behind: &[u8]) -> Result<Vec<u8>, AllocError> {
    let mut area = Vec::from_slice(alloc, &BEGUN)?;
    for (old, new) in area.iter_mut().skip(at).zip(bytes) {
        *old = *new;
    }
    area.extend_from_slice(behind)?;
    Ok(area)
}

/// Changes of the area of the empty store: from which byte on, to what, and with what behind it.
type Change = (usize, &'static [u8], &'static [u8]);

/// What A is judged to be with such a change, where B has no bytes.
const CHANGES: [(Change, Told); 12] = [
    ((0, &[], &[]), Told::Whole(Area::A, 1, 0, 30)),
    // the gate
    ((0, &[0], &[]), Told::Empty),
    ((0, &[2], &[]), Told::Empty),
    // the epoch 0, and one past the last
    ((8, &[0], &[]), Told::Damaged(Area::A, 1)),
    (
        (1, &[64, 0, 0, 0, 0, 0, 0, 1], &[]),
        Told::Damaged(Area::A, 1),
    ),
    (
        (1, &[64, 0, 0, 0, 0, 0, 0, 0], &[]),
        Told::Whole(Area::A, 1 << 62, 0, 30),
    ),
    // an image of 14 bytes leaves no gate
    ((16, &[14], &[]), Told::Damaged(Area::A, 9)),
    // another version
    ((17, &[3], &[]), Told::Damaged(Area::A, 17)),
    // an open gate behind the image: nothing follows; a record of no byte; one that is no payload
    ((30, &[1], &[]), Told::Damaged(Area::A, 31)),
    ((30, &[1], &[0, 0, 0, 0]), Told::Damaged(Area::A, 31)),
    ((30, &[1], &[0, 0, 0, 1, 5, 0]), Told::Damaged(Area::A, 35)),
    // a gate that is neither 0 nor 1 is closed
    ((30, &[2], &[]), Told::Whole(Area::A, 1, 0, 30)),
];

#[test]
fn each_part_of_an_area(rt: HostRuntime) {
    for ((at, bytes, behind), wanted) in &CHANGES {
        let area = changed(rt.alloc(), *at, bytes, behind).expect(&rt, "memory");
        assert_eq!(rt; judged(&rt, &area, &[]), *wanted, "at {at}: {bytes:?}");
    }
}

#[test]
fn two_areas(rt: HostRuntime) {
    let second = changed(rt.alloc(), 8, &[2], &[]).expect(&rt, "memory");
    let short = changed(rt.alloc(), 16, &[14], &[]).expect(&rt, "memory");
    let cases: [(&[u8], &[u8], Told); 8] = [
        (&[], &[], Told::Empty),
        (&[1], &[], Told::Empty),
        (&BEGUN[..17], &[0], Told::Empty),
        (&[], &BEGUN, Told::Whole(Area::B, 1, 0, 30)),
        (&BEGUN, &BEGUN, Told::Damaged(Area::B, 1)),
        (&BEGUN, &second, Told::Whole(Area::B, 2, 0, 30)),
        (&second, &BEGUN, Told::Whole(Area::A, 2, 0, 30)),
        // of two that are opened the lower isn't looked at
        (&short, &second, Told::Whole(Area::B, 2, 0, 30)),
    ];
    for (a, b, wanted) in &cases {
        assert_eq!(rt; judged(&rt, a, b), *wanted, "{a:?} and {b:?}");
    }
}

/// The payload of a commit, by its parts.
#[derive(Clone, Copy, Debug)]
enum Payload {
    /// The text of a CREATE TABLE.
    Table(&'static str),
    /// That of a CREATE VIEW.
    View(&'static str),
    /// Any other.
    Bytes(&'static [u8]),
}

/// Data subjects 5, as table 0, and what they send, as table 1.
const USERS: Payload = Payload::Table(
    "CREATE DATA_SUBJECT TABLE users ( id INT PRIMARY KEY , name TEXT UNIQUE )",
);

const NOTES: Payload = Payload::Table(
    "CREATE TABLE notes ( id INT PRIMARY KEY , author INT NOT NULL OWNED_BY users ( id ) )",
);

/// (5, 'Ann') is put into users, and (9, 5) into notes.
const ROWS: Payload = Payload::Bytes(&[
    3, 0, 0, 0, 2, 0, 0, 0, 0, 1, 0, 0, 0, 0, 0, 0, 0, 5, 1, 0, 0, 0, 2, 1, 0, 0, 0, 0, 0, 0, 0, 5,
    2, 0, 0, 0, 3, 65, 110, 110, 0, 0, 0, 1, 1, 0, 0, 0, 0, 0, 0, 0, 9, 1, 0, 0, 0, 2, 1, 0, 0, 0,
    0, 0, 0, 0, 9, 1, 0, 0, 0, 0, 0, 0, 0, 5,
]);

/// A view of the data subjects.
const NAMES: Payload = Payload::View("CREATE VIEW names AS SELECT name FROM users");

/// The commits that lawfully may come behind them.
const LAWFUL: [Payload; 6] = [
    NAMES,
    // the note is taken away
    Payload::Bytes(&[3, 0, 0, 0, 1, 0, 0, 0, 1, 1, 0, 0, 0, 0, 0, 0, 0, 9, 0]),
    // (5, NULL) is put into users
    Payload::Bytes(&[
        3, 0, 0, 0, 1, 0, 0, 0, 0, 1, 0, 0, 0, 0, 0, 0, 0, 5, 1, 0, 0, 0, 2, 1, 0, 0, 0, 0, 0, 0,
        0, 5, 0,
    ]),
    // (8, 5) is put into notes
    Payload::Bytes(&[
        3, 0, 0, 0, 1, 0, 0, 0, 1, 1, 0, 0, 0, 0, 0, 0, 0, 8, 1, 0, 0, 0, 2, 1, 0, 0, 0, 0, 0, 0,
        0, 8, 1, 0, 0, 0, 0, 0, 0, 0, 5,
    ]),
    // both rows are taken away
    Payload::Bytes(&[
        3, 0, 0, 0, 2, 0, 0, 0, 0, 1, 0, 0, 0, 0, 0, 0, 0, 5, 0, 0, 0, 0, 1, 1, 0, 0, 0, 0, 0, 0,
        0, 9, 0,
    ]),
    // the subject is forgotten
    Payload::Bytes(&[4, 0, 0, 0, 0, 1, 0, 0, 0, 0, 0, 0, 0, 5]),
];

/// Those that are unlawful there.
const UNLAWFUL: [Payload; 16] = [
    // the name is taken
    USERS,
    // no canonical text; that of a view; and of a table
    Payload::Table("CREATE TABLE t (id INT PRIMARY KEY)"),
    Payload::Table("CREATE VIEW names AS SELECT name FROM users"),
    Payload::View("CREATE TABLE t ( id INT PRIMARY KEY )"),
    // there is no such column
    Payload::View("CREATE VIEW names AS SELECT title FROM users"),
    // there is no table 2
    Payload::Bytes(&[3, 0, 0, 0, 1, 0, 0, 0, 2, 1, 0, 0, 0, 0, 0, 0, 0, 9, 0]),
    // the row is as it was; and there is none
    Payload::Bytes(&[
        3, 0, 0, 0, 1, 0, 0, 0, 1, 1, 0, 0, 0, 0, 0, 0, 0, 9, 1, 0, 0, 0, 2, 1, 0, 0, 0, 0, 0, 0,
        0, 9, 1, 0, 0, 0, 0, 0, 0, 0, 5,
    ]),
    Payload::Bytes(&[3, 0, 0, 0, 1, 0, 0, 0, 1, 1, 0, 0, 0, 0, 0, 0, 0, 8, 0]),
    // another key; one value; a number in place of a text
    Payload::Bytes(&[
        3, 0, 0, 0, 1, 0, 0, 0, 1, 1, 0, 0, 0, 0, 0, 0, 0, 8, 1, 0, 0, 0, 2, 1, 0, 0, 0, 0, 0, 0,
        0, 7, 1, 0, 0, 0, 0, 0, 0, 0, 5,
    ]),
    Payload::Bytes(&[
        3, 0, 0, 0, 1, 0, 0, 0, 1, 1, 0, 0, 0, 0, 0, 0, 0, 8, 1, 0, 0, 0, 1, 1, 0, 0, 0, 0, 0, 0,
        0, 8,
    ]),
    Payload::Bytes(&[
        3, 0, 0, 0, 1, 0, 0, 0, 0, 1, 0, 0, 0, 0, 0, 0, 0, 6, 1, 0, 0, 0, 2, 1, 0, 0, 0, 0, 0, 0,
        0, 6, 1, 0, 0, 0, 0, 0, 0, 0, 6,
    ]),
    // the name of another row in a UNIQUE column; nobody's note; a note whose author goes
    Payload::Bytes(&[
        3, 0, 0, 0, 1, 0, 0, 0, 0, 1, 0, 0, 0, 0, 0, 0, 0, 6, 1, 0, 0, 0, 2, 1, 0, 0, 0, 0, 0, 0,
        0, 6, 2, 0, 0, 0, 3, 65, 110, 110,
    ]),
    Payload::Bytes(&[
        3, 0, 0, 0, 1, 0, 0, 0, 1, 1, 0, 0, 0, 0, 0, 0, 0, 9, 1, 0, 0, 0, 2, 1, 0, 0, 0, 0, 0, 0,
        0, 9, 0,
    ]),
    Payload::Bytes(&[3, 0, 0, 0, 1, 0, 0, 0, 0, 1, 0, 0, 0, 0, 0, 0, 0, 5, 0]),
    // who is forgotten isn't there; and is no data subject
    Payload::Bytes(&[4, 0, 0, 0, 0, 1, 0, 0, 0, 0, 0, 0, 0, 6]),
    Payload::Bytes(&[4, 0, 0, 0, 1, 1, 0, 0, 0, 0, 0, 0, 0, 9]),
];

/// The four bytes of a count.
fn count_bytes(count: usize) -> [u8; 4] {
    u32::try_from(count).unwrap_or(u32::MAX).to_be_bytes()
}

/// The bytes of a payload.
fn bytes_of(alloc: Global, payload: &Payload) -> Result<Vec<u8>, AllocError> {
    let (kind, text) = match payload {
        Payload::Bytes(bytes) => return Vec::from_slice(alloc, bytes),
        Payload::Table(text) => (1, text),
        Payload::View(text) => (2, text),
    };
    let mut bytes = Vec::new(alloc);
    bytes.push(kind)?;
    bytes.extend_from_slice(&count_bytes(text.len()))?;
    bytes.extend_from_slice(text.as_bytes())?;
    Ok(bytes)
}

/// Adds a record to an area that ends with a closed gate. Answers where its payload lies.
fn add(alloc: Global, area: &mut Vec<u8>, payload: &Payload) -> Result<u64, AllocError> {
    let bytes = bytes_of(alloc, payload)?;
    if let Some(gate) = area.last_mut() {
        *gate = 1;
    }
    let at = area.len() as u64;
    area.extend_from_slice(&count_bytes(bytes.len()))?;
    area.extend_from_slice(bytes.as_slice())?;
    area.push(0)?;
    Ok(at.wrapping_add(4))
}

/// The area of a store of two tables with a row each, and a payload behind it; and where this lies.
fn area_with(alloc: Global, payload: &Payload) -> Result<(Vec<u8>, u64), AllocError> {
    let mut area = Vec::from_slice(alloc, &BEGUN)?;
    for each in &[USERS, NOTES, ROWS] {
        add(alloc, &mut area, each)?;
    }
    let at = add(alloc, &mut area, payload)?;
    Ok((area, at))
}

#[test]
fn lawful_commits(rt: HostRuntime) {
    for payload in &LAWFUL {
        let (area, _) = area_with(rt.alloc(), payload).expect(&rt, "memory");
        let end = (area.len() as u64).wrapping_sub(1);
        assert_eq!(rt;
            judged(&rt, &[0], &area),
            Told::Whole(Area::B, 1, 4, end),
            "{payload:?}"
        );
    }
}

#[test]
fn unlawful_commits(rt: HostRuntime) {
    for payload in &UNLAWFUL {
        let (area, at) = area_with(rt.alloc(), payload).expect(&rt, "memory");
        assert_eq!(rt;
            judged(&rt, &area, &[]),
            Told::Damaged(Area::A, at),
            "{payload:?}"
        );
    }
}

/// A record that is cut short, or whose gate is shut, is none; and one that is there twice is unlawful where it lies the second
/// time.
#[test]
fn records_cut_short_shut_and_twice(rt: HostRuntime) {
    let (area, _) = area_with(rt.alloc(), &LAWFUL[3]).expect(&rt, "memory");
    let (mut twice, last) = area_with(rt.alloc(), &LAWFUL[3]).expect(&rt, "memory");
    let again = add(rt.alloc(), &mut twice, &LAWFUL[3]).expect(&rt, "memory");
    let gate = last.wrapping_sub(5);
    assert_eq!(rt;
        judged(&rt, twice.as_slice(), &[]),
        Told::Damaged(Area::A, again)
    );
    let cut = area.get(..area.len().saturating_sub(1)).unwrap_or(&[]);
    assert_eq!(rt;
        judged(&rt, cut, &[]),
        Told::Damaged(Area::A, gate.wrapping_add(1))
    );
    let mut shut = area;
    if let Some(byte) = shut.get_mut(gate as usize) {
        *byte = 0;
    }
    assert_eq!(rt;
        judged(&rt, shut.as_slice(), &[]),
        Told::Whole(Area::A, 1, 3, gate)
    );
}

/// An image: of which creates it is, in order, and the bytes of its rows.
type Parts = (&'static [Payload], &'static [u8]);

/// Images, and whether they are lawful.
const IMAGES: [(Parts, bool); 9] = [
    ((&[], &[]), true),
    ((&[USERS], &[0, 0, 0, 0]), true),
    // a view comes in between
    ((&[USERS, NAMES, NOTES], &[0, 0, 0, 0, 0, 0, 0, 0]), true),
    // a view, and a table, before what they name
    ((&[NAMES, USERS], &[0, 0, 0, 0]), false),
    ((&[NOTES, USERS], &[0, 0, 0, 0, 0, 0, 0, 0]), false),
    // two keys that rise, two that don't, and none
    (
        (
            &[USERS],
            &[
                0, 0, 0, 2, 0, 0, 0, 2, 1, 0, 0, 0, 0, 0, 0, 0, 5, 0, 0, 0, 0, 2, 1, 0, 0, 0, 0, 0,
                0, 0, 6, 0,
            ],
        ),
        true,
    ),
    (
        (
            &[USERS],
            &[
                0, 0, 0, 2, 0, 0, 0, 2, 1, 0, 0, 0, 0, 0, 0, 0, 5, 0, 0, 0, 0, 2, 1, 0, 0, 0, 0, 0,
                0, 0, 5, 0,
            ],
        ),
        false,
    ),
    ((&[USERS], &[0, 0, 0, 1, 0, 0, 0, 2, 0, 0]), false),
    // a note whose author isn't there
    (
        (
            &[USERS, NOTES],
            &[
                0, 0, 0, 0, 0, 0, 0, 1, 0, 0, 0, 2, 1, 0, 0, 0, 0, 0, 0, 0, 9, 1, 0, 0, 0, 0, 0, 0,
                0, 5,
            ],
        ),
        false,
    ),
];

/// An area of an image with these creates and rows, which two commits made.
fn area_of(alloc: Global, creates: &[Payload], rows: &[u8]) -> Result<Vec<u8>, AllocError> {
    let mut image = Vec::from_slice(alloc, &[1, 0, 0, 0, 0, 0, 0, 0, 2])?;
    image.extend_from_slice(&count_bytes(creates.len()))?;
    for create in creates {
        let text = bytes_of(alloc, create)?;
        image.extend_from_slice(text.as_slice())?;
    }
    image.extend_from_slice(rows)?;
    let mut area = Vec::from_slice(alloc, &[1, 0, 0, 0, 0, 0, 0, 0, 7])?;
    area.extend_from_slice(&(image.len() as u64).to_be_bytes())?;
    area.extend_from_slice(image.as_slice())?;
    area.push(0)?;
    Ok(area)
}

#[test]
fn images(rt: HostRuntime) {
    for ((creates, rows), lawful) in &IMAGES {
        let area = area_of(rt.alloc(), creates, rows).expect(&rt, "memory");
        let end = (area.len() as u64).wrapping_sub(1);
        let wanted = if *lawful {
            Told::Whole(Area::A, 7, 0, end)
        } else {
            Told::Damaged(Area::A, 17)
        };
        assert_eq!(rt;
            judged(&rt, area.as_slice(), &[]),
            wanted,
            "{creates:?} and {rows:?}"
        );
    }
}
