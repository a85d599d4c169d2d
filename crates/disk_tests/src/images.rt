ghost use Rattle.std.specs.Prelude.{◌≡◌, []};
ghost use Rattle.state_model.specs.Sound.{Sound};

use check_image::{decode, encode};
use disk_model::Image;
use own_base::{List, Row, Value};
use own_model::CreateText;
use state_model::laws::empty_database_is_sound;
use std::mem::drop;
use std::process::Abort;
use store_version::{Shown, Version};

/// The image of no table that no commit made.
const EMPTY: [u8; 13] = [1, 0, 0, 0, 0, 0, 0, 0, 0, 0, 0, 0, 0];

/// The image of a view and a table, in that order, and the row (5) of the table, which two commits made.
const ONE_ROW: [u8; 42] = [
    1, 0, 0, 0, 0, 0, 0, 0, 2, 0, 0, 0, 2, 2, 0, 0, 0, 1, 86, 1, 0, 0, 0, 1, 84, 0, 0, 0, 1, 0, 0,
    0, 1, 1, 0, 0, 0, 0, 0, 0, 0, 5,
];

/// The image that the bytes are.
fn decoded(rt: &(impl Abort + AllocGlobal), bytes: &[u8]) -> Image {
    let image = decode(rt.alloc(), bytes).expect(rt, "memory");
    image.expect(rt, "an image")
}

#[test]
fn the_empty_image_is_decoded(rt: HostRuntime) {
    let image = decoded(&rt, &EMPTY);
    assert_eq!(rt; image.commits, 0);
    assert!(rt; image.creates.items().is_empty());
    assert!(rt; image.tables.items().is_empty());
}

/// Whether these are a view and a table, by the texts V and T.
fn are_view_and_table(creates: &[CreateText]) -> bool {
    match creates {
        [view, table] => {
            view.view && view.text.as_str() == "V" && !table.view && table.text.as_str() == "T"
        }
        _ => false,
    }
}

/// Whether a row is (5).
fn is_five(row: &Row) -> bool {
    matches!(row.values(), [Value::Int(5)])
}

/// Whether the rows are one row (5) of one table.
fn are_one_row(tables: &[List<Row>]) -> bool {
    match tables {
        [rows] => match rows.items() {
            [row] => is_five(row),
            _ => false,
        },
        _ => false,
    }
}

#[test]
fn an_image_of_a_row_is_decoded(rt: HostRuntime) {
    let image = decoded(&rt, &ONE_ROW);
    assert_eq!(rt; image.commits, 2);
    assert!(rt; are_view_and_table(image.creates.items()));
    assert!(rt; are_one_row(image.tables.items()));
}

/// Bytes that are no image.
const NO_IMAGES: [&[u8]; 6] = [
    // no byte
    &[],
    // other versions
    &[0, 0, 0, 0, 0, 0, 0, 0, 0, 0, 0, 0, 0],
    &[2, 0, 0, 0, 0, 0, 0, 0, 0, 0, 0, 0, 0],
    // a commit too many
    &[1, 64, 0, 0, 0, 0, 0, 0, 1, 0, 0, 0, 0],
    // a create of no kind
    &[1, 0, 0, 0, 0, 0, 0, 0, 1, 0, 0, 0, 1, 3, 0, 0, 0, 0],
    // a table without its rows
    &[1, 0, 0, 0, 0, 0, 0, 0, 1, 0, 0, 0, 1, 1, 0, 0, 0, 0],
];

/// The bytes aren't decoded.
fn assert_none(rt: &(impl Abort + AllocGlobal), bytes: &[u8]) {
    let image = decode(rt.alloc(), bytes).expect(rt, "memory");
    assert!(rt; image.is_none(), "at {bytes:?}");
}

/// The image of a row, and a byte behind it.
fn longer(rt: &(impl Abort + AllocGlobal)) -> Vec<u8> {
    let mut bytes = Vec::from_slice(rt.alloc(), &ONE_ROW).expect(rt, "memory");
    bytes.push(0).expect(rt, "memory");
    bytes
}

#[test]
fn images_that_are_none(rt: HostRuntime) {
    // a byte less and a byte more
    assert_none(&rt, &ONE_ROW[..41]);
    assert_none(&rt, &longer(&rt));
    for bytes in &NO_IMAGES {
        assert_none(&rt, bytes);
    }
}

#[test]
fn as_many_commits_as_there_is_room_for(rt: HostRuntime) {
    let image = decoded(&rt, &[1, 64, 0, 0, 0, 0, 0, 0, 0, 0, 0, 0, 0]);
    assert_eq!(rt; image.commits, 4_611_686_018_427_387_904);
}

/// The image of a version that no CREATE made and no commit.
fn image_of(rt: &(impl Abort + AllocGlobal), version: &Version) -> List<u8>
    requires sound { Sound version.now }
    requires creates { version.now.creates ≡ [] }
{
    let shown = Shown { version };
    encode(rt.alloc(), &shown, &[], 0).expect(rt, "memory")
}

#[test]
fn a_store_without_tables_is_encoded(rt: HostRuntime) {
    empty_database_is_sound();
    let version = Version::new(rt.alloc()).expect(&rt, "memory");
    let gated = image_of(&rt, &version);
    drop(version);
    assert_eq!(rt; gated.items().len(), 14);
    assert!(rt; gated.items().starts_with(&EMPTY));
    assert!(rt; gated.items().ends_with(&[0]));
}
