//! The store of a disk: what each of its calls leaves, and what is left where one fails.
ghost use Rattle.std.specs.Prelude.{◌≡◌, false, IfOk};
ghost use Rattle.check_image.specs.Gated.{IsGatedImage};
ghost use Rattle.state_model.specs.Sound.{Sound};
ghost use Rattle.store_disk.specs.Kept.{IsSomeFramed, IsSomeKept};

use check_image::encode;
use commit_record::{record_of_create, record_of_forget};
use commit_replay::Replayed;
use crash_recover::{Judged, OpenFault, judge};
use outer_world::{Disk, MemDisk};
use own_base::{Area, Key, List, RowName, TableNo, Text};
use std::mem::drop;
use std::process::Abort;
use store_disk::{StoreDisk, open_disk};
use store_version::{Shown, Version};

/// The bytes of two areas.
type Areas<'a> = (&'a [u8], &'a [u8]);

/// The text of a CREATE, as a store keeps it.
const USERS: &str = "CREATE DATA_SUBJECT TABLE users ( id INT PRIMARY KEY , name TEXT )";

/// The payload of its record, without its text: the kind, and the length 66.
const CREATE: [u8; 5] = [1, 0, 0, 0, 66];

/// An area of the empty store up to its last gate: an open gate, the epoch 1, the length 13, the image.
const BEGUN: [u8; 30] = [
    1, 0, 0, 0, 0, 0, 0, 0, 1, 0, 0, 0, 0, 0, 0, 0, 13, 1, 0, 0, 0, 0, 0, 0, 0, 0, 0, 0, 0, 0,
];

/// An area of a store that one commit made, up to the text of its table: an open gate, the epoch 2, the length 88; the
/// version, the number of commits, the number of creates, the kind and the length of the text.
const LAID: [u8; 35] = [
    1, 0, 0, 0, 0, 0, 0, 0, 2, 0, 0, 0, 0, 0, 0, 0, 88, 1, 0, 0, 0, 0, 0, 0, 0, 1, 0, 0, 0, 1, 1,
    0, 0, 0, 66,
];

/// The record by which the row 5 of table 0 is forgotten: the length 14, the payload, a closed gate.
const FORGET: [u8; 19] = [0, 0, 0, 14, 4, 0, 0, 0, 0, 1, 0, 0, 0, 0, 0, 0, 0, 5, 0];

/// One list of bytes out of several.
pub fn joined(rt: &(impl Abort + AllocGlobal), parts: &[&[u8]]) -> Vec<u8> {
    let mut bytes = Vec::new(rt.alloc());
    for part in parts {
        bytes.extend_from_slice(part).expect(rt, "memory");
    }
    bytes
}

/// The area of a store whose one commit made the table.
pub fn with_users(rt: &(impl Abort + AllocGlobal)) -> Vec<u8> {
    joined(
        rt,
        &[&BEGUN, &[1, 0, 0, 0, 71], &CREATE, USERS.as_bytes(), &[0]],
    )
}

/// The area of its image.
fn users_laid(rt: &(impl Abort + AllocGlobal)) -> Vec<u8> {
    joined(rt, &[&LAID, USERS.as_bytes(), &[0, 0, 0, 0], &[0]])
}

/// The record of the CREATE.
fn record_of_users(rt: &(impl Abort + AllocGlobal)) -> List<u8>
    ensures { IsSomeFramed result }
{
    let text = Text::from_str(rt.alloc(), USERS).expect(rt, "memory");
    record_of_create(rt.alloc(), false, &text).expect(rt, "a record")
}

/// A disk of these bytes, all of them durable, of which calls of these numbers are to fail; the first four laid it.
pub fn laid(rt: &(impl Abort + AllocGlobal), areas: Areas<'_>, fails: &[u32]) -> MemDisk {
    let mut disk = MemDisk::new(rt.alloc(), fails).expect(rt, "memory");
    disk.write_at(Area::A, 0, areas.0).expect(rt, "a write");
    disk.write_at(Area::B, 0, areas.1).expect(rt, "a write");
    disk.sync(Area::A).expect(rt, "a sync");
    disk.sync(Area::B).expect(rt, "a sync");
    disk
}

/// Opens the store of a disk. None comes where the disk fails, and the disk with it.
fn opened(
    rt: &(impl Abort + AllocGlobal),
    disk: MemDisk,
) -> Result<(StoreDisk<MemDisk>, Replayed), MemDisk>
    ensures kept { IfOk result (λ opened. IsSomeKept ⟦<MemDisk as Disk>⟧.holds ⟦<MemDisk as Disk>⟧.leaves opened.0.journal opened.0.commits) }
    ensures sound { IfOk result (λ opened. opened.0.journal.failed ≡ false) }
{
    match open_disk(rt.alloc(), disk) {
        Ok(opened) => Ok(opened),
        Err((OpenFault::DiskFault, disk)) => Err(disk),
        Err(_) => panic!(rt; "a store that is damaged"),
    }
}

/// What came of a call over a store that is opened for it: whether it was made, which it isn't where the store isn't opened,
/// and the disk.
type Came = (bool, MemDisk);

/// Adds a commit to the store of a disk.
pub fn appended(rt: &(impl Abort + AllocGlobal), disk: MemDisk, framed: &[u8]) -> Came
    requires { IsSomeFramed framed.now }
{
    let (mut store, state) = match opened(rt, disk) {
        Ok(opened) => opened,
        Err(disk) => return (false, disk),
    };
    drop(state);
    let before = store.commits();
    assert!(rt; store.fits(framed.len() as u64));
    let done = store.append(framed).is_ok();
    assert_eq!(rt; store.failed(), !done);
    assert_eq!(rt; store.disk().faults(), if done { 0 } else { 1 });
    assert_eq!(rt; store.commits() > before, done);
    (done, store.close())
}

/// The image of a version that so many commits made, and a closed gate.
fn image_of(rt: &(impl Abort + AllocGlobal), version: &Version, commits: u64) -> List<u8>
    requires { Sound version.now }
    ensures { IsGatedImage version.now commits result }
{
    let shown = Shown { version };
    encode(rt.alloc(), &shown, version.catalog().creates(), commits).expect(rt, "memory")
}

/// Lays the store of a disk anew.
fn replaced(rt: &(impl Abort + AllocGlobal), disk: MemDisk) -> Came {
    let (mut store, state) = match opened(rt, disk) {
        Ok(opened) => opened,
        Err(disk) => return (false, disk),
    };
    let before = store.commits();
    let gated = image_of(rt, state.version(), before);
    drop(state);
    assert!(rt; store.fits(gated.items().len() as u64));
    let done = store.replace(gated.items(), before).is_ok();
    assert_eq!(rt; store.failed(), !done);
    assert_eq!(rt; store.disk().faults(), if done { 0 } else { 1 });
    assert_eq!(rt; store.commits(), before);
    (done, store.close())
}

/// Asks for the bytes of both areas, which a crash leaves, too.
pub fn assert_areas(rt: &(impl Abort + AllocGlobal), disk: MemDisk, wanted: Areas<'_>) -> MemDisk {
    assert_eq!(rt; disk.bytes(Area::A), wanted.0);
    assert_eq!(rt; disk.bytes(Area::B), wanted.1);
    let disk = disk.crash(false);
    assert_eq!(rt; disk.bytes(Area::A), wanted.0);
    assert_eq!(rt; disk.bytes(Area::B), wanted.1);
    disk
}

#[test]
fn calls_of_a_store(rt: HostRuntime) {
    let users = record_of_users(&rt);
    let (done, disk) = appended(&rt, laid(&rt, (&[], &[]), &[]), users.items());
    assert!(rt; done);
    let (area, image) = (with_users(&rt), users_laid(&rt));
    let disk = assert_areas(&rt, disk, (&area, &[0]));
    let (done, disk) = replaced(&rt, disk);
    assert!(rt; done);
    drop(assert_areas(&rt, disk, (&[0], &image)));
}

/// How many commits made the store of two areas.
fn commits_of(rt: &(impl Abort + AllocGlobal), disk: &MemDisk) -> Option<u64> {
    match judge(rt.alloc(), disk.bytes(Area::A), disk.bytes(Area::B)).expect(rt, "memory") {
        Judged::Empty => Some(0),
        Judged::Whole { image, commits, .. } => {
            image.commits.checked_add(commits.items().len() as u64)
        }
        Judged::Damaged { .. } => None,
    }
}

/// Adds the CREATE to the empty store where a call of the disk fails. Answers whether none did.
fn append_stopped(rt: &(impl Abort + AllocGlobal), framed: &[u8], fails: u32, kept: bool) -> bool
    requires { IsSomeFramed framed.now }
{
    let (done, disk) = appended(rt, laid(rt, (&[], &[]), &[fails]), framed);
    match commits_of(rt, &disk.crash(kept)) {
        Some(0) => assert!(rt; !done, "{fails}"),
        Some(1) => {}
        _ => panic!(rt; "a store of one commit, or none"),
    }
    done
}

/// Lays the store anew where a call of the disk fails. Answers whether none did.
fn replace_stopped(rt: &(impl Abort + AllocGlobal), area: &[u8], fails: u32, kept: bool) -> bool {
    let (done, disk) = replaced(rt, laid(rt, (area, &[0]), &[fails]));
    assert_eq!(rt; commits_of(rt, &disk.crash(kept)), Some(1), "{fails}");
    done
}

/// Lets each call of the disk fail, one a time, until none is left that does.
fn append_stops(rt: &(impl Abort + AllocGlobal), framed: &[u8], kept: bool) -> bool
    requires { IsSomeFramed framed.now }
{
    for fails in 4..60 {
        if append_stopped(rt, framed, fails, kept) {
            return true;
        }
    }
    false
}

#[test]
fn calls_of_the_disk_that_fail(rt: HostRuntime) {
    let (users, area) = (record_of_users(&rt), with_users(&rt));
    for kept in [false, true] {
        assert!(rt; append_stops(&rt, users.items(), kept));
        let ended = (4..60).any(|fails| replace_stopped(&rt, &area, fails, kept));
        assert!(rt; ended);
    }
}

#[test]
fn records_of_a_create_and_of_a_forget(rt: HostRuntime) {
    let framed = joined(&rt, &[&[0, 0, 0, 71], &CREATE, USERS.as_bytes(), &[0]]);
    assert_eq!(rt; record_of_users(&rt).items(), framed.as_slice());
    let text = Text::from_str(rt.alloc(), "CREATE").expect(&rt, "memory");
    let view = record_of_create(rt.alloc(), true, &text).expect(&rt, "a record");
    assert_eq!(rt;
        view.items(),
        [0, 0, 0, 11, 2, 0, 0, 0, 6, 67, 82, 69, 65, 84, 69, 0].as_slice()
    );
    let name = RowName {
        table: TableNo(0),
        key: Key::Int(5),
    };
    let forget = record_of_forget(rt.alloc(), &name).expect(&rt, "a record");
    assert_eq!(rt; forget.items(), FORGET.as_slice());
}
