//! Stores that are opened, over areas that were laid by hand, and stopped at each call of the disk.
use crash_recover::{Judged, OpenFault, judge, open_store};
use outer_world::{Disk, FuseDisk, MemDisk};
use own_base::Area;
use std::process::Abort;

/// An area of the empty store: an open gate, the epoch 1, the length 13, the image, a closed gate.
const FIRST: [u8; 31] = [
    1, 0, 0, 0, 0, 0, 0, 0, 1, 0, 0, 0, 0, 0, 0, 0, 13, 1, 0, 0, 0, 0, 0, 0, 0, 0, 0, 0, 0, 0, 0,
];

/// One that five commits made, under the epoch 2.
const SECOND: [u8; 31] = [
    1, 0, 0, 0, 0, 0, 0, 0, 2, 0, 0, 0, 0, 0, 0, 0, 13, 1, 0, 0, 0, 0, 0, 0, 0, 5, 0, 0, 0, 0, 0,
];

/// One of another version.
const DAMAGED: [u8; 31] = [
    1, 0, 0, 0, 0, 0, 0, 0, 1, 0, 0, 0, 0, 0, 0, 0, 13, 3, 0, 0, 0, 0, 0, 0, 0, 0, 0, 0, 0, 0, 0,
];

/// The bytes of two areas.
type Areas = (&'static [u8], &'static [u8]);

/// Areas before a store is opened and after it, and how many commits made it.
const OPENED: [(Areas, Areas, u64); 6] = [
    ((&[], &[]), (&FIRST, &[0]), 0),
    ((&[0, 1, 2], &[1]), (&FIRST, &[0]), 0),
    ((&FIRST, &[]), (&FIRST, &[0]), 0),
    ((&[0], &SECOND), (&[0], &SECOND), 5),
    ((&FIRST, &SECOND), (&[0], &SECOND), 5),
    ((&SECOND, &FIRST), (&SECOND, &[0]), 5),
];

/// A disk of these bytes, all of them durable.
fn disk_of(rt: &(impl Abort + AllocGlobal), areas: &Areas) -> MemDisk {
    let mut disk = MemDisk::new(rt.alloc(), &[]).expect(rt, "memory");
    disk.write_at(Area::A, 0, areas.0).expect(rt, "a write");
    disk.write_at(Area::B, 0, areas.1).expect(rt, "a write");
    disk.crash(true)
}

/// Asks for the bytes of both areas.
fn assert_areas(rt: &(impl Abort + AllocGlobal), disk: &MemDisk, wanted: &Areas) {
    assert_eq!(rt; disk.bytes(Area::A), wanted.0);
    assert_eq!(rt; disk.bytes(Area::B), wanted.1);
}

/// Opens a store, and asks for what is found and what is left.
fn open_case(rt: &(impl Abort + AllocGlobal), case: &(Areas, Areas, u64)) {
    let opened = open_store(rt.alloc(), disk_of(rt, &case.0)).map_err(|_| ());
    let opened = opened.expect(rt, "a store");
    assert_eq!(rt; opened.image.commits, case.2);
    assert_areas(rt, &opened.journal.close(), &case.1);
}

#[test]
fn areas_after_an_opening(rt: HostRuntime) {
    for case in &OPENED {
        open_case(&rt, case);
    }
}

/// What is told of an opening that fails, which leaves the areas.
fn fault_of(rt: &(impl Abort + AllocGlobal), areas: &Areas) -> Option<(Area, u64)> {
    match open_store(rt.alloc(), disk_of(rt, areas)) {
        Err((OpenFault::Damaged { area, offset }, disk)) => {
            assert_areas(rt, &disk, areas);
            Some((area, offset))
        }
        _ => None,
    }
}

/// Areas, and where they are damaged.
const JUDGED: [(Areas, Option<(Area, u64)>); 4] = [
    ((&DAMAGED, &[]), Some((Area::A, 17))),
    ((&[], &DAMAGED), Some((Area::B, 17))),
    ((&FIRST, &FIRST), Some((Area::B, 1))),
    ((&DAMAGED, &SECOND), None),
];

#[test]
fn damaged_areas_are_left(rt: HostRuntime) {
    for case in &JUDGED {
        assert_eq!(rt; fault_of(&rt, &case.0), case.1);
    }
}

/// How many commits made the store of two areas.
fn commits_of(rt: &(impl Abort + AllocGlobal), disk: &MemDisk) -> Option<u64> {
    match judge(rt.alloc(), disk.bytes(Area::A), disk.bytes(Area::B)).expect(rt, "memory") {
        Judged::Empty => Some(0),
        Judged::Whole { image, .. } => Some(image.commits),
        Judged::Damaged { .. } => None,
    }
}

/// Opens a store, with a stop after so many calls of the disk. Gives what a crash leaves then, or None where there was no
/// stop.
fn stopped(
    rt: &(impl Abort + AllocGlobal),
    disk: MemDisk,
    calls: u32,
    kept: bool,
) -> Option<MemDisk> {
    match open_store(rt.alloc(), FuseDisk::new(disk, calls)) {
        Ok(_) => None,
        Err((_, fuse)) => Some(fuse.inner().crash(kept)),
    }
}

/// Stops an opening after so many calls, and another one of what a crash left after as many; the store is the same all
/// along. Answers whether the first came to its end.
fn stop_at(
    rt: &(impl Abort + AllocGlobal),
    areas: &Areas,
    calls: u32,
    kept: bool,
    commits: u64,
) -> bool {
    let Some(left) = stopped(rt, disk_of(rt, areas), calls, kept) else {
        return true;
    };
    assert_eq!(rt;
        commits_of(rt, &left),
        Some(commits),
        "{areas:?} after {calls}"
    );
    if let Some(again) = stopped(rt, left, calls, !kept) {
        assert_eq!(rt;
            commits_of(rt, &again),
            Some(commits),
            "{areas:?} after {calls} twice"
        );
    }
    false
}

#[test]
fn openings_stopped_at_each_call(rt: HostRuntime) {
    for (areas, _, commits) in &OPENED {
        for kept in [false, true] {
            let ended = (0..30).any(|calls| stop_at(&rt, areas, calls, kept, *commits));
            assert!(rt; ended, "{areas:?}");
        }
    }
}
