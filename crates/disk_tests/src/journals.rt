ghost use Rattle.std.specs.Prelude.{IfOk, OnOk};
ghost use Rattle.commit_journal.specs.AreaCalls.{AreSynced};
ghost use Rattle.commit_journal.specs.JournalState.{IsAtRest};
ghost use Rattle.disk_model.specs.Area.{IsGated};
ghost use Rattle.disk_model.specs.Records.{IsFramed};

use commit_journal::Journal;
use outer_world::{Disk, Failed, MemDisk};
use own_base::Area;
use own_model::JOURNAL_ROOM;
use std::process::Abort;

/// The image of the empty store, and a closed gate.
const EMPTY: [u8; 14] = [1, 0, 0, 0, 0, 0, 0, 0, 0, 0, 0, 0, 0, 0];

/// The image of two creates, a table and a view, which two commits made, and a closed gate.
const CREATES: [u8; 40] = [
    1, 0, 0, 0, 0, 0, 0, 0, 2, 0, 0, 0, 2, 1, 0, 0, 0, 6, 67, 82, 69, 65, 84, 69, 2, 0, 0, 0, 6,
    67, 82, 69, 65, 84, 69, 0, 0, 0, 0, 0,
];

/// The record by which the row 5 of table 0 is forgotten: the length 14, the payload, a closed gate.
const FORGET: [u8; 19] = [0, 0, 0, 14, 4, 0, 0, 0, 0, 1, 0, 0, 0, 0, 0, 0, 0, 5, 0];

/// The record by which the row (5, 'Ann') is put into table 0: the length 40, the payload, a closed gate.
const INSERT: [u8; 45] = [
    0, 0, 0, 40, 3, 0, 0, 0, 1, 0, 0, 0, 0, 1, 0, 0, 0, 0, 0, 0, 0, 5, 1, 0, 0, 0, 2, 1, 0, 0, 0,
    0, 0, 0, 0, 5, 2, 0, 0, 0, 3, 65, 110, 110, 0,
];

/// An area of the empty store: an open gate, the epoch 1, the length 13, the image, a closed gate.
const BEGUN: [u8; 31] = [
    1, 0, 0, 0, 0, 0, 0, 0, 1, 0, 0, 0, 0, 0, 0, 0, 13, 1, 0, 0, 0, 0, 0, 0, 0, 0, 0, 0, 0, 0, 0,
];

/// The same with the record of the FORGET, behind an open gate.
const FORGOTTEN: [u8; 50] = [
    1, 0, 0, 0, 0, 0, 0, 0, 1, 0, 0, 0, 0, 0, 0, 0, 13, 1, 0, 0, 0, 0, 0, 0, 0, 0, 0, 0, 0, 0, 1,
    0, 0, 0, 14, 4, 0, 0, 0, 0, 1, 0, 0, 0, 0, 0, 0, 0, 5, 0,
];

/// The same with both records.
const INSERTED: [u8; 95] = [
    1, 0, 0, 0, 0, 0, 0, 0, 1, 0, 0, 0, 0, 0, 0, 0, 13, 1, 0, 0, 0, 0, 0, 0, 0, 0, 0, 0, 0, 0, 1,
    0, 0, 0, 14, 4, 0, 0, 0, 0, 1, 0, 0, 0, 0, 0, 0, 0, 5, 1, 0, 0, 0, 40, 3, 0, 0, 0, 1, 0, 0, 0,
    0, 1, 0, 0, 0, 0, 0, 0, 0, 5, 1, 0, 0, 0, 2, 1, 0, 0, 0, 0, 0, 0, 0, 5, 2, 0, 0, 0, 3, 65, 110,
    110, 0,
];

/// An area of two creates: an open gate, the epoch 2, the length 39, the image, a closed gate.
const REPLACED: [u8; 57] = [
    1, 0, 0, 0, 0, 0, 0, 0, 2, 0, 0, 0, 0, 0, 0, 0, 39, 1, 0, 0, 0, 0, 0, 0, 0, 2, 0, 0, 0, 2, 1,
    0, 0, 0, 6, 67, 82, 69, 65, 84, 69, 2, 0, 0, 0, 6, 67, 82, 69, 65, 84, 69, 0, 0, 0, 0, 0,
];

/// The same with the record of the FORGET.
const FORGOTTEN_AGAIN: [u8; 76] = [
    1, 0, 0, 0, 0, 0, 0, 0, 2, 0, 0, 0, 0, 0, 0, 0, 39, 1, 0, 0, 0, 0, 0, 0, 0, 2, 0, 0, 0, 2, 1,
    0, 0, 0, 6, 67, 82, 69, 65, 84, 69, 2, 0, 0, 0, 6, 67, 82, 69, 65, 84, 69, 0, 0, 0, 0, 1, 0, 0,
    0, 14, 4, 0, 0, 0, 0, 1, 0, 0, 0, 0, 0, 0, 0, 5, 0,
];

/// An area of the empty store under the epoch 3.
const THIRD: [u8; 31] = [
    1, 0, 0, 0, 0, 0, 0, 0, 3, 0, 0, 0, 0, 0, 0, 0, 13, 1, 0, 0, 0, 0, 0, 0, 0, 0, 0, 0, 0, 0, 0,
];

/// The area of epoch 1 with the record of the FORGET behind a closed gate.
const SHUT: [u8; 50] = [
    1, 0, 0, 0, 0, 0, 0, 0, 1, 0, 0, 0, 0, 0, 0, 0, 13, 1, 0, 0, 0, 0, 0, 0, 0, 0, 0, 0, 0, 0, 0,
    0, 0, 0, 14, 4, 0, 0, 0, 0, 1, 0, 0, 0, 0, 0, 0, 0, 5, 0,
];

/// A disk of two areas without bytes, of which the calls of these numbers are to fail.
fn new_disk(rt: &(impl Abort + AllocGlobal), fails: &[u32]) -> MemDisk
    ensures { AreSynced ⟦<MemDisk as Disk>⟧.holds ⟦<MemDisk as Disk>⟧.leaves result }
{
    MemDisk::new(rt.alloc(), fails).expect(rt, "memory")
}

/// A disk of these bytes, all of them durable.
fn disk_of(rt: &(impl Abort + AllocGlobal), a: &[u8], b: &[u8]) -> MemDisk
    ensures { AreSynced ⟦<MemDisk as Disk>⟧.holds ⟦<MemDisk as Disk>⟧.leaves result }
{
    let mut disk = MemDisk::new(rt.alloc(), &[]).expect(rt, "memory");
    lay(rt, &mut disk, a, b);
    disk.crash(true)
}

/// Writes the bytes of both areas.
fn lay(rt: &impl Abort, disk: &mut MemDisk, a: &[u8], b: &[u8]) {
    disk.write_at(Area::A, 0, a).expect(rt, "a write");
    disk.write_at(Area::B, 0, b).expect(rt, "a write");
}

/// Begins a journal on a disk whose areas are too short to be opened.
fn begin(disk: MemDisk, gated: &[u8]) -> Result<Journal<MemDisk>, MemDisk>
    requires synced { AreSynced ⟦<MemDisk as Disk>⟧.holds ⟦<MemDisk as Disk>⟧.leaves disk }
    requires gated { IsGated gated.now }
    ensures { IfOk result (IsAtRest ⟦<MemDisk as Disk>⟧.holds ⟦<MemDisk as Disk>⟧.leaves) }
{
    if disk.bytes(Area::A).len() > 17 || disk.bytes(Area::B).len() > 17 || gated.len() > 1_000 {
        return Err(disk);
    }
    Journal::first(disk, gated)
}

/// Begins one of the empty store.
fn begun(rt: &impl Abort, disk: MemDisk) -> Journal<MemDisk>
    requires synced { AreSynced ⟦<MemDisk as Disk>⟧.holds ⟦<MemDisk as Disk>⟧.leaves disk }
    ensures { IsAtRest ⟦<MemDisk as Disk>⟧.holds ⟦<MemDisk as Disk>⟧.leaves result }
{
    begin(disk, &EMPTY).expect(rt, "a journal")
}

/// Adds a record where there is room for it.
fn append(journal: &mut Journal<MemDisk>, framed: &[u8]) -> Result<(), Failed>
    requires rests { IsAtRest ⟦<MemDisk as Disk>⟧.holds ⟦<MemDisk as Disk>⟧.leaves journal.old }
    requires framed { IsFramed framed.now }
    ensures { OnOk result (IsAtRest ⟦<MemDisk as Disk>⟧.holds ⟦<MemDisk as Disk>⟧.leaves journal.new) }
{
    if journal.failed() || !journal.fits(framed.len() as u64) {
        return Err(Failed);
    }
    journal.append(framed)
}

/// Adds the record by which a row is forgotten.
fn forget(rt: &impl Abort, journal: &mut Journal<MemDisk>)
    requires rests { IsAtRest ⟦<MemDisk as Disk>⟧.holds ⟦<MemDisk as Disk>⟧.leaves journal.old }
    ensures { IsAtRest ⟦<MemDisk as Disk>⟧.holds ⟦<MemDisk as Disk>⟧.leaves journal.new }
{
    append(journal, &FORGET).expect(rt, "a record");
}

/// Adds the record by which a row is put.
fn insert(rt: &impl Abort, journal: &mut Journal<MemDisk>)
    requires rests { IsAtRest ⟦<MemDisk as Disk>⟧.holds ⟦<MemDisk as Disk>⟧.leaves journal.old }
    ensures { IsAtRest ⟦<MemDisk as Disk>⟧.holds ⟦<MemDisk as Disk>⟧.leaves journal.new }
{
    append(journal, &INSERT).expect(rt, "a record");
}

/// Begins anew with an image where there is room for it.
fn replace(rt: &impl Abort, journal: &mut Journal<MemDisk>, gated: &[u8])
    requires rests { IsAtRest ⟦<MemDisk as Disk>⟧.holds ⟦<MemDisk as Disk>⟧.leaves journal.old }
    requires gated { IsGated gated.now }
    ensures { IsAtRest ⟦<MemDisk as Disk>⟧.holds ⟦<MemDisk as Disk>⟧.leaves journal.new }
{
    assert!(rt; !journal.failed());
    assert!(rt; journal.fits(gated.len() as u64));
    journal.replace(gated).expect(rt, "an image");
}

/// Lends the bytes of an area.
fn bytes_of(disk: &MemDisk, area: Area) -> &[u8] {
    disk.bytes(area)
}

/// Compares the bytes of both areas.
fn assert_areas(rt: &impl Abort, disk: &MemDisk, a: &[u8], b: &[u8]) {
    assert_eq!(rt; bytes_of(disk, Area::A), a);
    assert_eq!(rt; bytes_of(disk, Area::B), b);
}

/// So many bytes more have room, and none above.
fn assert_room(rt: &impl Abort, journal: &Journal<MemDisk>, most: u64) {
    assert!(rt; journal.fits(most) && !journal.fits(most.saturating_add(1)));
}

#[test]
fn records_are_added_one_behind_another(rt: HostRuntime) {
    let mut journal = begun(&rt, new_disk(&rt, &[]));
    assert_areas(&rt, journal.disk(), &BEGUN, &[0]);
    assert_room(&rt, &journal, JOURNAL_ROOM - 30);
    forget(&rt, &mut journal);
    assert_areas(&rt, journal.disk(), &FORGOTTEN, &[0]);
    insert(&rt, &mut journal);
    assert_areas(&rt, journal.disk(), &INSERTED, &[0]);
    assert_room(&rt, &journal, JOURNAL_ROOM - 94);
    assert!(rt; !journal.failed() && journal.disk().faults() == 0);
    assert_areas(&rt, &journal.close(), &INSERTED, &[0]);
}

#[test]
fn an_image_takes_the_place_of_what_was_there(rt: HostRuntime) {
    let mut journal = begun(&rt, new_disk(&rt, &[]));
    forget(&rt, &mut journal);
    replace(&rt, &mut journal, &CREATES);
    assert_areas(&rt, journal.disk(), &[0], &REPLACED);
    forget(&rt, &mut journal);
    assert_areas(&rt, journal.disk(), &[0], &FORGOTTEN_AGAIN);
    replace(&rt, &mut journal, &EMPTY);
    assert_areas(&rt, journal.disk(), &THIRD, &[0]);
}

/// What both areas hold where neither is opened.
const NOT_OPENED: [(&[u8], &[u8]); 3] = [
    (&[], &[1]),
    (&[1, 0, 0, 0], &[0]),
    (&[9], &[1, 1, 1, 1, 1, 1, 1, 1, 1, 1, 1, 1, 1, 1, 1, 1, 1]),
];

#[test]
fn a_journal_begins_over_areas_that_are_not_opened(rt: HostRuntime) {
    for (a, b) in &NOT_OPENED {
        let journal = begun(&rt, disk_of(&rt, a, b));
        assert_areas(&rt, journal.disk(), &BEGUN, &[0]);
    }
}

/// What the area beside an opened one holds; the last of it is of a lower epoch.
const BESIDE: [&[u8]; 4] = [&[], &[1], &[0, 1, 0, 0, 0], &FORGOTTEN];

/// Goes on with the journal of an area of two creates.
fn resumed(rt: &impl Abort, disk: MemDisk) -> Journal<MemDisk>
    requires synced { AreSynced ⟦<MemDisk as Disk>⟧.holds ⟦<MemDisk as Disk>⟧.leaves disk }
{
    Journal::resume(disk, Area::B, 2, 56).expect(rt, "a journal")
}

#[test]
fn the_other_area_becomes_one_closed_gate(rt: HostRuntime) {
    for other in &BESIDE {
        let journal = resumed(&rt, disk_of(&rt, other, &REPLACED));
        assert_areas(&rt, journal.disk(), &[0], &REPLACED);
        assert_room(&rt, &journal, JOURNAL_ROOM - 56);
        assert!(rt; !journal.failed());
    }
}

/// The disk after a record was added over one whose call of a number failed, where that was a call for the record.
fn after_fault(rt: &(impl Abort + AllocGlobal), number: u32) -> Option<MemDisk> {
    let Ok(mut journal) = begin(new_disk(rt, &[number]), &EMPTY) else {
        return None;
    };
    if append(&mut journal, &FORGET).is_ok() || !journal.failed() || journal.disk().faults() != 1 {
        return None;
    }
    Some(journal.close())
}

/// What stands in area A after the first, second .. call for the record has failed, and what a crash then leaves of it
/// that loses all that isn't durable: the record is written, made durable, its gate opened, and that made durable.
const LEFT: [(&[u8], &[u8]); 4] = [
    (&BEGUN, &BEGUN),
    (&SHUT, &BEGUN),
    (&SHUT, &SHUT),
    (&FORGOTTEN, &SHUT),
];

/// Compares a disk with what has to be left after so many calls for the record and one that failed.
fn assert_left(rt: &impl Abort, disk: MemDisk, calls: usize) {
    let (now, durable) = LEFT.get(calls).expect(rt, "no more calls for a record");
    assert_areas(rt, &disk, now, &[0]);
    assert_areas(rt, &disk.crash(false), durable, &[0]);
}

#[test]
fn a_record_is_durable_before_its_gate_opens(rt: HostRuntime) {
    let mut calls: usize = 0;
    for number in 0..30 {
        if let Some(disk) = after_fault(&rt, number) {
            assert_left(&rt, disk, calls);
            calls = calls.saturating_add(1);
        }
    }
    assert_eq!(rt; calls, LEFT.len());
}
