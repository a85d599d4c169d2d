//! Records of what writes change, and the state that is opened with them.
ghost use Rattle.std.specs.Prelude.{◌≡◌, MatchBool, ⊤};
ghost use Rattle.own_model.specs.declared.limit.TheConstants.{STATEMENT_BYTES as BYTES};
ghost use Rattle.grammar_model.specs.Readable.{IsWritten};
ghost use Rattle.state_model.specs.Net.{net};
ghost use Rattle.state_model.specs.Put.{put};
ghost use Rattle.state_model.specs.Sound.{IsWellFormed, Sound};
ghost use Rattle.run_model.specs.Run.{run_bound};
ghost use Rattle.write_eval.specs.Write.{IsWrite};
ghost use Rattle.commit_check.specs.Judged.{IsJudged};
ghost use Rattle.store_disk.specs.Kept.{IsSomeFramed};
ghost use Rattle.disk_tests.specs.RowWrites.{IsRowWrite};

use crate::storing::{appended, assert_areas, joined, laid, with_users};
use commit_check::{Judged, judge_flat};
use commit_record::record_of_changes;
use outer_world::MemDisk;
use own_base::{Change, List, SessionNo};
use own_model::{Bound, STATEMENT_BYTES, Statement};
use plan_bind::bind;
use sql_reader::read_statement;
use std::mem::drop;
use std::process::Abort;
use store_disk::open_disk;
use store_version::{Next, Shown, Version, prepare};
use txn_core::Txns;

/// The statement that a text is.
fn read(rt: &(impl Abort + AllocGlobal), text: &str) -> Statement
    ensures { IsWritten BYTES result }
{
    assert!(rt; text.len() <= STATEMENT_BYTES);
    read_statement(rt.alloc(), text).expect(rt, "a statement")
}

/// Whether a statement is a write of rows.
fn is_write(statement: &Statement) -> bool
    ensures { MatchBool result (IsRowWrite statement.now) ⊤ }
{
    matches!(
        statement,
        Statement::Insert { .. } | Statement::Update { .. } | Statement::Delete { .. }
    )
}

/// What a write means.
fn bound(rt: &(impl Abort + AllocGlobal), version: &Version, statement: &Statement) -> Bound
    requires well_formed { IsWellFormed version.now }
    requires written { IsWritten BYTES statement.now }
    ensures write { IsWrite version.now.schema result }
    ensures well_formed { IsWellFormed (run_bound version.now result).db }
{
    if !is_write(statement) {
        panic!(rt; "no write");
    }
    match bind(rt.alloc(), version.catalog().schema(), statement) {
        Ok(bound) => bound,
        Err(_) => panic!(rt; "a statement that is refused"),
    }
}

/// The net of what a write changes.
fn written(rt: &(impl Abort + AllocGlobal), version: &Version, bound: &Bound) -> List<Change>
    requires sound { Sound version.now }
    requires write { IsWrite version.now.schema bound.now }
    ensures net { result ≡ net version.now (put version.now result) }
    ensures left { (run_bound version.now bound.now).db ≡ put version.now result }
{
    let txns = Txns::new(rt.alloc()).expect(rt, "memory");
    let shown = Shown { version };
    let single = txns.single(rt.alloc(), &shown, SessionNo(1), bound);
    drop(txns);
    match single {
        Ok((_, changes)) => changes,
        Err(_) => panic!(rt; "a write that is refused"),
    }
}

/// What is judged of a version that is prepared.
fn judged(rt: &(impl Abort + AllocGlobal), next: &Next) -> Judged
    requires { IsWellFormed next.now }
    ensures { IsJudged next.now result }
{
    let shown = Shown {
        version: next.version(),
    };
    judge_flat(rt.alloc(), &shown).expect(rt, "memory")
}

/// Asks that changes leave no fault.
fn assert_sound(rt: &(impl Abort + AllocGlobal), version: &Version, changes: &[Change])
    requires sound { Sound version.now }
    requires net { changes.now ≡ net version.now (put version.now changes.now) }
    requires well_formed { IsWellFormed (put version.now changes.now) }
    ensures { Sound (put version.now changes.now) }
{
    let (next, moves) = prepare(rt.alloc(), version, changes).expect(rt, "memory");
    drop(moves);
    match judged(rt, &next) {
        Judged::Weighs(_) => {}
        Judged::Fault(_) => panic!(rt; "a fault"),
    }
}

/// The record of changes that leave no fault.
fn recorded(rt: &(impl Abort + AllocGlobal), version: &Version, changes: &[Change]) -> List<u8>
    requires sound { Sound version.now }
    requires net { changes.now ≡ net version.now (put version.now changes.now) }
    requires left { Sound (put version.now changes.now) }
    ensures { IsSomeFramed result }
{
    assert!(rt; !changes.is_empty());
    record_of_changes(rt.alloc(), changes).expect(rt, "a record")
}

/// The record of a write over a version.
fn record_of(rt: &(impl Abort + AllocGlobal), version: &Version, text: &str) -> List<u8>
    requires { Sound version.now }
    ensures { IsSomeFramed result }
{
    let statement = read(rt, text);
    let bound = bound(rt, version, &statement);
    drop(statement);
    let changes = written(rt, version, &bound);
    drop(bound);
    assert_sound(rt, version, changes.items());
    recorded(rt, version, changes.items())
}

/// The record of a write over the store of a disk, and the disk.
fn record_over(rt: &(impl Abort + AllocGlobal), disk: MemDisk, text: &str) -> (List<u8>, MemDisk)
    ensures { IsSomeFramed result.0 }
{
    match open_disk(rt.alloc(), disk) {
        Ok((store, state)) => {
            let framed = record_of(rt, state.version(), text);
            drop(state);
            (framed, store.close())
        }
        Err(_) => panic!(rt; "no store"),
    }
}

/// What the store of a disk weighs, and the disk.
fn weight_of(rt: &(impl Abort + AllocGlobal), disk: MemDisk) -> (u64, MemDisk) {
    match open_disk(rt.alloc(), disk) {
        Ok((store, state)) => {
            let (version, weighs) = state.into_parts();
            drop(version);
            (weighs, store.close())
        }
        Err(_) => panic!(rt; "no store"),
    }
}

/// Writes, the records of what they change, and what the rows that they leave weigh.
const WRITES: [(&str, &[u8], u64); 3] = [
    (
        "INSERT INTO users VALUES (5, 'Ann')",
        &[
            0, 0, 0, 40, 3, 0, 0, 0, 1, 0, 0, 0, 0, 1, 0, 0, 0, 0, 0, 0, 0, 5, 1, 0, 0, 0, 2, 1, 0,
            0, 0, 0, 0, 0, 0, 5, 2, 0, 0, 0, 3, 65, 110, 110, 0,
        ],
        131,
    ),
    (
        "UPDATE users SET name = NULL",
        &[
            0, 0, 0, 33, 3, 0, 0, 0, 1, 0, 0, 0, 0, 1, 0, 0, 0, 0, 0, 0, 0, 5, 1, 0, 0, 0, 2, 1, 0,
            0, 0, 0, 0, 0, 0, 5, 0, 0,
        ],
        128,
    ),
    (
        "DELETE FROM users WHERE id > 4",
        &[
            0, 0, 0, 19, 3, 0, 0, 0, 1, 0, 0, 0, 0, 1, 0, 0, 0, 0, 0, 0, 0, 5, 0, 0,
        ],
        0,
    ),
];

/// Makes a write over the store of a disk whose area has these bytes. Gives the bytes that it has then, and the disk.
fn write_case(
    rt: &(impl Abort + AllocGlobal),
    disk: MemDisk,
    area: &[u8],
    case: &(&str, &[u8], u64),
) -> (Vec<u8>, MemDisk) {
    let (framed, disk) = record_over(rt, disk, case.0);
    assert_eq!(rt; framed.items(), case.1);
    let (done, disk) = appended(rt, disk, framed.items());
    assert!(rt; done);
    let (_, before) = area.split_last().expect(rt, "a gate");
    let left = joined(rt, &[before, &[1], case.1]);
    let disk = assert_areas(rt, disk, (&left, &[0]));
    let (weighs, disk) = weight_of(rt, disk);
    assert_eq!(rt; weighs, case.2);
    (left, disk)
}

#[test]
fn writes_are_kept(rt: HostRuntime) {
    let mut area = with_users(&rt);
    let mut disk = laid(&rt, (&area, &[]), &[]);
    for case in &WRITES {
        (area, disk) = write_case(&rt, disk, &area, case);
    }
    drop(disk);
}
