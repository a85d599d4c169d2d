//! What writes change, and what is judged of a store by their changes.
ghost use Rattle.std.specs.Prelude.{◌≡◌};
ghost use Rattle.commit_check.specs.declared.judged.Judged.TheVariants.{Weighs};
ghost use Rattle.move_model.specs.Moves.{AreMovesOf};
ghost use Rattle.run_model.specs.Run.{run_bound};
ghost use Rattle.state_model.specs.Net.{net};
ghost use Rattle.state_model.specs.Put.{put};
ghost use Rattle.state_model.specs.Sound.{IsWellFormed, Sound};
ghost use Rattle.state_model.specs.Weight.{weight};
ghost use Rattle.write_eval.specs.Write.{IsWrite};
ghost use Rattle.state_tests.specs.Asked.{IsMeant};

use crate::changes::{check_names, rows_left};
use crate::kept::{bound, written};
use crate::store::{Store, judged, judged_now, store_of};
use crate::texts::{check_lines, read};
use commit_check::Judged;
use commit_judge::judge_by;
use commit_record::record_of_changes;
use move_model::OwnerMove;
use own_base::Change;
use own_model::{Bound, Reply};
use std::mem::drop;
use std::process::Abort;
use store_version::{Next, Shown, Version, prepare};
use write_eval::{Written, write_changes};

const STORE: &str = "\
CREATE TABLE acc (id INT PRIMARY KEY, n INT)
INSERT INTO acc VALUES (1, 10), (2, NULL), (3, 30)";

/// A write and its reply. Where it is made: the rows that it puts or meets, and what is left of them; the net of that; and of
/// the net its bytes and what the store weighs behind it, where a row weighs 128.
struct Case {
    write: &'static str,
    reply: &'static str,
    met: &'static [(u32, i64)],
    left: &'static str,
    net: &'static [(u32, i64)],
    bytes: u64,
    weighs: u64,
}

const CASES: [Case; 5] = [
    Case {
        write: "INSERT INTO acc VALUES (9, 1), (4, NULL)",
        reply: "ok 2",
        met: &[(0, 4), (0, 9)],
        left: "rows 2 / 4|NULL / 9|1",
        net: &[(0, 4), (0, 9)],
        bytes: 69,
        weighs: 640,
    },
    Case {
        write: "UPDATE acc SET n = n + 1 WHERE id >= 2",
        reply: "ok 2",
        met: &[(0, 2), (0, 3)],
        left: "rows 2 / 2|NULL / 3|31",
        net: &[(0, 3)],
        bytes: 41,
        weighs: 384,
    },
    Case {
        write: "DELETE FROM acc WHERE n IS NULL OR id = 3",
        reply: "ok 2",
        met: &[(0, 2), (0, 3)],
        left: "rows 0",
        net: &[(0, 2), (0, 3)],
        bytes: 33,
        weighs: 128,
    },
    Case {
        write: "INSERT INTO acc VALUES (5, 0), (3, 0)",
        reply: "refused duplicate acc 3",
        met: &[],
        left: "",
        net: &[],
        bytes: 0,
        weighs: 0,
    },
    Case {
        write: "UPDATE acc SET n = n + 9223372036854775807",
        reply: "refused range n",
        met: &[],
        left: "",
        net: &[],
        bytes: 0,
        weighs: 0,
    },
];

/// Looks at what a write that is made puts or meets.
fn check_written(rt: &(impl Abort + AllocGlobal), written: Written, case: &Case) {
    let Written { count, changes } = written;
    check_names(rt, &changes, case.met);
    let left = rows_left(rt.alloc(), changes).expect(rt, "memory");
    check_lines(rt, left, case.left);
    check_lines(rt, Reply::Counted(count), case.reply)
}

/// Looks at what a write changes.
fn check_write(rt: &(impl Abort + AllocGlobal), version: &Version, bound: &Bound, case: &Case)
    requires sound { Sound version.now }
    requires write { IsWrite version.now.schema bound.now }
{
    let shown = Shown { version };
    match write_changes(rt.alloc(), &shown, bound) {
        Ok(written) => check_written(rt, written, case),
        Err(why) => check_lines(rt, Reply::Refused(why), case.reply),
    }
}

/// What a store weighs that is judged to have no fault.
fn weight_in(rt: &impl Abort, judged: Judged) -> u64
    ensures { judged ≡ Weighs result }
{
    match judged {
        Judged::Weighs(weighs) => weighs,
        Judged::Fault(why) => panic!(rt; "{why:?}"),
    }
}

/// What a store without a fault weighs.
fn weight(rt: &(impl Abort + AllocGlobal), version: &Version) -> u64
    requires { Sound version.now }
    ensures { weight version.now ≡ result }
{
    weight_in(rt, judged_now(rt, version))
}

/// What is judged of a version by the changes that lead to it.
fn weight_by_changes(
    rt: &(impl Abort + AllocGlobal),
    version: &Version,
    next: &Next,
    changes: &[Change],
    moves: &[OwnerMove],
) -> u64
    requires sound { Sound version.now }
    requires net { changes.now ≡ net version.now (put version.now changes.now) }
    requires well_formed { IsWellFormed next.now }
    requires next { next.now ≡ put version.now changes.now }
    requires moves { AreMovesOf version.now (put version.now changes.now) moves.now }
{
    let before = weight(rt, version);
    let shown = Shown { version };
    let left = Shown {
        version: next.version(),
    };
    let judged = judge_by(rt.alloc(), &shown, &left, before, changes, moves);
    weight_in(rt, judged.expect(rt, "memory"))
}

/// Looks at what is judged of a version behind the net of a write, and at the bytes of that.
fn check_next(
    rt: &(impl Abort + AllocGlobal),
    version: &Version,
    next: &Next,
    changes: &[Change],
    moves: &[OwnerMove],
    case: &Case,
)
    requires sound { Sound version.now }
    requires net { changes.now ≡ net version.now (put version.now changes.now) }
    requires well_formed { IsWellFormed next.now }
    requires next { next.now ≡ put version.now changes.now }
    requires moves { AreMovesOf version.now (put version.now changes.now) moves.now }
{
    let whole = weight_in(rt, judged(rt, next));
    assert_eq!(rt; whole, case.weighs);
    if changes.is_empty() {
        panic!(rt; "nothing is changed");
    }
    // Before its payload a record has four bytes for the length, and behind it a gate.
    let record = record_of_changes(rt.alloc(), changes).expect(rt, "a record");
    let payload = (record.items().len() as u64).checked_sub(5);
    assert_eq!(rt; payload, Some(case.bytes));
    let alone = weight_by_changes(rt, version, next, changes, moves);
    assert_eq!(rt; alone, case.weighs);
}

/// Looks at the net of a write.
fn check_net(rt: &(impl Abort + AllocGlobal), version: &Version, bound: &Bound, case: &Case)
    requires sound { Sound version.now }
    requires write { IsWrite version.now.schema bound.now }
    requires well_formed { IsWellFormed (run_bound version.now bound.now).db }
{
    let changes = written(rt, version, bound);
    check_names(rt, &changes, case.net);
    let (next, moves) = prepare(rt.alloc(), version, changes.items()).expect(rt, "memory");
    check_next(rt, version, &next, changes.items(), moves.items(), case);
    drop(moves);
    drop(next);
    drop(changes);
}

/// Makes a bound write. One that is refused has no net.
fn check_bound(rt: &(impl Abort + AllocGlobal), version: &Version, bound: &Bound, case: &Case)
    requires sound { Sound version.now }
    requires meant { IsMeant version.now.schema bound.now }
    requires well_formed { IsWellFormed (run_bound version.now bound.now).db }
{
    match bound {
        Bound::Insert { .. } | Bound::Update { .. } | Bound::Delete { .. } => {
            check_write(rt, version, bound, case);
            if case.net.is_empty() {
                return;
            }
            check_net(rt, version, bound, case)
        }
        _ => panic!(rt; "no write"),
    }
}

/// Makes the write of a case.
fn check_case(rt: &(impl Abort + AllocGlobal), store: &Store, case: &Case) {
    let version = store.version();
    let statement = read(rt, case.write);
    let bound = bound(rt, version, &statement);
    drop(statement);
    check_bound(rt, version, &bound, case);
    drop(bound);
}

#[test]
fn writes_change_rows(rt: HostRuntime) {
    let store = store_of(&rt, STORE);
    for case in &CASES {
        check_case(&rt, &store, case);
    }
}
