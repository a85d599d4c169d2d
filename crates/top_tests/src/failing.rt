//! Mode serve over a disk of which one call fails: the call of a session that meets the fault is told it, those behind it are told
//! where it came, and what was answered before it is kept.
use crate::disks::told;
use crate::sessions::{place_and_reply, told_together};
use outer_world::{MemDisk, NowGate};
use std::alloc::AllocGlobal;
use std::mem::drop;
use std::process::Abort;
use std::sync::Wait;
use std::test::Fail;
use std::thread::Threads;

const TABLES: &str =
    "CREATE TABLE one (id INT PRIMARY KEY); CREATE TABLE two (id INT PRIMARY KEY);";

const MADE: &str = "0 3 0 1.1 ok\n1 1.2 ok\n2 1.3 end\n";

const CALLS: &str =
    "INSERT INTO one VALUES (1); INSERT INTO one VALUES (2);\n-- session 2\nINSERT INTO two VALUES (1); INSERT INTO two VALUES (2);\n";

/// How many replies that has.
const REPLIES: usize = 6;

const LOOK: &str = "SELECT id FROM one; SELECT id FROM two;";

/// What sessions over a disk came to.
#[derive(PartialEq, Drop)]
enum Outcome {
    NotOpened,
    Failed,
    Done,
}

/// The place and the reply that a line tells.
fn answer_of(line: &str) -> Option<(u64, &str)> {
    let (place, reply) = place_and_reply(line)?;
    let (_, reply) = reply.split_once(' ')?;
    Some((place, reply))
}

/// The place of the call that met a fault of the disk, if one did.
fn place_of_fault(output: &str) -> Option<u64> {
    for line in output.lines() {
        if let Some((place, reply)) = answer_of(line) {
            if reply == "disk" {
                return Some(place);
            }
        }
    }
    None
}

/// Looks at each reply: one before the fault is made, and one behind it is told its place. How many commits were answered.
fn check_replies(
    rt: &(impl Abort + AllocGlobal),
    output: &str,
    fault: Option<u64>,
) -> Result<usize, Fail> {
    let down = format!(in rt.alloc(); "down {}", fault.unwrap_or(0))?;
    let (mut commits, mut replies) = (0usize, 0usize);
    for line in output.lines() {
        let (place, reply) = answer_of(line).expect(rt, "a reply");
        replies = replies.saturating_add(1);
        if fault.is_some_and(|at| at < place) {
            assert_eq!(rt; reply, down.as_str());
        } else if fault != Some(place) && reply != "end" {
            assert_eq!(rt; reply, "ok 1");
            commits = commits.saturating_add(1);
        }
    }
    assert_eq!(rt; replies, REPLIES);
    Ok(commits)
}

/// How many rows the tables of a disk have.
fn rows_on(rt: &(impl Abort + AllocGlobal), disk: MemDisk) -> Result<usize, Fail> {
    let (seen, disk) = told(rt.alloc(), LOOK, disk)?;
    drop(disk);
    let mut rows = 0usize;
    for line in seen.as_str().lines() {
        if line.starts_with("  ") {
            rows = rows.saturating_add(1);
        }
    }
    Ok(rows)
}

/// Serves two sessions over a disk with both tables, and crashes it: the commits that were answered are there, or with them the
/// one at which the disk failed.
fn check_sessions<Rt: Threads + Wait + Sync + Abort + AllocGlobal>(
    rt: &Rt,
    disk: MemDisk,
    kept: bool,
) -> Result<Outcome, Fail> {
    let (status, output, disk) = told_together(rt, rt.alloc(), CALLS, disk, &NowGate)?;
    if output.as_str().is_empty() {
        assert_eq!(rt; status, 5);
        assert_eq!(rt; rows_on(rt, disk.crash(kept))?, 0);
        return Ok(Outcome::NotOpened);
    }
    let fault = place_of_fault(output.as_str());
    let commits = check_replies(rt, output.as_str(), fault)?;
    let rows = rows_on(rt, disk.crash(kept))?;
    if fault.is_none() {
        assert_eq!(rt; status, 0);
        assert_eq!(rt; rows, 4);
        return Ok(Outcome::Done);
    }
    assert_eq!(rt; status, 5);
    assert!(rt; rows == commits || rows == commits.saturating_add(1));
    Ok(Outcome::Failed)
}

/// Makes the tables on a disk whose call of that number fails, and then serves the sessions over it. None where the tables
/// aren't made.
fn outcome_at<Rt: Threads + Wait + Sync + Abort + AllocGlobal>(
    rt: &Rt,
    call: u32,
    kept: bool,
) -> Result<Option<Outcome>, Fail> {
    let (made, disk) = told(rt.alloc(), TABLES, MemDisk::new(rt.alloc(), &[call])?)?;
    if made.as_str() != MADE {
        drop(disk);
        return Ok(None);
    }
    Ok(Some(check_sessions(rt, disk, kept)?))
}

#[test]
fn the_disk_fails_under_two_sessions(rt: HostRuntime) -> Result<(), Fail> {
    for kept in [true, false] {
        let (mut unopened, mut failed) = (0usize, 0usize);
        let mut done = false;
        for call in 0..64 {
            match outcome_at(&rt, call, kept)? {
                None => {}
                Some(Outcome::NotOpened) => unopened = unopened.saturating_add(1),
                Some(Outcome::Failed) => failed = failed.saturating_add(1),
                Some(Outcome::Done) => done = true,
            }
        }
        assert!(rt; done && unopened > 0 && failed > 3);
    }
    Ok(())
}
