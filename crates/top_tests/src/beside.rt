//! A look that takes long keeps no other session from committing: it is answered beside it, as its place has it.
use crate::disks::told;
use crate::sessions::{comes, place_and_reply, told_together};
use outer_world::{Gate, Gone, MemDisk};
use own_base::SessionNo;
use std::alloc::{AllocGlobal, Global};
use std::mem::drop;
use std::process::Abort;
use std::sync::Wait;
use std::sync::atomic::{AtomicU64, Ordering};
use std::test::Fail;
use std::thread::Threads;

/// How many rows each table has. A look goes over all pairs of them.
const ROWS: u32 = 1_000;

/// How often it is tried that the look comes first and the commit is answered before it.
const TRIES: u32 = 20;

const TABLES: &str =
    "CREATE TABLE one (id INT PRIMARY KEY, k INT, n INT);\nCREATE TABLE two (id INT PRIMARY KEY, k INT, n INT);\n";

const CALLS: &str =
    "SELECT one.id FROM one JOIN two ON one.k = two.k WHERE one.n < two.n;\n-- session 2\nINSERT INTO one VALUES (1000, 1, 0);\n";

/// What the look is answered without the row of the commit, and with it.
const WITHOUT: &str = "1.1 rows 0";

const WITH: &str = "1.1 rows 1000";

/// A gate at which session 2 waits until session 1 has asked for its look, and that notes whether the commit was answered first.
#[derive(Drop)]
struct Watch {
    asked: AtomicU64,
    looked: AtomicU64,
    commit_first: AtomicU64,
}

impl Gate for Watch {
    fn before(&self, session: SessionNo, _call: u32) -> Gone {
        if session.0 == 1 {
            self.asked.store(1, Ordering::SeqCst);
            return Gone::Passed;
        }
        if comes(&self.asked, 1) {
            Gone::Passed
        } else {
            Gone::Late
        }
    }

    fn after(&self, session: SessionNo, call: u32) {
        if call != 1 {
            return;
        }
        if session.0 == 1 {
            self.looked.store(1, Ordering::SeqCst);
        } else if self.looked.load(Ordering::SeqCst) == 0 {
            self.commit_first.store(1, Ordering::SeqCst);
        }
    }
}

/// An INSERT of all rows of a table.
fn insert(alloc: Global, table: &str) -> Result<String, Fail> {
    let mut text = format!(in alloc; "INSERT INTO {table} VALUES (0, 1, 1)")?;
    for id in 1..ROWS {
        text.push_str(format!(in alloc; ", ({id}, 1, 1)")?.as_str())?;
    }
    text.push_str(";\n")?;
    Ok(text)
}

/// A disk on which both tables are.
fn loaded(alloc: Global) -> Result<MemDisk, Fail> {
    let mut script = String::from_str(alloc, TABLES)?;
    script.push_str(insert(alloc, "one")?.as_str())?;
    script.push_str(insert(alloc, "two")?.as_str())?;
    let (output, disk) = told(alloc, script.as_str(), MemDisk::new(alloc, &[])?)?;
    drop(output);
    Ok(disk)
}

/// The place of the call that was answered so, if one was.
fn place_of(output: &str, wanted: &str) -> Option<u64> {
    for line in output.split('\n') {
        if let Some((place, reply)) = place_and_reply(line) {
            if reply == wanted {
                return Some(place);
            }
        }
    }
    None
}

/// Serves the look and the commit. Each is as its place says; whether the look came first, and the commit was answered before it.
fn commits_meanwhile<Rt: Threads + Wait + Sync + Abort + AllocGlobal>(
    rt: &Rt,
) -> Result<bool, Fail> {
    let gate = Watch {
        asked: AtomicU64::new(0),
        looked: AtomicU64::new(0),
        commit_first: AtomicU64::new(0),
    };
    let disk = loaded(rt.alloc())?;
    let (status, output, disk) = told_together(rt, rt.alloc(), CALLS, disk, &gate)?;
    drop(disk);
    assert_eq!(rt; status, 0);
    let commit = place_of(output.as_str(), "2.1 ok 1").expect(rt, "a commit");
    if let Some(look) = place_of(output.as_str(), WITHOUT) {
        assert!(rt; look < commit);
        return Ok(gate.commit_first.load(Ordering::SeqCst) == 1);
    }
    let look = place_of(output.as_str(), WITH).expect(rt, "a look");
    assert!(rt; commit < look);
    Ok(false)
}

#[test]
fn a_long_look_keeps_nobody_from_committing(rt: HostRuntime) -> Result<(), Fail> {
    for _ in 0..TRIES {
        if commits_meanwhile(&rt)? {
            return Ok(());
        }
    }
    panic!(rt; "each commit waited for the look")
}
