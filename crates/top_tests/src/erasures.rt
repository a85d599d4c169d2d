//! What an erasure leaves on the disk, wherever the disk stops on its way.
use crate::disks::told;
use outer_world::{FuseDisk, MemDisk};
use own_base::Area;
use std::alloc::Global;
use std::mem::drop;
use std::process::Abort;
use std::test::Fail;

const SCRIPT: &str =
    "CREATE DATA_SUBJECT TABLE users (id INT PRIMARY KEY, name TEXT); CREATE TABLE msgs (id INT PRIMARY KEY, sender INT OWNED_BY users(id), receiver INT OWNED_BY users(id), body TEXT, note TEXT, ON GET receiver ANON (note), ON DEL sender ANON (note)); INSERT INTO users VALUES (5, 'Ann'), (7, 'Bob'); INSERT INTO msgs VALUES (9, 5, 7, 'hi', 'draft');";

/// The same, with another text in a column that the erasure takes away.
const OTHER: &str =
    "CREATE DATA_SUBJECT TABLE users (id INT PRIMARY KEY, name TEXT); CREATE TABLE msgs (id INT PRIMARY KEY, sender INT OWNED_BY users(id), receiver INT OWNED_BY users(id), body TEXT, note TEXT, ON GET receiver ANON (note), ON DEL sender ANON (note)); INSERT INTO users VALUES (5, 'Ann'), (7, 'Bob'); INSERT INTO msgs VALUES (9, 5, 7, 'hi', 'other');";

const FORGET: &str = "GDPR FORGET users 5;";

const LOOK: &str = "SELECT id FROM users;";

/// What is seen before the erasure, and after it.
const BEFORE: &str = "0 2 0 1.1 rows 2\n  5\n  7\n1 1.2 end\n";

const AFTER: &str = "0 2 0 1.1 rows 1\n  7\n1 1.2 end\n";

/// An erasure makes so many calls of the disk.
const CALLS: u32 = 9;

/// What is seen where a crash keeps what wasn't durable, and where it loses that, after so many of these calls.
const SEEN: [(&str, &str); 10] = [
    (BEFORE, BEFORE),
    (BEFORE, BEFORE),
    (BEFORE, BEFORE),
    (BEFORE, BEFORE),
    (AFTER, BEFORE),
    (AFTER, AFTER),
    (AFTER, AFTER),
    (AFTER, AFTER),
    (AFTER, AFTER),
    (AFTER, AFTER),
];

/// A disk in memory on which a script was run, and then another one over what the first left.
fn served(alloc: Global, script: &str, then: &str) -> Result<MemDisk, Fail> {
    let (output, disk) = told(alloc, script, MemDisk::new(alloc, &[])?)?;
    drop(output);
    let (output, disk) = told(alloc, then, disk)?;
    drop(output);
    Ok(disk)
}

/// How many calls of the disk an empty run over a store makes: those of an opening.
fn calls_of_opening(rt: &(impl Abort + AllocGlobal)) -> Result<u32, Fail> {
    for calls in 0..64 {
        let disk = served(rt.alloc(), SCRIPT, "")?;
        let (output, disk) = told(rt.alloc(), LOOK, FuseDisk::new(disk, calls))?;
        drop(disk);
        if output.as_str() == BEFORE {
            return Ok(calls);
        }
    }
    panic!(rt; "no opening ended")
}

/// What is seen after a run of the erasure whose disk passed so many calls, and a crash.
fn seen_after(alloc: Global, calls: u32, keeps: bool) -> Result<String, Fail> {
    let disk = served(alloc, SCRIPT, "")?;
    let (output, fuse) = told(alloc, FORGET, FuseDisk::new(disk, calls))?;
    drop(output);
    let (output, disk) = told(alloc, LOOK, fuse.inner().crash(keeps))?;
    drop(disk);
    Ok(output)
}

#[test]
fn an_erasure_is_there_whole_or_not_at_all(rt: HostRuntime) -> Result<(), Fail> {
    let opening = calls_of_opening(&rt)?;
    for (calls, (kept, lost)) in (0..CALLS + 1).zip(SEEN) {
        let calls = opening.saturating_add(calls);
        let seen = seen_after(rt.alloc(), calls, true)?;
        assert_eq!(rt; seen.as_str(), kept);
        let seen = seen_after(rt.alloc(), calls, false)?;
        assert_eq!(rt; seen.as_str(), lost);
    }
    Ok(())
}

#[test]
fn an_erasure_leaves_an_image_alone(rt: HostRuntime) -> Result<(), Fail> {
    let disk = served(rt.alloc(), SCRIPT, FORGET)?;
    assert_eq!(rt; disk.bytes(Area::A), [0].as_slice());
    let bytes = disk.bytes(Area::B);
    assert_eq!(rt;
        bytes.get(..9),
        Some([1, 0, 0, 0, 0, 0, 0, 0, 2].as_slice())
    );
    assert_eq!(rt;
        bytes.get(17..26),
        Some([1, 0, 0, 0, 0, 0, 0, 0, 5].as_slice())
    );
    drop(disk);
    Ok(())
}

#[test]
fn nothing_tells_what_was_erased(rt: HostRuntime) -> Result<(), Fail> {
    let one = served(rt.alloc(), SCRIPT, FORGET)?;
    let other = served(rt.alloc(), OTHER, FORGET)?;
    for area in [Area::A, Area::B] {
        assert_eq!(rt; one.bytes(area), other.bytes(area));
    }
    drop(one);
    drop(other);
    Ok(())
}
