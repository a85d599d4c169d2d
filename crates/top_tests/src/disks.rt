use outer_world::{Disk, FuseDisk, MemDisk, MemSink, MemSource};
use own_base::Area;
use std::alloc::Global;
use std::mem::drop;
use std::process::Abort;
use std::test::Fail;
use store_top::{Served, TopFault, step};

const FIRST: &str =
    "CREATE DATA_SUBJECT TABLE users (id INT PRIMARY KEY, name TEXT); INSERT INTO users VALUES (5, 'Ann'); SELECT * FROM users;";

/// A run over an empty disk, and one over the disk that came back: their inputs, and then the output of each that is wanted.
struct Pair {
    first: &'static str,
    output: &'static str,
    second: &'static str,
    then: &'static str,
}

const PAIRS: [Pair; 3] = [
    Pair {
        first: FIRST,
        output: "0 4 0 1.1 ok\n1 1.2 ok 1\n2 1.3 rows 1\n  5|'Ann'\n3 1.4 end\n",
        second: "INSERT INTO users VALUES (5, 'Bo'); SELECT * FROM users;",
        then: "0 3 0 1.1 refused duplicate users 5\n1 1.2 rows 1\n  5|'Ann'\n2 1.3 end\n",
    },
    Pair {
        first: "CREATE TABLE cities (id INT PRIMARY KEY); CHECKPOINT; INSERT INTO cities VALUES (2);",
        output: "0 4 0 1.1 ok\n1 1.2 ok\n2 1.3 ok 1\n3 1.4 end\n",
        second: "CHECKPOINT; SELECT * FROM cities;",
        then: "0 3 0 1.1 ok\n1 1.2 rows 1\n  2\n2 1.3 end\n",
    },
    Pair {
        first: "CREATE TABLE cities (id INT PRIMARY KEY); BEGIN; INSERT INTO cities VALUES (2);",
        output: "0 4 0 1.1 ok\n1 1.2 ok\n2 1.3 ok 1\n3 1.4 end\n",
        second: "SELECT * FROM cities;",
        then: "0 2 0 1.1 rows 0\n1 1.2 end\n",
    },
];

/// Two tables with rows, and an insert more.
const COMMITS: &str =
    "CREATE DATA_SUBJECT TABLE users (id INT PRIMARY KEY, name TEXT); CREATE TABLE msgs (id INT PRIMARY KEY, sender INT OWNED_BY users(id), receiver INT OWNED_BY users(id), body TEXT, note TEXT, ON GET receiver ANON (note), ON DEL sender ANON (note)); INSERT INTO users VALUES (5, 'Ann'), (7, 'Bob'); INSERT INTO msgs VALUES (9, 5, 7, 'hi', 'draft'); INSERT INTO users VALUES (8, 'Cy');";

/// What a run of it comes to whose disk fails: at the opening, at each of the calls, or later than any call.
const OUTCOMES: [&str; 7] = [
    "5 0 ",
    "5 6 0 1.1 disk\n1 1.2 down 0\n2 1.3 down 0\n3 1.4 down 0\n4 1.5 down 0\n5 1.6 down 0\n",
    "5 6 0 1.1 ok\n1 1.2 disk\n2 1.3 down 1\n3 1.4 down 1\n4 1.5 down 1\n5 1.6 down 1\n",
    "5 6 0 1.1 ok\n1 1.2 ok\n2 1.3 disk\n3 1.4 down 2\n4 1.5 down 2\n5 1.6 down 2\n",
    "5 6 0 1.1 ok\n1 1.2 ok\n2 1.3 ok 2\n3 1.4 disk\n4 1.5 down 3\n5 1.6 down 3\n",
    "5 6 0 1.1 ok\n1 1.2 ok\n2 1.3 ok 2\n3 1.4 ok 1\n4 1.5 disk\n5 1.6 down 4\n",
    "0 6 0 1.1 ok\n1 1.2 ok\n2 1.3 ok 2\n3 1.4 ok 1\n4 1.5 ok 1\n5 1.6 end\n",
];

const LOOK: &str = "SELECT id FROM msgs; SELECT id FROM users;";

/// What is seen after none of its commits, after one, and so on.
const STATES: [&str; 6] = [
    "0 3 0 1.1 refused table msgs\n1 1.2 refused table users\n2 1.3 end\n",
    "0 3 0 1.1 refused table msgs\n1 1.2 rows 0\n2 1.3 end\n",
    "0 3 0 1.1 rows 0\n1 1.2 rows 0\n2 1.3 end\n",
    "0 3 0 1.1 rows 0\n1 1.2 rows 2\n  5\n  7\n2 1.3 end\n",
    "0 3 0 1.1 rows 1\n  9\n1 1.2 rows 2\n  5\n  7\n2 1.3 end\n",
    "0 3 0 1.1 rows 1\n  9\n1 1.2 rows 3\n  5\n  7\n  8\n2 1.3 end\n",
];

/// An opened area of epoch 1, whose image is one byte and none of a store.
const DAMAGED: [u8; 19] = [1, 0, 0, 0, 0, 0, 0, 0, 1, 0, 0, 0, 0, 0, 0, 0, 1, 9, 0];

/// Serves an input over a disk, and tells the status, the number of entries and the output. The disk comes back.
pub(crate) fn told<D: Disk + Drop>(
    alloc: Global,
    input: &str,
    disk: D,
) -> Result<(String, D), Fail> {
    let mut source = MemSource::new(alloc, input.as_bytes(), &[])?;
    let mut sink = MemSink::new(alloc, &[])?;
    let Served {
        status,
        fault,
        opened,
        history,
        disk,
    } = step(alloc, &mut source, &mut sink, disk);
    let entries = history.items().len();
    drop(history);
    drop(fault);
    drop(opened);
    let output = String::from_utf8_lossy(alloc, sink.bytes())?;
    let told = format!(in alloc; "{status} {entries} {}", output.as_str())?;
    Ok((told, disk))
}

#[test]
fn a_second_run_goes_on_from_the_first(rt: HostRuntime) -> Result<(), Fail> {
    for pair in &PAIRS {
        let disk = MemDisk::new(rt.alloc(), &[])?;
        let (output, disk) = told(rt.alloc(), pair.first, disk)?;
        assert_eq!(rt; output.as_str(), pair.output);
        let (output, disk) = told(rt.alloc(), pair.second, disk.crash(false))?;
        assert_eq!(rt; output.as_str(), pair.then);
        drop(disk);
    }
    Ok(())
}

/// Serves `COMMITS` over a disk whose call of that number fails, alone or with all after it.
fn told_failing(alloc: Global, call: u32, alone: bool) -> Result<(String, MemDisk), Fail> {
    if alone {
        return told(alloc, COMMITS, MemDisk::new(alloc, &[call])?);
    }
    let (output, fuse) = told(
        alloc,
        COMMITS,
        FuseDisk::new(MemDisk::new(alloc, &[])?, call),
    )?;
    Ok((output, fuse.inner()))
}

/// Looks at a run whose disk fails at that call, and at what a crash leaves: the commits that were answered, or with them
/// the one at which the disk failed. `met` is how the run before ended; tells how this one did.
fn check_call(
    rt: &(impl Abort + AllocGlobal),
    call: u32,
    alone: bool,
    kept: bool,
    met: usize,
) -> Result<usize, Fail> {
    let (output, disk) = told_failing(rt.alloc(), call, alone)?;
    let same = OUTCOMES.get(met).copied() == Some(output.as_str());
    let outcome = if same { met } else { met.saturating_add(1) };
    assert_eq!(rt; OUTCOMES.get(outcome).copied(), Some(output.as_str()));
    let (seen, disk) = told(rt.alloc(), LOOK, disk.crash(kept))?;
    drop(disk);
    let states = [
        STATES.get(outcome.saturating_sub(1)).copied(),
        STATES.get(outcome.min(5)).copied(),
    ];
    assert!(rt;
        states.contains(&Some(seen.as_str())),
        "{call} {alone} {kept}: {seen}"
    );
    Ok(outcome)
}

#[test]
fn each_call_of_the_disk_fails_once(rt: HostRuntime) -> Result<(), Fail> {
    for (alone, kept) in [(true, true), (true, false), (false, true), (false, false)] {
        let mut outcome = 0;
        for call in 0..64 {
            outcome = check_call(&rt, call, alone, kept, outcome)?;
        }
        assert_eq!(rt; outcome, 6);
    }
    Ok(())
}

#[test]
fn a_damaged_store_is_told(rt: HostRuntime) -> Result<(), Fail> {
    let mut disk = MemDisk::new(rt.alloc(), &[])?;
    disk.write_at(Area::A, 0, &DAMAGED).expect(&rt, "a write");
    let mut source = MemSource::new(rt.alloc(), FIRST.as_bytes(), &[])?;
    let mut sink = MemSink::new(rt.alloc(), &[])?;
    let Served {
        status,
        fault,
        opened,
        history,
        disk,
    } = step(rt.alloc(), &mut source, &mut sink, disk);
    assert_eq!(rt; status, 6);
    let text = format!(in rt.alloc(); "{}", fault.expect(&rt, "a fault"))?;
    assert_eq!(rt; text.as_str(), "area A is damaged at byte 17");
    assert!(rt; opened.is_none());
    assert_eq!(rt; history.items().len(), 0);
    assert_eq!(rt; sink.bytes().len(), 0);
    assert_eq!(rt; disk.bytes(Area::A), DAMAGED.as_slice());
    assert_eq!(rt; disk.bytes(Area::B).len(), 0);
    drop(opened);
    drop(history);
    drop(disk);
    Ok(())
}
