//! Runs whose disk stops at some call, a crash after it, and openings that are stopped too.
use crate::disks::told;
use outer_world::{Disk, FuseDisk, MemDisk, MemSink, MemSource};
use own_model::Verdict;
use std::alloc::Global;
use std::mem::drop;
use std::process::Abort;
use std::test::Fail;
use store_top::{Served, step};

const SCRIPT: &str =
    "CREATE DATA_SUBJECT TABLE u (id INT PRIMARY KEY); INSERT INTO u VALUES (1), (2); CHECKPOINT; \
CREATE TABLE m (id INT PRIMARY KEY, o INT OWNED_BY u(id)); INSERT INTO m VALUES (7, 1), (8, 2); GDPR FORGET u 1;";

/// The places of the calls that commit.
const COMMITS: [usize; 5] = [0, 1, 3, 4, 5];

const LOOK: &str = "SELECT * FROM u; SELECT * FROM m;";

/// What is seen after none of the commits, after one, and so on.
const STATES: [&str; 6] = [
    "0 3 0 1.1 refused table u\n1 1.2 refused table m\n2 1.3 end\n",
    "0 3 0 1.1 rows 0\n1 1.2 refused table m\n2 1.3 end\n",
    "0 3 0 1.1 rows 2\n  1\n  2\n1 1.2 refused table m\n2 1.3 end\n",
    "0 3 0 1.1 rows 2\n  1\n  2\n1 1.2 rows 0\n2 1.3 end\n",
    "0 3 0 1.1 rows 2\n  1\n  2\n1 1.2 rows 2\n  7|1\n  8|2\n2 1.3 end\n",
    "0 3 0 1.1 rows 1\n  2\n1 1.2 rows 1\n  8|2\n2 1.3 end\n",
];

/// How a run of the script ended over a disk: whether without a fault, how many of its calls were answered before the disk
/// failed, and the disk.
struct Ended<D> {
    whole: bool,
    answered: usize,
    disk: D,
}

/// A run of the script over a disk.
fn run_over<D: Disk + Drop>(alloc: Global, disk: D) -> Result<Ended<D>, Fail> {
    let mut source = MemSource::new(alloc, SCRIPT.as_bytes(), &[])?;
    let mut sink = MemSink::new(alloc, &[])?;
    let Served {
        status,
        fault,
        opened,
        history,
        disk,
    } = step(alloc, &mut source, &mut sink, disk);
    drop(fault);
    drop(opened);
    let answered = history
        .items()
        .iter()
        .take_while(|entry| !matches!(entry.verdict, Verdict::DiskFault))
        .count();
    drop(history);
    Ok(Ended {
        whole: status == 0,
        answered,
        disk,
    })
}

/// The same, of a disk that passes so many calls and fails each later one, or fails that one alone; and what a crash leaves of
/// it that keeps all that was written or nothing that wasn't synced.
fn crashed(alloc: Global, calls: u32, alone: bool, keeps: bool) -> Result<Ended<MemDisk>, Fail> {
    if alone {
        let Ended {
            whole,
            answered,
            disk,
        } = run_over(alloc, MemDisk::new(alloc, &[calls])?)?;
        let disk = disk.crash(keeps);
        return Ok(Ended {
            whole,
            answered,
            disk,
        });
    }
    let Ended {
        whole,
        answered,
        disk,
    } = run_over(alloc, FuseDisk::new(MemDisk::new(alloc, &[])?, calls))?;
    let disk = disk.inner().crash(keeps);
    Ok(Ended {
        whole,
        answered,
        disk,
    })
}

/// Opens what a crash left, with a fuse that passes no call of the disk, then one, and so on, and a crash after each: until
/// an opening ends without a stop.
fn opened(rt: &(impl Abort + AllocGlobal), left: MemDisk, keeps: bool) -> Result<MemDisk, Fail> {
    let mut disk = left;
    for calls in 0..64 {
        let (output, fuse) = told(rt.alloc(), "", FuseDisk::new(disk, calls))?;
        disk = fuse.inner().crash(keeps);
        if output.as_str() == "0 0 " {
            return Ok(disk);
        }
        assert_eq!(rt; output.as_str(), "5 0 ");
    }
    panic!(rt; "every opening was stopped")
}

/// Looks at what is there after a run whose disk passed so many calls: the commits that were answered, or with them the one
/// at which the disk failed. Tells whether the run ended without a fault.
fn check_stop(
    rt: &(impl Abort + AllocGlobal),
    calls: u32,
    alone: bool,
    keeps: bool,
) -> Result<bool, Fail> {
    let Ended {
        whole,
        answered,
        disk,
    } = crashed(rt.alloc(), calls, alone, keeps)?;
    let made = COMMITS.iter().filter(|place| **place < answered).count();
    let late = made + COMMITS.iter().filter(|place| **place == answered).count();
    let disk = opened(rt, disk, keeps)?;
    let (seen, disk) = told(rt.alloc(), LOOK, disk)?;
    drop(disk);
    let states = [STATES.get(made).copied(), STATES.get(late).copied()];
    assert!(rt;
        states.contains(&Some(seen.as_str())),
        "{calls} {alone} {keeps}: {seen}"
    );
    Ok(whole)
}

/// Stops runs at each call of the disk, up to the first that ends without a stop; tells whether there is one.
fn check_stops(rt: &(impl Abort + AllocGlobal), alone: bool, keeps: bool) -> Result<bool, Fail> {
    for calls in 0..256 {
        if check_stop(rt, calls, alone, keeps)? {
            return Ok(true);
        }
    }
    Ok(false)
}

#[test]
fn what_was_answered_is_there_wherever_the_disk_stops(rt: HostRuntime) -> Result<(), Fail> {
    for keeps in [false, true] {
        assert!(rt; check_stops(&rt, false, keeps)?);
    }
    Ok(())
}

#[test]
fn what_was_answered_is_there_whichever_call_fails(rt: HostRuntime) -> Result<(), Fail> {
    for keeps in [false, true] {
        assert!(rt; check_stops(&rt, true, keeps)?);
    }
    Ok(())
}
