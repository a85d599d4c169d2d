//! Each call of the source or of the sink fails once.
use crate::runs::{FIRST, FIRST_OUTPUT};
use outer_world::{Disk, MemDisk, MemSink, MemSource};
use std::alloc::Global;
use std::mem::drop;
use std::process::Abort;
use std::test::Fail;
use store_top::{Served, step};

/// Whether calls of the source fail, or else of the sink; which calls of the disk do; the status of a run in which one
/// failed; the status, the entries and the text of one in which none did.
struct Case {
    of_source: bool,
    disk_fails: &'static [u32],
    status: u8,
    whole: (u8, usize, &'static str),
}

/// Where the source fails, the disk isn't called, since its first call would fail.
const CASES: [Case; 2] = [
    Case {
        of_source: true,
        disk_fails: &[0],
        status: 3,
        whole: (5, 0, ""),
    },
    Case {
        of_source: false,
        disk_fails: &[],
        status: 4,
        whole: (0, 4, FIRST_OUTPUT),
    },
];

/// How a run of `FIRST` ended: its status, the number of its entries, the count of faults of its disk, and its text.
#[derive(Drop)]
struct Seen {
    status: u8,
    entries: usize,
    faults: u64,
    text: String,
}

/// A run of `FIRST` in pieces of a byte, both ways, whose call of that number fails.
fn run_in_pieces(alloc: Global, case: &Case, call: u32) -> Result<Seen, Fail> {
    let fails = [call];
    let none: [u32; 0] = [];
    let (source_fails, sink_fails) = if case.of_source {
        (fails.as_slice(), none.as_slice())
    } else {
        (none.as_slice(), fails.as_slice())
    };
    let mut source = MemSource::in_pieces(alloc, FIRST.as_bytes(), source_fails, 1)?;
    let mut sink = MemSink::in_pieces(alloc, sink_fails, 1)?;
    let disk = MemDisk::new(alloc, case.disk_fails)?;
    let Served {
        status,
        fault,
        opened,
        history,
        disk,
    } = step(alloc, &mut source, &mut sink, disk);
    let entries = history.items().len();
    let faults = disk.faults();
    drop(history);
    drop(fault);
    drop(opened);
    drop(disk);
    let text = String::from_utf8_lossy(alloc, sink.bytes())?;
    Ok(Seen {
        status,
        entries,
        faults,
        text,
    })
}

/// Whether the run met no fault of the case. One that did has its status; nothing was called or written where the source
/// failed, and just the text that the sink took before where that failed.
fn is_whole(rt: &impl Abort, case: &Case, call: u32, seen: &Seen) -> bool {
    let text = seen.text.as_str();
    if seen.status != case.status {
        assert_eq!(rt; (seen.status, seen.entries, text), case.whole);
        return true;
    }
    if case.of_source {
        assert_eq!(rt; (seen.entries, seen.faults, text), (0, 0, ""));
    } else {
        let taken = FIRST_OUTPUT.as_bytes().get(..call as usize);
        assert_eq!(rt; Some(text.as_bytes()), taken);
    }
    false
}

/// The first call that isn't made any more.
fn first_unmade(rt: &(impl Abort + AllocGlobal), case: &Case) -> Result<u32, Fail> {
    for call in 0..1024 {
        let seen = run_in_pieces(rt.alloc(), case, call)?;
        if is_whole(rt, case, call, &seen) {
            return Ok(call);
        }
    }
    panic!(rt; "each run met a fault")
}

/// In pieces of a byte there is a call for each, and one for the end of the input.
#[test]
fn each_call_of_a_stream_fails_once(rt: HostRuntime) -> Result<(), Fail> {
    for case in &CASES {
        let calls = if case.of_source {
            FIRST.len().saturating_add(1)
        } else {
            FIRST_OUTPUT.len()
        };
        assert_eq!(rt; first_unmade(&rt, case)? as usize, calls);
    }
    Ok(())
}
