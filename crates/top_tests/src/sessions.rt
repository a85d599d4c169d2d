//! Mode serve: sessions side by side. A gate has calls wait for those of the other session, so that sessions served one after
//! another would come late.
use crate::disks::told;
use crate::runs::{FIRST, FIRST_OUTPUT};
use outer_world::{Gate, Gone, MemDisk, MemSink, MemSource, NowGate};
use own_base::SessionNo;
use std::alloc::Global;
use std::mem::drop;
use std::sync::Wait;
use std::sync::atomic::{AtomicU64, Ordering};
use std::test::Fail;
use std::thread::{Threads, yield_now};
use store_top::{Served, run, serve};

/// How often a call looks whether the other session has come so far, before it goes on without it.
const LOOKS: u32 = 20_000_000;

const TABLE: &str = "CREATE TABLE acc (id INT PRIMARY KEY, n INT);";

const MEETING: &str =
    "SELECT * FROM acc; SELECT * FROM acc;\n-- session 2\nSELECT * FROM acc; SELECT * FROM acc;\n";

/// What each call of it is answered, behind its place.
const REPLIES: [&str; 6] = [
    "1.1 rows 0",
    "1.2 rows 0",
    "1.3 end",
    "2.1 rows 0",
    "2.2 rows 0",
    "2.3 end",
];

/// Serves the sessions of an input over a disk, and tells the status and the output. The disk comes back.
pub(crate) fn told_together<Rt: Threads + Wait + Sync, G: Gate + Sync>(
    rt: &Rt,
    alloc: Global,
    input: &str,
    disk: MemDisk,
    gate: &G,
) -> Result<(u8, String, MemDisk), Fail> {
    let words = vec![in alloc; String::from_str(alloc, "serve")?]?;
    let mut source = MemSource::new(alloc, input.as_bytes(), &[])?;
    let mut sink = MemSink::new(alloc, &[])?;
    let Served {
        status,
        fault,
        opened,
        history,
        disk,
    } = run(rt, alloc, &words, &mut source, &mut sink, disk, gate);
    drop(history);
    drop(fault);
    drop(opened);
    let output = String::from_utf8_lossy(alloc, sink.bytes())?;
    Ok((status, output, disk))
}

/// Waits until the word has come to a number, and says whether it has.
pub(crate) fn comes(word: &AtomicU64, wanted: u64) -> bool {
    for _ in 0..LOOKS {
        if word.load(Ordering::SeqCst) >= wanted {
            return true;
        }
        yield_now();
    }
    false
}

/// The first word of a line, a place, and what stands behind it.
pub(crate) fn place_and_reply(line: &str) -> Option<(u64, &str)> {
    let (place, reply) = line.split_once(' ')?;
    Some((place.parse::<u64>().ok()?, reply))
}

/// How far a session is: the last of its calls that was asked for, and the last that was answered.
#[derive(Drop)]
struct Words {
    asked: AtomicU64,
    answered: AtomicU64,
}

impl Words {
    fn new() -> Words {
        Words {
            asked: AtomicU64::new(0),
            answered: AtomicU64::new(0),
        }
    }
}

/// A gate at which two sessions meet: the first call of each waits until the other's is asked for, and the second until the
/// other's first is answered. It counts the calls that went on without that.
#[derive(Drop)]
struct Meeting {
    one: Words,
    two: Words,
    late: AtomicU64,
}

impl Meeting {
    /// The words of a session, and those of the other.
    fn words_of(&self, session: SessionNo) -> (&Words, &Words) {
        if session.0 == 1 {
            (&self.one, &self.two)
        } else {
            (&self.two, &self.one)
        }
    }
}

impl Gate for Meeting {
    fn before(&self, session: SessionNo, call: u32) -> Gone {
        let (own, other) = self.words_of(session);
        own.asked.store(u64::from(call), Ordering::SeqCst);
        let came = match call {
            1 => comes(&other.asked, 1),
            2 => comes(&other.answered, 1),
            _ => true,
        };
        if came {
            return Gone::Passed;
        }
        self.late.fetch_add(1, Ordering::SeqCst);
        Gone::Late
    }

    fn after(&self, session: SessionNo, call: u32) {
        let (own, _) = self.words_of(session);
        own.answered.store(u64::from(call), Ordering::SeqCst);
    }
}

#[test]
fn two_meet(rt: HostRuntime) -> Result<(), Fail> {
    let (output, disk) = told(rt.alloc(), TABLE, MemDisk::new(rt.alloc(), &[])?)?;
    assert_eq!(rt; output.as_str(), "0 2 0 1.1 ok\n1 1.2 end\n");
    let gate = Meeting {
        one: Words::new(),
        two: Words::new(),
        late: AtomicU64::new(0),
    };
    let (status, output, disk) = told_together(&rt, rt.alloc(), MEETING, disk, &gate)?;
    drop(disk);
    assert_eq!(rt; gate.late.load(Ordering::SeqCst), 0);
    assert_eq!(rt; status, 0);
    let mut places = 0;
    for (number, line) in output.as_str().lines().enumerate() {
        let (place, reply) = place_and_reply(line).expect(&rt, "a place");
        assert_eq!(rt; REPLIES.get(number).copied(), Some(reply));
        let bit = u32::try_from(place).unwrap_or(64);
        places |= 1u64.checked_shl(bit).unwrap_or(0);
    }
    assert_eq!(rt; places, 63);
    Ok(())
}

#[test]
fn serves_without_words(rt: HostRuntime) -> Result<(), Fail> {
    let mut source = MemSource::new(rt.alloc(), FIRST.as_bytes(), &[])?;
    let mut sink = MemSink::new(rt.alloc(), &[])?;
    let disk = MemDisk::new(rt.alloc(), &[])?;
    let Served {
        status,
        fault,
        opened,
        history,
        disk,
    } = serve(&rt, rt.alloc(), &mut source, &mut sink, disk, &NowGate);
    let entries = history.items().len();
    drop(history);
    drop(fault);
    drop(opened);
    drop(disk);
    assert_eq!(rt; status, 0);
    assert_eq!(rt; entries, 4);
    let output = String::from_utf8_lossy(rt.alloc(), sink.bytes())?;
    assert_eq!(rt; output.as_str(), FIRST_OUTPUT);
    Ok(())
}
