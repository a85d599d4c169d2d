ghost use Rattle.std.specs.Prelude.{◌≤◌, IfOk};

use outer_world::{Failed, INTERRUPTIONS, Sink, Source, StdinSource, StdoutSink};
use std::alloc::Allocator;
use std::cell::Cell;
use std::fmt::Display;
use std::io;
use std::io::{BufRead, ErrorKind, Lines, Read};

/// What the calls of the fake system do once they are interrupted no more.
#[derive(Clone, Copy, Debug)]
enum Then {
    /// Each moves that many bytes, or as many as there is room for.
    Moves(usize),
    /// Each fails with an error of this kind.
    Fails(ErrorKind),
}

/// A system whose first calls are interrupted, that many of them. It counts its calls.
#[derive(Clone, Copy)]
struct FakeSystem<'a> {
    calls: &'a Cell<u32>,
    interruptions: u32,
    then: Then,
}

/// The standard input of a fake system.
#[derive(Clone, Copy)]
struct FakeReader<'a> {
    system: FakeSystem<'a>,
}

const BYTES: &[u8; 4] = b"abcd";

impl FakeSystem<'_> {
    /// The answer of the next call, which has room for that many bytes.
    fn answer(&self, room: usize) -> io::Result<usize>
        ensures { IfOk result (λ count. count ≤ room) }
    {
        let call = self.calls.get();
        self.calls.set(call.saturating_add(1));
        if call < self.interruptions {
            return Err(io::Error::from(ErrorKind::Interrupted));
        }
        match self.then {
            Then::Moves(count) => Ok(count.min(room)),
            Then::Fails(kind) => Err(io::Error::from(kind)),
        }
    }
}

/// The interruptions, and what comes after them; the answer of one read or write of four bytes, the calls that the
/// system sees in it, and the faults that it counts.
type Case = (u32, Then, Result<usize, Failed>, u32, u64);

const CASES: [Case; 9] = [
    (0, Then::Moves(2), Ok(2), 1, 0),
    (0, Then::Moves(9), Ok(4), 1, 0),
    (3, Then::Moves(2), Ok(2), 4, 0),
    (INTERRUPTIONS, Then::Moves(2), Ok(2), 1_001, 0),
    (INTERRUPTIONS + 1, Then::Moves(2), Err(Failed), 1_001, 1),
    (0, Then::Fails(ErrorKind::WouldBlock), Err(Failed), 1, 1),
    (3, Then::Fails(ErrorKind::WouldBlock), Err(Failed), 4, 1),
    (0, Then::Fails(ErrorKind::TimedOut), Err(Failed), 1, 1),
    (1, Then::Fails(ErrorKind::Other), Err(Failed), 2, 1),
];

#[test]
fn reads_are_tried_again_where_interrupted(rt: HostRuntime) {
    for (interruptions, then, answer, calls, faults) in CASES {
        let seen = Cell::new(0);
        let system = FakeSystem {
            calls: &seen,
            interruptions,
            then,
        };
        let mut source = StdinSource::new(&system);
        let mut piece = *b"....";
        let read = source.read(&mut piece);
        assert_eq!(rt; read, answer, "after {interruptions}");
        assert_eq!(rt; seen.get(), calls);
        assert_eq!(rt; source.faults(), faults);
        let count = read.unwrap_or(0);
        assert!(rt; piece.starts_with(BYTES.get(..count).unwrap_or(BYTES)));
    }
}

#[test]
fn writes_are_tried_again_where_interrupted(rt: HostRuntime) {
    for (interruptions, then, answer, calls, faults) in CASES {
        let seen = Cell::new(0);
        let system = FakeSystem {
            calls: &seen,
            interruptions,
            then,
        };
        let mut sink = StdoutSink::new(&system);
        assert_eq!(rt; sink.write(BYTES), answer, "after {interruptions}");
        assert_eq!(rt; seen.get(), calls);
        assert_eq!(rt; sink.faults(), faults);
    }
}

#[test]
fn a_call_after_a_fault_begins_anew(rt: HostRuntime) {
    for (then, answer, faults) in [
        (Then::Moves(2), Ok(2), 1),
        (Then::Fails(ErrorKind::WouldBlock), Err(Failed), 2),
    ] {
        let seen = Cell::new(0);
        let system = FakeSystem {
            calls: &seen,
            interruptions: INTERRUPTIONS + 1,
            then,
        };
        let mut source = StdinSource::new(&system);
        assert_eq!(rt; source.read(&mut [0; 4]), Err(Failed));
        assert_eq!(rt; source.read(&mut [0; 4]), answer);
        assert_eq!(rt; source.faults(), faults);

        seen.set(0);
        let mut sink = StdoutSink::new(&system);
        assert_eq!(rt; sink.write(BYTES), Err(Failed));
        assert_eq!(rt; sink.write(BYTES), answer);
        assert_eq!(rt; sink.faults(), faults);
    }
}

#[test]
fn no_byte_is_the_end_of_input_and_a_fault_of_output(rt: HostRuntime) {
    let seen = Cell::new(0);
    let system = FakeSystem {
        calls: &seen,
        interruptions: 0,
        then: Then::Moves(0),
    };
    assert_eq!(rt; StdinSource::new(&system).read(&mut [0; 4]), Ok(0));
    let mut sink = StdoutSink::new(&system);
    assert_eq!(rt; sink.write(b""), Ok(0));
    assert_eq!(rt; sink.write(BYTES), Err(Failed));
    assert_eq!(rt; sink.faults(), 1);
}

#[test]
fn the_system_takes_and_gives(rt: HostRuntime) {
    assert_eq!(rt; StdinSource::new(&rt).read(&mut []), Ok(0));
    assert_eq!(rt; StdoutSink::new(&rt).write(b"\n"), Ok(1));
}

impl<'a> Input for FakeSystem<'a> {
    type Reader = FakeReader<'a>;

    fn read_line<A: Allocator + Clone>(&self, _line: &mut String<A>) -> io::Result<usize> {
        Err(io::Error::from(ErrorKind::Unsupported))
    }

    fn lines<A: Allocator>(&self, alloc: A) -> Lines<FakeReader<'a>, A> {
        self.reader().lines(alloc)
    }

    fn reader(&self) -> FakeReader<'a> {
        FakeReader { system: *self }
    }
}

impl Read for FakeReader<'_> {
    fn read(&mut self, into: &mut [u8]) -> io::Result<usize> {
        let count = self.system.answer(into.len().min(BYTES.len()))?;
        into[..count].copy_from_slice(&BYTES[..count]);
        Ok(count)
    }
}

impl BufRead for FakeReader<'_> {
    fn fill_buf(&mut self) -> io::Result<&[u8]> {
        Ok(&[])
    }

    fn consume(&mut self, _amount: usize) {}
}

impl Print for FakeSystem<'_> {
    fn print<D: Display + Drop>(&self, _value: D) -> io::Result<()> {
        Err(io::Error::from(ErrorKind::Unsupported))
    }

    fn println<D: Display + Drop>(&self, _value: D) -> io::Result<()> {
        Err(io::Error::from(ErrorKind::Unsupported))
    }

    fn write_all(&self, _bytes: &[u8]) -> io::Result<()> {
        Err(io::Error::from(ErrorKind::Unsupported))
    }

    fn write_some(&self, bytes: &[u8]) -> io::Result<usize> {
        self.answer(bytes.len())
    }
}
