use outer_world::{Gate, Gone, MemDisk, MemSink, MemSource, NowGate};
use own_base::SessionNo;
use std::alloc::Global;
use std::mem::drop;
use std::sync::Wait;
use std::sync::atomic::{AtomicU64, Ordering};
use std::test::Fail;
use std::thread::Threads;
use store_top::{Served, run, step};

/// A run over sources and sinks in memory: the words behind the store's, one space between them, the input, the calls of the source and of the sink that fail,
/// and then the status, the number of entries and the output that are wanted.
struct Case {
    words: &'static str,
    input: &'static str,
    source_fails: &'static [u32],
    sink_fails: &'static [u32],
    status: u8,
    entries: usize,
    output: &'static str,
}

pub(crate) const FIRST: &str =
    "CREATE DATA_SUBJECT TABLE users (id INT PRIMARY KEY, name TEXT); INSERT INTO users VALUES (5, 'Ann'); SELECT * FROM users;";

pub(crate) const FIRST_OUTPUT: &str = "0 1.1 ok\n1 1.2 ok 1\n2 1.3 rows 1\n  5|'Ann'\n3 1.4 end\n";

const REFUSALS: &str =
    "CREATE DATA_SUBJECT TABLE users (id INT PRIMARY KEY, name TEXT); INSERT INTO users VALUES (5, 'Ann'); SELECT * FROM users;INSERT INTO users VALUES (5, 'Bo'); SELECT * FROM cats; COMMIT;";

const SESSIONS: &str =
    "CREATE DATA_SUBJECT TABLE users (id INT PRIMARY KEY, name TEXT); BEGIN; INSERT INTO users VALUES (5, 'Ann');\n-- session 2\nSELECT * FROM users; DELETE FROM users WHERE id = 5; SELEC\n-- session 1\nCOMMIT; SELECT * FROM users;";

const CATALOG: &str =
    "CREATE DATA_SUBJECT TABLE users (id INT PRIMARY KEY, name TEXT); CREATE TABLE msgs (id INT PRIMARY KEY, sender INT OWNED_BY users(id)); CREATE TABLE users (id INT PRIMARY KEY); INSERT INTO msgs VALUES (1, NULL); CREATE TABLE cities (id INT PRIMARY KEY); INSERT INTO cities VALUES (2); CREATE DATA_SUBJECT TABLE people (id INT PRIMARY KEY, home INT OWNS cities(id)); EXPLAIN COMPLIANCE; SELECT * FROM cities;";

/// By hand: two tables and a view, two people and two notes, two transfers of four calls, a GET, a FORGET and a SELECT. The first
/// person has the second note alone, and the first note's number is 73 and 65 more.
const SUMMARY: &str =
    "calls 18\ndone 18\nrefused 0\nmemory 0\ngot 2\nforgot 2 0\nheld 1\nsum 138\n";

const CASES: [Case; 14] = [
    Case {
        words: "make 2 1",
        input: FIRST,
        source_fails: &[0],
        sink_fails: &[],
        status: 0,
        entries: 19,
        output: SUMMARY,
    },
    Case {
        words: "make 2 1",
        input: FIRST,
        source_fails: &[],
        sink_fails: &[0],
        status: 4,
        entries: 19,
        output: "",
    },
    Case {
        words: "make 2",
        input: FIRST,
        source_fails: &[],
        sink_fails: &[],
        status: 2,
        entries: 0,
        output: "",
    },
    Case {
        words: "step",
        input: FIRST,
        source_fails: &[],
        sink_fails: &[],
        status: 0,
        entries: 4,
        output: FIRST_OUTPUT,
    },
    Case {
        words: "step",
        input: REFUSALS,
        source_fails: &[],
        sink_fails: &[],
        status: 0,
        entries: 7,
        output: "0 1.1 ok\n1 1.2 ok 1\n2 1.3 rows 1\n  5|'Ann'\n3 1.4 refused duplicate users 5\n4 1.5 refused table cats\n5 1.6 refused outside\n6 1.7 end\n",
    },
    Case {
        words: "step",
        input: CATALOG,
        source_fails: &[],
        sink_fails: &[],
        status: 0,
        entries: 10,
        output: "0 1.1 ok\n1 1.2 ok\n2 1.3 refused taken users\n3 1.4 refused owner msgs 1\n4 1.5 ok\n5 1.6 ok 1\n6 1.7 refused rows cities\n7 1.8 graph 4\n  users subject\n  msgs private\n  msgs.sender OWNED_BY users\n  cities public\n8 1.9 rows 1\n  2\n9 1.10 end\n",
    },
    Case {
        words: "step",
        input: " \t\n",
        source_fails: &[],
        sink_fails: &[],
        status: 0,
        entries: 0,
        output: "",
    },
    Case {
        words: "step",
        input: SESSIONS,
        source_fails: &[],
        sink_fails: &[],
        status: 0,
        entries: 10,
        output: "0 1.1 ok\n1 1.2 ok\n2 1.3 ok 1\n3 2.1 rows 0\n4 2.2 refused conflict 1 users 5\n5 2.3 refused syntax 5\n6 1.4 ok\n7 1.5 rows 1\n  5|'Ann'\n8 1.6 end\n9 2.4 end\n",
    },
    Case {
        words: "step",
        input: "SELECT * FROM users;\n-- session 17\n",
        source_fails: &[],
        sink_fails: &[],
        status: 7,
        entries: 0,
        output: "",
    },
    Case {
        words: "serve 1",
        input: FIRST,
        source_fails: &[],
        sink_fails: &[],
        status: 2,
        entries: 0,
        output: "",
    },
    Case {
        words: "serve",
        input: FIRST,
        source_fails: &[],
        sink_fails: &[0],
        status: 4,
        entries: 4,
        output: "",
    },
    Case {
        words: "stop",
        input: FIRST,
        source_fails: &[],
        sink_fails: &[],
        status: 2,
        entries: 0,
        output: "",
    },
    Case {
        words: "step",
        input: FIRST,
        source_fails: &[0],
        sink_fails: &[],
        status: 3,
        entries: 0,
        output: "",
    },
    Case {
        words: "step",
        input: FIRST,
        source_fails: &[],
        sink_fails: &[1],
        status: 4,
        entries: 2,
        output: "0 1.1 ok\n",
    },
];

/// Runs a case by these words, and tells its status, its entries and its output.
fn told<Rt: Threads + Wait + Sync>(
    rt: &Rt,
    alloc: Global,
    mode: &str,
    case: &Case,
) -> Result<(u8, usize, String), Fail> {
    let mut words = Vec::new(alloc);
    for word in mode.split(' ') {
        words.push(String::from_str(alloc, word)?)?;
    }
    let mut source = MemSource::new(alloc, case.input.as_bytes(), case.source_fails)?;
    let mut sink = MemSink::new(alloc, case.sink_fails)?;
    let disk = MemDisk::new(alloc, &[])?;
    let Served {
        status,
        fault,
        opened,
        history,
        disk,
    } = run(rt, alloc, &words, &mut source, &mut sink, disk, &NowGate);
    let entries = history.items().len();
    drop(history);
    drop(fault);
    drop(opened);
    drop(disk);
    let output = String::from_utf8_lossy(alloc, sink.bytes())?;
    Ok((status, entries, output))
}

#[test]
fn runs(rt: HostRuntime) -> Result<(), Fail> {
    for case in &CASES {
        let (status, entries, output) = told(&rt, rt.alloc(), case.words, case)?;
        assert_eq!(rt;
            (status, entries, output.as_str()),
            (case.status, case.entries, case.output)
        );
    }
    Ok(())
}

/// All of its calls are made before what they are told is written, and that in pieces, so a run whose sink fails has other entries and
/// another output.
#[test]
fn one_session_is_served_as_it_steps(rt: HostRuntime) -> Result<(), Fail> {
    for case in &CASES {
        if case.words == "step" && case.input != SESSIONS && case.sink_fails.is_empty() {
            let (status, _, output) = told(&rt, rt.alloc(), "serve", case)?;
            assert_eq!(rt; (status, output.as_str()), (case.status, case.output));
        }
    }
    Ok(())
}

/// A gate that lets every call pass, and counts how often it is called.
#[derive(Drop)]
struct CountingGate {
    calls: AtomicU64,
}

impl Gate for CountingGate {
    fn before(&self, _session: SessionNo, _call: u32) -> Gone {
        self.calls.fetch_add(1, Ordering::SeqCst);
        Gone::Passed
    }

    fn after(&self, _session: SessionNo, _call: u32) {
        self.calls.fetch_add(1, Ordering::SeqCst);
    }
}

/// How often the gate is called by a run of `FIRST` in a mode.
fn gate_calls<Rt: Threads + Wait + Sync>(rt: &Rt, alloc: Global, mode: &str) -> Result<u64, Fail> {
    let gate = CountingGate {
        calls: AtomicU64::new(0),
    };
    let words = vec![in alloc; String::from_str(alloc, mode)?]?;
    let mut source = MemSource::new(alloc, FIRST.as_bytes(), &[])?;
    let mut sink = MemSink::new(alloc, &[])?;
    let disk = MemDisk::new(alloc, &[])?;
    let Served {
        status: _,
        fault,
        opened,
        history,
        disk,
    } = run(rt, alloc, &words, &mut source, &mut sink, disk, &gate);
    drop(history);
    drop(fault);
    drop(opened);
    drop(disk);
    Ok(gate.calls.load(Ordering::SeqCst))
}

/// Mode step asks it nothing; mode serve before each of the four calls, the End too, and tells it after each.
#[test]
fn the_gate_is_asked_in_mode_serve_alone(rt: HostRuntime) -> Result<(), Fail> {
    assert_eq!(rt; gate_calls(&rt, rt.alloc(), "step")?, 0);
    assert_eq!(rt; gate_calls(&rt, rt.alloc(), "serve")?, 8);
    Ok(())
}

#[test]
fn steps_without_words_and_gate(rt: HostRuntime) {
    let mut source = MemSource::new(rt.alloc(), FIRST.as_bytes(), &[]).expect(&rt, "memory");
    let mut sink = MemSink::new(rt.alloc(), &[]).expect(&rt, "memory");
    let disk = MemDisk::new(rt.alloc(), &[]).expect(&rt, "memory");
    let Served {
        status,
        fault,
        opened,
        history,
        disk,
    } = step(rt.alloc(), &mut source, &mut sink, disk);
    let entries = history.items().len();
    drop(history);
    drop(fault);
    drop(opened);
    assert_eq!(rt; status, 0);
    assert_eq!(rt; entries, 4);
    drop(disk);
    let output = String::from_utf8_lossy(rt.alloc(), sink.bytes()).expect(&rt, "memory");
    assert_eq!(rt; output.as_str(), FIRST_OUTPUT);
}
