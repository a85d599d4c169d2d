//! What sessions were told is written in pieces: how many bytes come by each call of the sink, as far as a call that fails tells it.
use outer_world::MemSink;
use own_base::{List, SessionNo, Text};
use session_run::{RunFault, SessionReplies, Told, print_sessions};
use std::alloc::Global;
use std::mem::drop;
use std::test::Fail;

/// Of 32 bytes, so a piece takes 1,024 of them.
const LINE: &str = "0 1.1 rows 0: thirty-two bytes.\n";

/// How many calls there are of a line each; the one whose lines are missing, and the one that has 1,500 lines, which are longer
/// than a piece; the call of the sink that fails; and what it comes to, with the count of bytes that are written.
#[derive(Drop)]
struct Case {
    calls: u32,
    missing: Option<u32>,
    long: Option<u32>,
    fails: u32,
    told: Result<(), RunFault>,
    written: usize,
}

/// A case of calls with a line each, and nothing missing.
const fn plain(calls: u32, fails: u32, told: Result<(), RunFault>, written: usize) -> Case {
    Case {
        calls,
        missing: None,
        long: None,
        fails,
        told,
        written,
    }
}

/// The lines of a call of that number.
fn lines(alloc: Global, case: &Case, call: u32) -> Result<Option<Text>, Fail> {
    if case.missing == Some(call) {
        return Ok(None);
    }
    if case.long != Some(call) {
        return Ok(Some(Text::from_str(alloc, LINE)?));
    }
    let mut text = String::new(alloc);
    for _ in 0..1500 {
        text.push_str(LINE)?;
    }
    Ok(Some(Text::from_string(text)?))
}

/// What the session of a case was told.
fn replies(alloc: Global, case: &Case) -> Result<List<SessionReplies>, Fail> {
    let mut told = List::new(alloc);
    for call in 0..case.calls {
        let lines = lines(alloc, case, call)?;
        told.add(Told {
            call,
            place: None,
            failed: false,
            lines,
        })?;
    }
    let mut all = List::new(alloc);
    all.add(SessionReplies {
        session: SessionNo(1),
        replies: told,
    })?;
    Ok(all)
}

/// No call, a line less than a piece, a piece, and a line more; lines that are missing behind a piece, where those before them are
/// written all the same; and lines that are longer than a piece, between others.
#[test]
fn replies_come_in_pieces(rt: HostRuntime) -> Result<(), Fail> {
    let missing = |fails, told, written| Case {
        missing: Some(1030),
        ..plain(1040, fails, told, written)
    };
    let long = |fails, told, written| Case {
        long: Some(10),
        ..plain(20, fails, told, written)
    };
    let cases = [
        plain(0, 0, Ok(()), 0),
        plain(1023, 1, Ok(()), 32736),
        plain(1024, 1, Ok(()), 32768),
        plain(1025, 1, Err(RunFault::Write), 32768),
        plain(1025, 2, Ok(()), 32800),
        missing(1, Err(RunFault::Write), 32768),
        missing(2, Err(RunFault::Memory), 32960),
        long(0, Err(RunFault::Write), 0),
        long(1, Err(RunFault::Write), 320),
        long(2, Err(RunFault::Write), 48320),
        long(3, Ok(()), 48608),
    ];
    for case in &cases {
        let replies = replies(rt.alloc(), case)?;
        let mut sink = MemSink::new(rt.alloc(), &[case.fails])?;
        let told = print_sessions(&replies, &mut sink);
        drop(replies);
        assert_eq!(rt; (told, sink.bytes().len()), (case.told, case.written));
    }
    Ok(())
}
