//! Scripts: where calls begin and end, to which session they belong, and which inputs are refused. In a row `{64 a}`
//! represents 64 times `a`.

use crate::check::spelled_out;
use own_model::{InputFault, Request, Script, ScriptCall, SessionCalls};
use parallel_reader::read_in_parallel;
use sql_reader::{Split, read_script};
use std::fmt::Write;
use std::mem::drop;
use std::process::Abort;
use std::thread::Threads;

/// What a request is.
fn put_request(rt: &impl Abort, told: &mut String, request: &Request) {
    let put = match request {
        Request::Run(_) => write!(told, " run"),
        Request::Syntax(byte) => write!(told, " syntax {byte}"),
        Request::Limit(limit) => write!(told, " limit {limit:?}"),
        Request::End => write!(told, " end"),
    };
    put.expect(rt, "memory");
}

/// Adds a call: its session and number, and what it asks for.
fn put_call(rt: &impl Abort, told: &mut String, call: &ScriptCall) {
    write!(told, "{}.{}", call.session.0, call.call).expect(rt, "memory");
    put_request(rt, told, &call.request);
    told.push(',').expect(rt, "memory");
}

/// The calls of a script.
fn told_calls(rt: &(impl Abort + AllocGlobal), calls: &[ScriptCall]) -> String {
    let mut told = String::new(rt.alloc());
    for call in calls {
        put_call(rt, &mut told, call);
    }
    told
}

/// A script, or why there is none.
fn told_read(rt: &(impl Abort + AllocGlobal), read: Result<Script, InputFault>) -> String {
    match read {
        Ok(script) => told_calls(rt, script.calls.items()),
        Err(fault) => format!(in rt.alloc(); "{fault:?}").expect(rt, "memory"),
    }
}

/// The script of an input, or why it has none: by one thread and by several, which agree.
fn told_script(rt: &(impl Abort + AllocGlobal + Threads + Sync), bytes: &[u8]) -> String {
    let told = told_read(rt, read_script(rt.alloc(), bytes));
    let beside = told_read(rt, read_in_parallel(rt, rt.alloc(), bytes));
    assert_eq!(rt; beside.as_str(), told.as_str());
    told
}

/// Each row is an input, and its script.
fn check_scripts(rt: &(impl Abort + AllocGlobal + Threads + Sync), rows: &[(&str, &str)]) {
    for (row, wanted) in rows {
        let input = spelled_out(rt, row);
        let told = told_script(rt, input.as_bytes());
        assert_eq!(rt; told.as_str(), *wanted, "{row}");
    }
}

/// Where a call's text begins and ends.
const TEXTS: [(&str, &str); 26] = [
    ("", ""),
    (" \t\r\n", ""),
    (";; ;", ""),
    ("-- all comment", ""),
    ("--\n--;\n", ""),
    ("commit;", "1.1 run,1.2 end,"),
    ("commit", "1.1 syntax 6,1.2 end,"),
    (" commit\n;begin transaction ; ", "1.1 run,1.2 run,1.3 end,"),
    (
        "commit; -- it's; commit;\ncommit;",
        "1.1 run,1.2 run,1.3 end,",
    ),
    ("-- '\ncommit -- ';\n;", "1.1 run,1.2 end,"),
    ("commit -- no end", "1.1 syntax 6,1.2 end,"),
    ("\n\n commit \t\n \r\n", "1.1 syntax 6,1.2 end,"),
    ("delete from t -- all\nwhere a = 1;", "1.1 run,1.2 end,"),
    ("delete from t where a = '--;';", "1.1 run,1.2 end,"),
    (
        "delete from t where a = 'it''s; -- ''';",
        "1.1 run,1.2 end,",
    ),
    (
        "delete from t where a = '\n-- session 2\n';",
        "1.1 run,1.2 end,",
    ),
    ("select 'it''s", "1.1 syntax 13,1.2 end,"),
    (
        "commit; 'a; \n-- session 2\n ;",
        "1.1 run,1.2 syntax 20,1.3 end,",
    ),
    ("x' -- '; y", "1.1 syntax 0,1.2 syntax 1,1.3 end,"),
    ("/* ; */", "1.1 syntax 0,1.2 syntax 2,1.3 end,"),
    ("\u{feff}commit;", "1.1 syntax 0,1.2 end,"),
    ("commit;\0", "1.1 run,1.2 syntax 1,1.3 end,"),
    ("\u{a0};\u{e9}", "1.1 syntax 0,1.2 syntax 2,1.3 end,"),
    (
        "\u{e9}x \u{a0} \n-\u{e9} ; a",
        "1.1 syntax 0,1.2 syntax 1,1.3 end,",
    ),
    ("begin{65520  }transaction;", "1.1 run,1.2 end,"),
    ("begin{65521  }transaction;", "1.1 limit Statement,1.2 end,"),
];

/// Session lines, and lines that are none.
const SESSIONS: [(&str, &str); 27] = [
    (
        "-- session 2\ncommit;\n-- session 1\ncommit;",
        "2.1 run,1.1 run,1.2 end,2.2 end,",
    ),
    (
        "commit;commit;\n-- session 16\ncommit;\n-- session 1\ncommit;",
        "1.1 run,1.2 run,16.1 run,1.3 run,1.4 end,16.2 end,",
    ),
    ("-- session 10\ncommit;", "10.1 run,10.2 end,"),
    ("-- session 9", ""),
    ("-- session 3\r\ncommit;\r\n", "3.1 run,3.2 end,"),
    ("-- session 4 \t\ncommit;", "4.1 run,4.2 end,"),
    ("\n \t\n-- session 5\ncommit;", "5.1 run,5.2 end,"),
    // A call that isn't closed is refused at its length, and the calls after it are read.
    (
        "commit -- a\n\n-- session 2\ncommit;",
        "1.1 syntax 6,2.1 run,1.2 end,2.2 end,",
    ),
    (
        "begin \n\n-- session 2\ncommit;",
        "1.1 syntax 5,2.1 run,1.2 end,2.2 end,",
    ),
    (
        "begin\n-- session 1\ntransaction;",
        "1.1 syntax 5,1.2 syntax 0,1.3 end,",
    ),
    // These are comments.
    ("-- session", ""),
    ("--session 0\ncommit;", "1.1 run,1.2 end,"),
    (" -- session 0\ncommit;", "1.1 run,1.2 end,"),
    ("\n  -- session 0\ncommit;", "1.1 run,1.2 end,"),
    (";-- session 0\ncommit;", "1.1 run,1.2 end,"),
    ("-- sessions 0\ncommit;", "1.1 run,1.2 end,"),
    ("-- Session 0\ncommit;", "1.1 run,1.2 end,"),
    ("commit;\r-- session 0\rcommit;", "1.1 run,1.2 end,"),
    // These name no session.
    ("-- session ", "BadSession(0)"),
    ("-- session 0", "BadSession(0)"),
    ("commit;\n-- session 17\ncommit;", "BadSession(8)"),
    ("-- session 01", "BadSession(0)"),
    ("-- session 1x", "BadSession(0)"),
    ("-- session 1 2", "BadSession(0)"),
    ("-- session  1", "BadSession(0)"),
    ("-- session 1\u{a0}", "BadSession(0)"),
    (
        "-- session 1\n-- session 1;\n-- session 0",
        "BadSession(13)",
    ),
];

/// The fault that comes first in the input is told.
const FAULTS: [(&str, &str); 2] = [
    ("{300000 ;}{200000 a;};{9 \n;} a", "TooManyCalls(700020)"),
    ("{200000 a;}\n-- session 0\na;", "BadSession(400001)"),
];

#[test]
fn scripts_are_read(rt: HostRuntime) {
    check_scripts(&rt, &TEXTS);
    check_scripts(&rt, &SESSIONS);
}

#[test]
fn the_first_fault_is_reported(rt: HostRuntime) {
    check_scripts(&rt, &FAULTS);
}

#[test]
fn bytes_that_are_no_text_come_first(rt: HostRuntime) {
    let told = told_script(&rt, b"-- session 0\n\xff");
    assert_eq!(rt; told.as_str(), "NotText(13)");
}

/// As many calls as an input may have, in two sessions, and one more that isn't closed.
#[test]
fn as_many_calls_as_may_be(rt: HostRuntime) {
    let mut input = spelled_out(&rt, "{100000 a;}\n-- session 5\n{100000 a;}");
    let script = read_script(rt.alloc(), input.as_bytes()).expect(&rt, "a script");
    let calls = script.calls.items().len();
    drop(script);
    assert_eq!(rt; calls, 200002);
    input.push_str("a\n-- session 0\n").expect(&rt, "memory");
    let told = told_script(&rt, input.as_bytes());
    assert_eq!(rt; told.as_str(), "TooManyCalls(400014)");
}

/// Adds the calls of a session: its number, and the number of each call and what it asks for.
fn put_session(rt: &impl Abort, told: &mut String, calls: &SessionCalls) {
    write!(told, "{}:", calls.session.0).expect(rt, "memory");
    for (number, request) in calls.calls.items() {
        write!(told, " {number}").expect(rt, "memory");
        put_request(rt, told, request);
    }
    told.push(',').expect(rt, "memory");
}

/// The calls of each session.
fn told_sessions(rt: &(impl Abort + AllocGlobal), sessions: &[SessionCalls]) -> String {
    let mut told = String::new(rt.alloc());
    for calls in sessions {
        put_session(rt, &mut told, calls);
    }
    told
}

#[test]
fn scripts_are_split(rt: HostRuntime) {
    let input = b"-- session 16\na;\n-- session 2\ncommit;\n-- session 16\ncommit;;commit";
    let script = read_script(rt.alloc(), input).expect(&rt, "a script");
    let sessions = script.split(rt.alloc()).expect(&rt, "memory");
    let told = told_sessions(&rt, sessions.items());
    assert_eq!(rt;
        told.as_str(),
        "2: 1 run 2 end,16: 1 syntax 0 2 run 3 syntax 6 4 end,"
    );
}
