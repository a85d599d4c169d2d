//! Inputs that come in pieces: the calls, the Ends and the faults are those of the whole.

ghost use Rattle.std.specs.Prelude.{◌≤◌, OnOk};
ghost use Rattle.call_stream.specs.Taken.{IsRead, IsSound};

use call_stream::{CallStream, StreamCall, StreamEnd, StreamFault};
use own_model::{Request, ScriptCall};
use sql_reader::read_script;
use std::fmt::Write;
use std::mem::drop;
use std::process::Abort;

/// What a request is.
fn put_request(rt: &impl Abort, told: &mut String, request: &Request) {
    let put = match request {
        Request::Run(_) => write!(told, " run"),
        Request::Syntax(byte) => write!(told, " syntax {byte}"),
        Request::Limit(limit) => write!(told, " limit {limit:?}"),
        Request::End => write!(told, " end"),
    };
    put.expect(rt, "memory");
}

/// Adds a call: its session and number, and what it asks for.
fn put_call(rt: &impl Abort, told: &mut String, call: &ScriptCall) {
    write!(told, "{}.{}", call.session.0, call.call).expect(rt, "memory");
    put_request(rt, told, &call.request);
    told.push(',').expect(rt, "memory");
}

/// The script of an input as a whole, or why it has none.
fn told_script(rt: &(impl Abort + AllocGlobal), bytes: &[u8]) -> String {
    let mut told = String::new(rt.alloc());
    match read_script(rt.alloc(), bytes) {
        Ok(script) => {
            for call in script.calls.items() {
                put_call(rt, &mut told, call);
            }
            drop(script);
        }
        Err(fault) => write!(told, "{fault:?}").expect(rt, "memory"),
    }
    told
}

/// Takes what a stream gives, up to where nothing more is closed.
fn take_calls(
    rt: &impl Abort,
    stream: &mut CallStream,
    told: &mut String,
) -> Result<(), StreamFault>
    requires { IsSound stream.old }
    ensures sound { IsSound stream.new }
    ensures read { OnOk result (IsRead stream.new) }
{
    while let Some(shown) = stream.next()? {
        put_call(rt, told, &shown.call);
        drop(shown);
    }
    Ok(())
}

/// Takes a piece in, and what is closed then.
fn take_piece(
    rt: &impl Abort,
    stream: &mut CallStream,
    piece: &[u8],
    told: &mut String,
) -> Result<(), StreamFault>
    requires { IsSound stream.old }
    ensures sound { IsSound stream.new }
    ensures read { OnOk result (IsRead stream.new) }
{
    stream.push(piece)?;
    take_calls(rt, stream, told)
}

/// What the end of an input leaves.
fn put_end(rt: &impl Abort, told: &mut String, end: StreamEnd) {
    if let Some(shown) = &end.open_call {
        put_call(rt, told, &shown.call);
    }
    for call in end.ends.items() {
        put_call(rt, told, call);
    }
    drop(end);
}

/// What a stream tells of two pieces and the end.
fn put_cut(
    rt: &(impl Abort + AllocGlobal),
    told: &mut String,
    first: &[u8],
    second: &[u8],
) -> Result<(), StreamFault> {
    let mut stream = CallStream::new(rt.alloc());
    take_piece(rt, &mut stream, first, told)?;
    take_piece(rt, &mut stream, second, told)?;
    let end = stream.finish()?;
    put_end(rt, told, end);
    Ok(())
}

/// What a stream tells of pieces of that many bytes, and the end.
fn put_pieces(
    rt: &(impl Abort + AllocGlobal),
    told: &mut String,
    input: &[u8],
    len: usize,
) -> Result<(), StreamFault>
    requires { 1 ≤ len }
{
    let mut stream = CallStream::new(rt.alloc());
    for piece in input.chunks(len) {
        take_piece(rt, &mut stream, piece, told)?;
    }
    let end = stream.finish()?;
    put_end(rt, told, end);
    Ok(())
}

/// Adds a fault, as `read_script` tells it.
fn put_fault(rt: &impl Abort, told: &mut String, given: Result<(), StreamFault>) {
    if let Err(fault) = given {
        told.clear();
        write!(told, "{fault:?}").expect(rt, "memory");
    }
}

/// An input of some 300 bytes: quotes, doubled quotes, comments, session lines and dashes at many places.
const SCRIPT: &str =
    "create table t (a int primary key, b text);\n-- session 2\ninsert into t values (1, 'it''s; -- no comment'), (2, '\n-- session 3\n');;-- a comment; 'quote\nselect * -- all\nfrom t -- of it\n;\n-- session 16\t\n select a - -1 from t; update t set a=a-1;\n--session 4\n-- session 2\r\ncommit;delete from t where b = '\u{e9};\u{1f600}' ;\n  begin -- open\n-- session 1\nrollback; gdpr forget t 'x";

#[test]
fn each_cut_in_two(rt: HostRuntime) {
    let input = SCRIPT.as_bytes();
    let wanted = told_script(&rt, input);
    for at in 0..input.len() {
        let mut told = String::new(rt.alloc());
        let given = put_cut(&rt, &mut told, &input[..at], &input[at..]);
        put_fault(&rt, &mut told, given);
        assert_eq!(rt; told.as_str(), wanted.as_str(), "cut at {at}");
    }
}

#[test]
fn pieces_of_some_bytes(rt: HostRuntime) {
    let input = SCRIPT.as_bytes();
    let wanted = told_script(&rt, input);
    for len in 1..9usize {
        let mut told = String::new(rt.alloc());
        let given = put_pieces(&rt, &mut told, input, len);
        put_fault(&rt, &mut told, given);
        assert_eq!(rt; told.as_str(), wanted.as_str(), "pieces of {len}");
    }
}

/// Each row is an input, and what is told of it, byte by byte.
const ROWS: [(&str, &str); 14] = [
    ("", ""),
    (" ;; -- nothing\n;", ""),
    ("commit;", "1.1 run,1.2 end,"),
    ("commit", "1.1 syntax 6,1.2 end,"),
    ("commit -", "1.1 syntax 8,1.2 end,"),
    ("commit --", "1.1 syntax 6,1.2 end,"),
    ("commit -- session 2\n;", "1.1 run,1.2 end,"),
    (
        "commit\n-- session 2\n;commit;",
        "1.1 syntax 6,2.1 run,1.2 end,2.2 end,",
    ),
    ("commit\n-- session 2", "1.1 syntax 6,1.2 end,"),
    ("-- session 17\ncommit;", "BadSession(0)"),
    ("commit;\n-- session x", "BadSession(8)"),
    ("gdpr forget t 'a;b' ;'", "1.1 run,1.2 syntax 1,1.3 end,"),
    ("'  ", "1.1 syntax 1,1.2 end,"),
    ("-", "1.1 syntax 1,1.2 end,"),
];

#[test]
fn worked_cases(rt: HostRuntime) {
    for (row, wanted) in &ROWS {
        let mut told = String::new(rt.alloc());
        let given = put_pieces(&rt, &mut told, row.as_bytes(), 1);
        put_fault(&rt, &mut told, given);
        assert_eq!(rt; told.as_str(), *wanted, "{row}");
    }
}

/// The texts of a stream's calls, and the lines on which they begin.
fn told_texts(
    rt: &impl Abort,
    stream: &mut CallStream,
    told: &mut String,
) -> Result<(), StreamFault>
    requires { IsSound stream.old }
{
    while let Some(shown) = stream.next()? {
        put_text(rt, told, &shown);
        drop(shown);
    }
    Ok(())
}

fn put_text(rt: &impl Abort, told: &mut String, shown: &StreamCall) {
    write!(told, "{}:{};", shown.line, shown.text.as_str()).expect(rt, "memory");
}

#[test]
fn texts_and_lines(rt: HostRuntime) {
    let mut stream = CallStream::new(rt.alloc());
    let mut told = String::new(rt.alloc());
    let pushed = stream.push(b"\ncommit\n;;\n-- a\n begin\n\n;rollback;");
    assert!(rt; pushed.is_ok());
    let given = told_texts(&rt, &mut stream, &mut told);
    assert!(rt; given.is_ok());
    assert_eq!(rt; told.as_str(), "2:commit;5:begin;7:rollback;");
    drop(stream);
}

/// Text is told where the bytes stop being UTF-8, also where a piece ends within a character.
const NOT_TEXT: [(&[u8], &str); 4] = [
    (b"commit;\xc3\xa9;\xff;", "NotText(10)"),
    (b"commit;'\xc3", "NotText(8)"),
    (b"\xef\xbb\xbfcommit;", "1.1 syntax 0,1.2 end,"),
    (b"'\xf0\x9f\x98;'", "NotText(1)"),
];

#[test]
fn bytes_that_are_no_text(rt: HostRuntime) {
    for (row, wanted) in &NOT_TEXT {
        let mut told = String::new(rt.alloc());
        let given = put_pieces(&rt, &mut told, row, 1);
        put_fault(&rt, &mut told, given);
        assert_eq!(rt; told.as_str(), *wanted);
    }
}
