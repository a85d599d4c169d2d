//! An engine's calls, and the history that it keeps.
ghost use Rattle.grammar_model.specs.Readable.{IsReadable};

use crate::texts::read;
use engine_core::{Closed, Engine};
use outer_world::MemDisk;
use own_base::{Boxed, Place, SessionNo, TableNo, Text};
use own_model::{Entry, Reply, Request, SESSIONS, StoreView};
use serve_model::Step;
use sql_print::{print_reply, print_statement};
use std::alloc::AllocError;
use std::mem::drop;
use std::process::Abort;
use store_snapshot::Snapshot;

/// A session, and its statement with a space between tokens, or End.
type Call = (u8, &'static str);

const CALLS: [Call; 15] = [
    (1, "CREATE DATA_SUBJECT TABLE users ( id INT PRIMARY KEY )"),
    (1, "BEGIN"),
    (1, "INSERT INTO users VALUES ( 5 ) , ( 7 )"),
    (2, "SELECT * FROM users"),
    (2, "BEGIN"),
    (2, "SELECT * FROM users WHERE id = 7"),
    (1, "COMMIT"),
    (2, "SELECT * FROM users WHERE id = 7"),
    (2, "DELETE FROM users WHERE id = 5"),
    (1, "DELETE FROM users WHERE id = 5"),
    (1, "GDPR FORGET users 5"),
    (2, "COMMIT"),
    (2, "SELECT * FROM users"),
    (1, "End"),
    (2, "End"),
];

/// The replies. All calls are numbered together.
const LINES: &str = "\
0 1.1 ok
1 1.2 ok
2 1.3 ok 2
3 2.4 rows 0
4 2.5 ok
5 2.6 refused conflict 1 users 7
6 1.7 ok
7 2.8 rows 1
  7
8 2.9 ok 1
9 1.10 refused conflict 2 users 5
10 1.11 forgot 1 removed 0 changed
11 2.12 refused doomed 10
12 2.13 rows 1
  7
13 1.14 end
14 2.15 end
";

/// What a text asks for.
fn request_of(rt: &(impl Abort + AllocGlobal), text: &str) -> Request
    ensures { IsReadable result }
{
    if text == "End" {
        return Request::End;
    }
    let statement = read(rt, text);
    Request::Run(Boxed::new(rt.alloc(), statement).expect(rt, "memory"))
}

/// The text of what was asked for.
fn text_of(rt: &(impl Abort + AllocGlobal), request: &Request) -> Text {
    match request {
        Request::Run(statement) => print_statement(rt.alloc(), statement.get()).expect(
            rt, "memory",
        ),
        _ => {
            let told = format!(in rt.alloc(); "{request:?}").expect(rt, "memory");
            Text::from_string(told).expect(rt, "memory")
        }
    }
}

/// The lines of a call.
fn lines_of(
    rt: &(impl Abort + AllocGlobal),
    session: SessionNo,
    number: u32,
    answer: Result<(Place, Reply), AllocError>,
) -> Text {
    let (place, reply) = answer.expect(rt, "no answer");
    let lines = print_reply(rt.alloc(), Some(place), session, number, &reply);
    drop(reply);
    lines.expect(rt, "memory")
}

/// Makes a call, which takes room for one entry.
fn make(
    rt: &(impl Abort + AllocGlobal),
    engine: &mut Engine<MemDisk>,
    number: u32,
    call: Call,
) -> Text {
    let (session, text) = call;
    assert!(rt; 1 <= session && session <= SESSIONS);
    let request = request_of(rt, text);
    let spare = engine.spare();
    let answer = engine.answer(SessionNo(session), number, request);
    assert_eq!(rt; Some(engine.spare()), spare.checked_sub(1), "{text}");
    lines_of(rt, SessionNo(session), number, answer)
}

/// Makes the calls, and gives their lines.
fn make_all(rt: &(impl Abort + AllocGlobal), engine: &mut Engine<MemDisk>) -> String {
    let mut lines = String::new(rt.alloc());
    for (number, call) in (1..u32::MAX).zip(CALLS) {
        let told = make(rt, engine, number, call);
        lines.push_str(told.as_str()).expect(rt, "memory");
    }
    lines
}

/// The calls, as a history has them.
fn expect_history(rt: &(impl Abort + AllocGlobal), entries: &[Entry]) {
    assert_eq!(rt; entries.len(), CALLS.len());
    for (number, (entry, (session, text))) in (1..u32::MAX).zip(entries.iter().zip(CALLS)) {
        assert_eq!(rt; (entry.session.0, entry.call), (session, number));
        let asked = text_of(rt, &entry.request);
        assert_eq!(rt; asked.as_str(), text);
    }
}

/// An engine over an empty disk, with room for all calls.
fn opened(rt: &(impl Abort + AllocGlobal)) -> Engine<MemDisk> {
    let disk = MemDisk::new(rt.alloc(), &[]).expect(rt, "memory");
    match Engine::open_with_room(rt.alloc(), disk, CALLS.len() as u32) {
        Ok(engine) => engine,
        Err((fault, _)) => panic!(rt; "{fault:?}"),
    }
}

/// A step of session 1 that is left to who asked: its place, and what shows the database that it reads.
fn left_to_look(
    rt: &(impl Abort + AllocGlobal),
    engine: &mut Engine<MemDisk>,
    number: u32,
    text: &str,
) -> (Place, Snapshot) {
    match engine.step(SessionNo(1), number, request_of(rt, text)) {
        Step::Look(place, shown, _) => (place, shown),
        _ => panic!(rt; "{text} is no look"),
    }
}

/// Whether a step of session 1 is answered, and not left to who asked.
fn is_answered(
    rt: &(impl Abort + AllocGlobal),
    engine: &mut Engine<MemDisk>,
    number: u32,
    text: &str,
) -> bool {
    match engine.step(SessionNo(1), number, request_of(rt, text)) {
        Step::Answered(..) => true,
        _ => false,
    }
}

/// How many rows of the first table are shown.
fn rows_shown(rt: &(impl Abort + AllocGlobal), shown: &Snapshot) -> u64 {
    assert!(rt; !shown.schema().tables.items().is_empty());
    shown.shown().count(TableNo(0))
}

#[test]
fn a_step_leaves_a_look_to_who_asked(rt: HostRuntime) {
    let mut engine = opened(&rt);
    for (number, call) in (1..).zip([CALLS[0], (1, "INSERT INTO users VALUES ( 5 ) , ( 7 )")]) {
        let _lines = make(&rt, &mut engine, number, call);
    }
    let (place, shown) = left_to_look(&rt, &mut engine, 3, "SELECT * FROM users");
    assert_eq!(rt; place.0, 2);
    assert!(rt; is_answered(&rt, &mut engine, 4, "DELETE FROM users WHERE id = 5"));
    let (_, later) = left_to_look(&rt, &mut engine, 5, "GDPR GET users 7");
    assert_eq!(rt; (rows_shown(&rt, &shown), rows_shown(&rt, &later)), (2, 1));
    assert!(rt; is_answered(&rt, &mut engine, 6, "BEGIN"));
    assert!(rt; is_answered(&rt, &mut engine, 7, "SELECT * FROM users"));
    let Closed {
        opened,
        history,
        disk,
    } = engine.close();
    assert_eq!(rt; history.items().len(), 7);
    drop(history);
    drop(opened);
    drop(disk);
}

#[test]
fn calls_are_answered_and_kept(rt: HostRuntime) {
    let mut engine = opened(&rt);
    let lines = make_all(&rt, &mut engine);
    expect_history(&rt, engine.history());
    let Closed {
        opened,
        history,
        disk,
    } = engine.close();
    expect_history(&rt, history.items());
    drop(history);
    assert!(rt; opened.schema().tables.items().is_empty());
    drop(opened);
    drop(disk);
    assert_eq!(rt; lines.as_str(), LINES);
}
