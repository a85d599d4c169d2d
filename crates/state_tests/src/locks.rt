//! Who holds what of a store, and who is told to stand in a statement's way.

use crate::kept::bound;
use crate::spaces::name_of;
use crate::store::{Store, store_of};
use crate::texts::{parts, read};
use own_base::SessionNo;
use own_model::Footprint;
use plan_bind::footprint;
use row_locks::LockTable;
use std::mem::drop;
use std::process::Abort;

/// Tables 0, 1 and 2, and a view of table 0.
const STORE: &str = "\
CREATE DATA_SUBJECT TABLE users (id INT PRIMARY KEY, name TEXT)
CREATE TABLE notes (id INT PRIMARY KEY, who INT OWNED_BY users(id))
CREATE TABLE cities (name TEXT PRIMARY KEY, size INT)
CREATE VIEW names AS SELECT name FROM users";

/// What sessions ask for in turn, and what that comes to. Who only reads stands in nobody's way who only reads; of several
/// sessions the lowest other one is reported, and of several items the first, by rising key. Views and joins read tables whole.
const STATEMENTS: &str = "\
1 SELECT * FROM users WHERE id = 5 => held
2 SELECT * FROM users WHERE id = 5 => held
3 SELECT * FROM users => held
4 UPDATE users SET name = 'x' WHERE id = 5 => 1 write 0 Some(Int(5))
1 UPDATE users SET name = 'x' WHERE id = 5 => 2 write 0 Some(Int(5))
4 UPDATE users SET name = 'x' WHERE id = 7 => 3 write 0 Some(Int(7))
4 DELETE FROM users WHERE name = 'x' => 1 write 0 None
3 COMMIT => let go
4 UPDATE users SET name = 'x' WHERE id = 7 => held
4 UPDATE users SET name = 'x' WHERE id = 7 => held
1 SELECT * FROM users => 4 read 0 None
1 SELECT * FROM users WHERE name = 'x' AND id = 6 => held
2 INSERT INTO users (id) VALUES (8), (7), (6), (5) => 1 write 0 Some(Int(5))
2 INSERT INTO users (id) VALUES (8), (7), (9) => 4 write 0 Some(Int(7))
2 SELECT name FROM names => 4 read 0 None
2 SELECT notes.id FROM notes JOIN users ON notes.who = users.id => 4 read 0 None
4 COMMIT => let go
2 SELECT notes.id FROM notes JOIN users ON notes.who = users.id => held
1 INSERT INTO notes VALUES (1, 5) => 2 write 1 Some(Int(1))
16 INSERT INTO cities VALUES ('Ulm', 1) => held
15 SELECT * FROM cities WHERE name = 'Ulm' => 16 read 2 Some(Text(Text { text: \"Ulm\" }))
15 SELECT * FROM cities WHERE name = 'ulm' => held
16 DELETE FROM cities => 15 write 2 None";

/// What a text may read or write.
fn footprint_of(rt: &(impl Abort + AllocGlobal), store: &Store, text: &str) -> Footprint {
    let version = store.version();
    let statement = read(rt, text);
    let bound = bound(rt, version, &statement);
    drop(statement);
    let items = footprint(rt.alloc(), version.schema(), &bound);
    drop(bound);
    items.expect(rt, "memory")
}

/// The session that stands in the way, and what it keeps from being read or written: a row of a table, or all of it.
/// Where nobody stands there, the session that asks holds the footprint from then on.
fn asked(
    rt: &(impl Abort + AllocGlobal),
    locks: &mut LockTable,
    session: SessionNo,
    footprint: Footprint,
) -> String {
    let alloc = rt.alloc();
    if let Some(held) = locks.first_holder(session, &footprint) {
        let item = held.item;
        let done = if item.write { "write" } else { "read" };
        return format!(in alloc;
            "{} {done} {} {:?}",
            held.session.0, item.table.0, item.key
        ).expect(rt, "memory");
    }
    locks.grant(alloc, session, footprint).expect(rt, "memory");
    format!(in alloc; "held").expect(rt, "memory")
}

/// What a statement of a session comes to. A COMMIT lets go.
fn told(
    rt: &(impl Abort + AllocGlobal),
    store: &Store,
    locks: &mut LockTable,
    call: &str,
) -> String {
    let (session, text) = call.split_once(' ').expect(rt, "a session");
    let session = SessionNo(session.parse::<u8>().expect(rt, "a number"));
    if text == "COMMIT" {
        locks.release(session);
        return format!(in rt.alloc(); "let go").expect(rt, "memory");
    }
    asked(rt, locks, session, footprint_of(rt, store, text))
}

/// The rows of a table: a session, its statement, and what that comes to.
fn check_statements(
    rt: &(impl Abort + AllocGlobal),
    store: &Store,
    locks: &mut LockTable,
    rows: &str,
) {
    for row in rows.split('\n') {
        let (call, wanted) = parts(rt, row);
        assert_eq!(rt; told(rt, store, locks, call).as_str(), wanted, "{call}");
    }
}

#[test]
fn the_lowest_session_in_the_way_is_named(rt: HostRuntime) {
    let store = store_of(&rt, STORE);
    let mut locks = LockTable::new(rt.alloc());
    check_statements(&rt, &store, &mut locks, STATEMENTS)
}

/// What sessions hold: rows that are read and written, or a whole table.
const HELD: &str = "\
1 SELECT * FROM users WHERE id = 5 => held
1 DELETE FROM notes WHERE id = 2 => held
2 SELECT * FROM cities => held";

/// A session, two rows by table and key, and whether one of them lies on what it holds.
const LYING: [(u8, (u32, i64), (u32, i64), bool); 6] = [
    (1, (0, 5), (0, 6), true),
    (1, (0, 2), (1, 5), false),
    (1, (2, 2), (1, 2), true),
    (2, (0, 5), (2, -7), true),
    (2, (0, 5), (1, 2), false),
    (3, (0, 5), (2, 2), false),
];

#[test]
fn rows_lie_on_what_a_session_holds(rt: HostRuntime) {
    let store = store_of(&rt, STORE);
    let mut locks = LockTable::new(rt.alloc());
    let held = check_statements(&rt, &store, &mut locks, HELD);
    for (session, left, right, lies) in LYING {
        let names = [name_of(left), name_of(right)];
        assert_eq!(rt; locks.overlaps(SessionNo(session), &names), lies);
    }
    held
}
