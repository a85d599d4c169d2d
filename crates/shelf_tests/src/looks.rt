//! How often a version is looked at for the small databases behind changes. That it is looked at no more than has to be, no
//! clause says.
ghost use Rattle.state_model.specs.Sound.{IsWellFormed};

use crate::counted::Counted;
use crate::store::{Store, store_of};
use crate::writing::Step;
use micro_db::MicroDb;
use std::cell::Cell;
use std::mem::drop;
use std::process::Abort;
use store_version::{Shown, Version};

/// A subject table, and one below it that two may own.
const TABLES: &str = "\
CREATE DATA_SUBJECT TABLE users (id INT PRIMARY KEY)
CREATE TABLE msgs (id INT PRIMARY KEY, sender INT OWNED_BY users(id), receiver INT OWNED_BY users(id), n INT)";

/// How many rows each of the two has, numbered from 0: each user is the sender of the message of its number, and the receiver
/// too.
const ROWS: i64 = 200;

/// A write, and how often the version is looked at for it, at most. Sixty looks are few too, of 400 rows.
const CASES: [(&str, u64); 4] = [
    ("UPDATE msgs SET n = 1 WHERE id = 100", 60),
    ("UPDATE msgs SET sender = 7 WHERE id = 100", 60),
    ("DELETE FROM msgs WHERE id = 100", 60),
    ("INSERT INTO users VALUES (1000)", 60),
];

/// An INSERT of the users.
fn insert_users(rt: &(impl Abort + AllocGlobal)) -> String {
    let alloc = rt.alloc();
    let mut text = format!(in alloc; "INSERT INTO users VALUES (0)").expect(rt, "memory");
    for id in 1..ROWS {
        let row = format!(in alloc; ", ({id})").expect(rt, "memory");
        text.push_str(row.as_str()).expect(rt, "memory");
    }
    text
}

/// An INSERT of the messages.
fn insert_msgs(rt: &(impl Abort + AllocGlobal)) -> String {
    let alloc = rt.alloc();
    let mut text = format!(in alloc; "INSERT INTO msgs VALUES (0, 0, 0, 0)").expect(rt, "memory");
    for id in 1..ROWS {
        let row = format!(in alloc; ", ({id}, {id}, {id}, 0)").expect(rt, "memory");
        text.push_str(row.as_str()).expect(rt, "memory");
    }
    text
}

/// What is kept behind a step that led to a version, and how often the version is looked at for it.
fn looked(
    rt: &(impl Abort + AllocGlobal),
    micro: &MicroDb,
    version: &Version,
    step: &Step,
) -> (MicroDb, u64)
    requires { IsWellFormed version.now }
{
    let counted = Counted {
        shown: Shown { version },
        looks: Cell::new(0),
    };
    let kept = micro.with_moves(
        rt.alloc(),
        &counted,
        step.moves.items(),
        step.changes.items(),
    );
    (kept.expect(rt, "memory"), counted.looks.get())
}

/// Makes a write, and tells what is kept behind it, and how often the version behind it is looked at for that.
fn followed(
    rt: &(impl Abort + AllocGlobal),
    store: &mut Store,
    micro: &MicroDb,
    text: &str,
) -> (MicroDb, u64) {
    let step = store.run(rt, text);
    let both = looked(rt, micro, store.version(), &step);
    drop(step);
    both
}

/// What is kept of the users and their messages, which come into a store of the tables.
fn filled(rt: &(impl Abort + AllocGlobal), store: &mut Store) -> MicroDb {
    let none = MicroDb::new();
    let (users, _) = followed(rt, store, &none, insert_users(rt).as_str());
    drop(none);
    let (all, _) = followed(rt, store, &users, insert_msgs(rt).as_str());
    drop(users);
    all
}

#[test]
fn few_looks_for_shelves(rt: HostRuntime) {
    let mut store = store_of(&rt, TABLES);
    let mut micro = filled(&rt, &mut store);
    for (write, most) in &CASES {
        let (after, looks) = followed(&rt, &mut store, &micro, write);
        assert!(rt; 0 < looks && looks <= *most, "{looks}: {write}");
        micro = after;
    }
    drop(micro);
    drop(store);
}
