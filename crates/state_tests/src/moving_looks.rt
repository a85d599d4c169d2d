//! How often a version is looked at for the owner sets behind changes. That it is looked at no more than has to be, no
//! clause says.
ghost use Rattle.state_model.specs.Sound.{Sound};

use crate::looks::Counted;
use crate::moving::{COMES, GOES, Moved, changed, check_moves, committed};
use crate::store::{Store, store_of};
use move_model::OwnerMove;
use own_base::{Change, List};
use owner_index::OwnerIndex;
use std::cell::Cell;
use std::mem::drop;
use std::process::Abort;
use store_version::{Shown, Version};

/// The moves by changes that led to a version, and how often the version is looked at for them.
fn looked(
    rt: &(impl Abort + AllocGlobal),
    index: &OwnerIndex,
    version: &Version,
    changes: &[Change],
) -> (List<OwnerMove>, u64)
    requires { Sound version.now }
{
    let counted = Counted {
        shown: Shown { version },
        looks: Cell::new(0),
    };
    let both = index.after(rt.alloc(), version.graph(), &counted, &counted, changes);
    let (_, moves) = both.expect(rt, "memory");
    (moves, counted.looks.get())
}

/// A subject table, a private one below it, and one that is neither.
const TABLES: &str = "\
CREATE DATA_SUBJECT TABLE users (id INT PRIMARY KEY)
CREATE TABLE f (id INT PRIMARY KEY, u INT OWNED_BY users(id))
CREATE TABLE t (id INT PRIMARY KEY, n INT)";

/// How many rows each of the first two has, numbered from 0: each user owns the row of its number.
const ROWS: i64 = 200;

/// A write, what moves by it, and how often the version is looked at for that, at most.
type Case = (&'static str, &'static [Moved], u64);

const CASES: [Case; 2] = [
    // The row and the one above it are looked at. Sixty looks are few too, of 400 rows.
    (
        "UPDATE f SET u = 7 WHERE id = 100",
        &[(1, 100, 7, COMES), (1, 100, 100, GOES)],
        60,
    ),
    // The rows of the last table are nobody's.
    ("INSERT INTO t VALUES (1, 1)", &[], 0),
];

/// An INSERT of the users.
pub fn insert_users(rt: &(impl Abort + AllocGlobal)) -> String {
    let alloc = rt.alloc();
    let mut text = format!(in alloc; "INSERT INTO users VALUES (0)").expect(rt, "memory");
    for id in 1..ROWS {
        let row = format!(in alloc; ", ({id})").expect(rt, "memory");
        text.push_str(row.as_str()).expect(rt, "memory");
    }
    text
}

/// An INSERT of the rows that they own.
pub fn insert_owned(rt: &(impl Abort + AllocGlobal)) -> String {
    let alloc = rt.alloc();
    let mut text = format!(in alloc; "INSERT INTO f VALUES (0, 0)").expect(rt, "memory");
    for id in 1..ROWS {
        let row = format!(in alloc; ", ({id}, {id})").expect(rt, "memory");
        text.push_str(row.as_str()).expect(rt, "memory");
    }
    text
}

/// The owner sets of the rows, which come into a store of the tables.
fn filled(rt: &(impl Abort + AllocGlobal), store: &mut Store) -> OwnerIndex {
    let none = OwnerIndex::new();
    let (users, _) = committed(rt, store, &none, insert_users(rt).as_str());
    drop(none);
    let (index, _) = committed(rt, store, &users, insert_owned(rt).as_str());
    drop(users);
    index
}

/// One write, over the owner sets of the state before it.
fn check_looks(
    rt: &(impl Abort + AllocGlobal),
    store: &mut Store,
    index: &OwnerIndex,
    case: &Case,
) {
    let (text, wanted, most) = *case;
    let changes = changed(rt, store, text);
    let (moves, looks) = looked(rt, index, store.version(), &changes);
    drop(changes);
    check_moves(rt, moves, wanted);
    assert!(rt; looks <= most, "{looks}: {text}");
}

#[test]
fn few_looks_for_owner_sets(rt: HostRuntime) {
    for case in &CASES {
        let mut store = store_of(&rt, TABLES);
        let index = filled(&rt, &mut store);
        check_looks(&rt, &mut store, &index, case);
        drop(index);
        drop(store);
    }
}
