//! Owner sets carried along by changes: whose each row becomes, and which subjects come to stand otherwise to it.
ghost use Rattle.state_model.specs.Sound.{Sound};
ghost use Rattle.state_tests.specs.Asked.{IsMeant};

use crate::kept::{bound, written};
use crate::store::{Store, store_of};
use crate::texts::read;
use move_model::{OwnerMove, Standing};
use own_base::{Change, Key, List, RowName, Subject, TableNo};
use own_model::Bound;
use owner_index::OwnerIndex;
use std::mem::drop;
use std::process::Abort;
use store_version::{Shown, Version};

/// A row by its table and key, a user, and how the user stands to the row before and after.
pub type Moved = (u32, i64, i64, (Standing, Standing));

/// The user comes to own the row.
pub const COMES: (Standing, Standing) = (Standing::Nothing, Standing::Owns);

/// The user owned the row, and has nothing to do with it any more.
pub const GOES: (Standing, Standing) = (Standing::Owns, Standing::Nothing);

/// The user owned the row, and may see it still.
const SEES: (Standing, Standing) = (Standing::Owns, Standing::Reaches);

/// The user saw the row, and sees it no more.
const SAW: (Standing, Standing) = (Standing::Reaches, Standing::Nothing);

/// The writes of one commit, one a line, and what moves by it.
struct Case {
    writes: &'static str,
    moves: &'static [Moved],
}

/// Tables 0 to 4, each below the one before it.
const CHAIN: &str = "\
CREATE DATA_SUBJECT TABLE users (id INT PRIMARY KEY)
CREATE TABLE f (id INT PRIMARY KEY, u INT OWNED_BY users(id))
CREATE TABLE g (id INT PRIMARY KEY, f INT OWNED_BY f(id))
CREATE TABLE h (id INT PRIMARY KEY, g INT OWNED_BY g(id))
CREATE TABLE k (id INT PRIMARY KEY, h INT OWNED_BY h(id))";

const CHAIN_CASES: [Case; 11] = [
    // A user is its own.
    Case {
        writes: "INSERT INTO users VALUES (5), (7), (9)",
        moves: &[(0, 5, 5, COMES), (0, 7, 7, COMES), (0, 9, 9, COMES)],
    },
    Case {
        writes: "INSERT INTO f VALUES (1, 5), (2, 7)",
        moves: &[(1, 1, 5, COMES), (1, 2, 7, COMES)],
    },
    Case {
        writes: "INSERT INTO g VALUES (1, 1), (2, 2)",
        moves: &[(2, 1, 5, COMES), (2, 2, 7, COMES)],
    },
    Case {
        writes: "INSERT INTO h VALUES (1, 1)",
        moves: &[(3, 1, 5, COMES)],
    },
    Case {
        writes: "INSERT INTO k VALUES (1, 1)",
        moves: &[(4, 1, 5, COMES)],
    },
    // Rows 1 of g, h and k are below row 1 of f, and row 2 of g isn't.
    Case {
        writes: "UPDATE f SET u = 7 WHERE id = 1",
        moves: &[
            (1, 1, 5, GOES),
            (1, 1, 7, COMES),
            (2, 1, 5, GOES),
            (2, 1, 7, COMES),
            (3, 1, 5, GOES),
            (3, 1, 7, COMES),
            (4, 1, 5, GOES),
            (4, 1, 7, COMES),
        ],
    },
    // Both rows of f are of 7, so the owner stays.
    Case {
        writes: "UPDATE g SET f = 2 WHERE id = 1",
        moves: &[],
    },
    // Row 1 of f goes to 9. Row 1 of g stays with row 2 of f, and so with 7; row 2 of g comes under row 1 of f.
    Case {
        writes: "UPDATE f SET u = 9 WHERE id = 1\nUPDATE g SET f = 1 WHERE id = 2",
        moves: &[
            (1, 1, 7, GOES),
            (1, 1, 9, COMES),
            (2, 2, 7, GOES),
            (2, 2, 9, COMES),
        ],
    },
    // Row 1 of f goes to 5 and loses row 2 of g to row 2 of f, which is of 7; row 1 of g, with all below it, comes under it.
    Case {
        writes: "UPDATE f SET u = 5 WHERE id = 1\nUPDATE g SET f = 2 WHERE id = 2\nUPDATE g SET f = 1 WHERE id = 1",
        moves: &[
            (1, 1, 5, COMES),
            (1, 1, 9, GOES),
            (2, 1, 5, COMES),
            (2, 1, 7, GOES),
            (2, 2, 7, COMES),
            (2, 2, 9, GOES),
            (3, 1, 5, COMES),
            (3, 1, 7, GOES),
            (4, 1, 5, COMES),
            (4, 1, 7, GOES),
        ],
    },
    // An owner comes and goes in one commit, and so does a row.
    Case {
        writes: "UPDATE f SET u = 9 WHERE id = 1\nUPDATE f SET u = 5 WHERE id = 1",
        moves: &[],
    },
    Case {
        writes: "INSERT INTO f VALUES (3, 9)\nDELETE FROM f WHERE id = 3",
        moves: &[],
    },
];

/// Tables 0 to 2. A row of f owns a row of g and may see another.
const UPPER: &str = "\
CREATE DATA_SUBJECT TABLE users (id INT PRIMARY KEY)
CREATE TABLE g (id INT PRIMARY KEY, u INT OWNED_BY users(id))
CREATE TABLE f (id INT PRIMARY KEY, u INT OWNED_BY users(id), o INT OWNS g(id), a INT ACCESSES g(id))";

const UPPER_CASES: [Case; 7] = [
    Case {
        writes: "INSERT INTO users VALUES (5), (7)",
        moves: &[(0, 5, 5, COMES), (0, 7, 7, COMES)],
    },
    Case {
        writes: "INSERT INTO g VALUES (1, 5), (2, 5)",
        moves: &[(1, 1, 5, COMES), (1, 2, 5, COMES)],
    },
    Case {
        writes: "INSERT INTO f VALUES (1, 7, NULL, NULL)",
        moves: &[(2, 1, 7, COMES)],
    },
    Case {
        writes: "UPDATE f SET o = 1",
        moves: &[(1, 1, 7, COMES)],
    },
    // 7 owns the other row by it, and sees the one that it owned.
    Case {
        writes: "UPDATE f SET o = 2, a = 1",
        moves: &[(1, 1, 7, SEES), (1, 2, 7, COMES)],
    },
    // 5 owns both rows already.
    Case {
        writes: "UPDATE f SET u = 5",
        moves: &[
            (1, 1, 7, SAW),
            (1, 2, 7, GOES),
            (2, 1, 5, COMES),
            (2, 1, 7, GOES),
        ],
    },
    Case {
        writes: "DELETE FROM f",
        moves: &[(2, 1, 5, GOES)],
    },
];

/// The row of a table by its key.
fn named(table: u32, key: i64) -> RowName {
    RowName {
        table: TableNo(table),
        key: Key::Int(key),
    }
}

/// The net of what a bound statement changes, which has to be a write.
fn changes_of(rt: &(impl Abort + AllocGlobal), version: &Version, bound: &Bound) -> List<Change>
    requires sound { Sound version.now }
    requires meant { IsMeant version.now.schema bound.now }
{
    match bound {
        Bound::Insert { .. } | Bound::Update { .. } | Bound::Delete { .. } => {
            written(rt, version, bound)
        }
        _ => panic!(rt; "no write"),
    }
}

/// The net of what a write changes.
fn changes_by(rt: &(impl Abort + AllocGlobal), version: &Version, text: &str) -> List<Change>
    requires { Sound version.now }
{
    let statement = read(rt, text);
    let bound = bound(rt, version, &statement);
    drop(statement);
    let changes = changes_of(rt, version, &bound);
    drop(bound);
    changes
}

/// Puts a change behind those of the same commit: of two of one row the first tells what was, and the last what is.
fn add_change(rt: &impl Abort, changes: &mut Vec<Change>, change: Change) {
    match changes.iter().position(|old| old.name == change.name) {
        Some(place) => {
            let Change { after, .. } = change;
            changes[place].after = after;
        }
        None => changes.push(change).expect(rt, "memory"),
    }
}

/// Puts changes behind those of the same commit.
fn add_changes(rt: &impl Abort, changes: &mut Vec<Change>, more: List<Change>) {
    for change in more.into_vec() {
        add_change(rt, changes, change);
    }
}

/// Runs the writes of a commit, and gives what they change together.
pub fn changed(rt: &(impl Abort + AllocGlobal), store: &mut Store, writes: &str) -> Vec<Change> {
    let mut together = Vec::new(rt.alloc());
    for text in writes.split('\n') {
        let changes = changes_by(rt, store.version(), text);
        store.run(rt, text);
        add_changes(rt, &mut together, changes);
    }
    together
}

/// The owner sets behind changes that led to a version, and the moves.
pub fn followed(
    rt: &(impl Abort + AllocGlobal),
    index: &OwnerIndex,
    version: &Version,
    changes: &[Change],
) -> (OwnerIndex, List<OwnerMove>)
    requires { Sound version.now }
{
    let shown = Shown { version };
    let both = index.after(rt.alloc(), version.graph(), &shown, &shown, changes);
    both.expect(rt, "memory")
}

/// Whether a move is this one.
fn is_move(found: &OwnerMove, wanted: &Moved) -> bool {
    let (table, key, user, (before, after)) = *wanted;
    found.name == named(table, key)
        && found.subject.0 == named(0, user)
        && found.before == before
        && found.after == after
}

/// Looks at the moves, and at their order.
pub fn check_moves(rt: &impl Abort, moves: List<OwnerMove>, wanted: &[Moved]) {
    assert_eq!(rt; moves.items().len(), wanted.len());
    assert!(rt;
        moves
            .items()
            .iter()
            .zip(wanted)
            .all(|(found, wanted)| is_move(found, wanted))
    );
    drop(moves);
}

/// Makes a commit, and gives the owner sets behind it and the moves.
pub fn committed(
    rt: &(impl Abort + AllocGlobal),
    store: &mut Store,
    index: &OwnerIndex,
    writes: &str,
) -> (OwnerIndex, List<OwnerMove>) {
    let changes = changed(rt, store, writes);
    let both = followed(rt, index, store.version(), &changes);
    drop(changes);
    both
}

/// Looks at what moves by a commit, and gives the owner sets behind it.
fn check_case(
    rt: &(impl Abort + AllocGlobal),
    store: &mut Store,
    index: &OwnerIndex,
    case: &Case,
) -> OwnerIndex {
    let (after, moves) = committed(rt, store, index, case.writes);
    check_moves(rt, moves, case.moves);
    after
}

/// Makes the commits, one after another, and gives the owner sets behind the last.
fn check_cases(rt: &(impl Abort + AllocGlobal), creates: &str, cases: &[Case]) -> OwnerIndex {
    let mut store = store_of(rt, creates);
    let mut index = OwnerIndex::new();
    for case in cases {
        index = check_case(rt, &mut store, &index, case);
    }
    drop(store);
    index
}

/// Whether these subjects are one user alone.
fn is_one(subjects: &[Subject], user: i64) -> bool {
    match subjects {
        [subject] => subject.0 == named(0, user),
        _ => false,
    }
}

#[test]
fn owners_move_along_the_chain(rt: HostRuntime) {
    let index = check_cases(&rt, CHAIN, &CHAIN_CASES);
    let last = named(4, 1);
    assert!(rt; is_one(index.owners(&last), 5));
    assert!(rt; is_one(index.reach(&last), 5));
    drop(last);
    let absent = named(4, 2);
    assert!(rt; index.owners(&absent).is_empty());
    assert!(rt; index.reach(&absent).is_empty());
    drop(absent);
}

#[test]
fn columns_of_upper_rows_give_and_take(rt: HostRuntime) {
    let index = check_cases(&rt, UPPER, &UPPER_CASES);
    let seen = named(1, 1);
    assert!(rt; is_one(index.owners(&seen), 5));
    assert!(rt; is_one(index.reach(&seen), 5));
    drop(seen);
}

/// How many rows of g are below row 1 of f, numbered from 0.
const MANY: i64 = 1000;

/// An INSERT of them.
fn insert_many(rt: &(impl Abort + AllocGlobal)) -> String {
    let alloc = rt.alloc();
    let mut text = format!(in alloc; "INSERT INTO g VALUES (0, 1)").expect(rt, "memory");
    for id in 1..MANY {
        let row = format!(in alloc; ", ({id}, 1)").expect(rt, "memory");
        text.push_str(row.as_str()).expect(rt, "memory");
    }
    text
}

/// Adds that a row goes from 5 to 7.
fn add_both(rt: &impl Abort, moves: &mut Vec<Moved>, table: u32, key: i64) {
    moves.push((table, key, 5, GOES)).expect(rt, "memory");
    moves.push((table, key, 7, COMES)).expect(rt, "memory");
}

/// What moves where row 1 of f goes from 5 to 7: it and each row below it, once by each of the two.
fn many_moves(rt: &(impl Abort + AllocGlobal)) -> Vec<Moved> {
    let mut moves = Vec::new(rt.alloc());
    add_both(rt, &mut moves, 1, 1);
    for id in 0..MANY {
        add_both(rt, &mut moves, 2, id);
    }
    moves
}

#[test]
fn many_rows_move_once_each(rt: HostRuntime) {
    let mut store = store_of(&rt, CHAIN);
    let none = OwnerIndex::new();
    let upper = "INSERT INTO users VALUES (5), (7)\nINSERT INTO f VALUES (1, 5)";
    let (before, _) = committed(&rt, &mut store, &none, upper);
    drop(none);
    let (index, _) = committed(&rt, &mut store, &before, insert_many(&rt).as_str());
    drop(before);
    let (_, moves) = committed(&rt, &mut store, &index, "UPDATE f SET u = 7");
    drop(index);
    drop(store);
    check_moves(&rt, moves, &many_moves(&rt));
}
