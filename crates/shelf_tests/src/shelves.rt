//! What is kept for data subjects as a store changes, worked out by hand.
ghost use Rattle.state_model.specs.Sound.{IsWellFormed};

use crate::alike::check_get;
use crate::erasing::check_forget;
use crate::store::{Store, store_of};
use own_base::{EdgeNo, Key, RowName, Subject, TableNo, Value};
use shelf_model::{Shelved, Shelves};
use std::mem::drop;
use std::process::Abort;
use store_version::{Shown, Version};

/// A copy: its table and key, the numbers of the edges by which the subject reaches the row, and the row's values.
type Copied = (u32, i64, &'static [u32], &'static [Option<i64>]);

/// What is kept for a user: copies of the rows that it owns, and the tables and keys of those that it sees.
type Kept = (i64, &'static [Copied], &'static [(u32, i64)]);

/// Writes, each a commit of its own, with ` ;; ` between, and what is kept behind the last.
type Case = (&'static str, &'static [Kept]);

/// Edge 0 is that of orders, 1 that of senders, 2 that of receivers.
const POST: &str = "\
CREATE DATA_SUBJECT TABLE users (id INT PRIMARY KEY)
CREATE TABLE orders (id INT PRIMARY KEY, who INT OWNED_BY users(id), n INT)
CREATE TABLE msgs (id INT PRIMARY KEY, sender INT OWNED_BY users(id), receiver INT OWNED_BY users(id))
INSERT INTO users VALUES (5), (7)";

const POST_CASES: [Case; 6] = [
    (
        "INSERT INTO orders VALUES (2, 5, 20), (1, 7, NULL)",
        &[
            (
                5,
                &[
                    (0, 5, &[], &[Some(5)]),
                    (1, 2, &[0], &[Some(2), Some(5), Some(20)]),
                ],
                &[],
            ),
            (
                7,
                &[
                    (0, 7, &[], &[Some(7)]),
                    (1, 1, &[0], &[Some(1), Some(7), None]),
                ],
                &[],
            ),
        ],
    ),
    // The copy has the row as it is now.
    (
        "UPDATE orders SET n = 21 WHERE id = 2",
        &[
            (
                5,
                &[
                    (0, 5, &[], &[Some(5)]),
                    (1, 2, &[0], &[Some(2), Some(5), Some(21)]),
                ],
                &[],
            ),
            (
                7,
                &[
                    (0, 7, &[], &[Some(7)]),
                    (1, 1, &[0], &[Some(1), Some(7), None]),
                ],
                &[],
            ),
        ],
    ),
    // It goes to 7, and stands there behind the order of the lower key.
    (
        "UPDATE orders SET who = 7 WHERE id = 2",
        &[
            (5, &[(0, 5, &[], &[Some(5)])], &[]),
            (
                7,
                &[
                    (0, 7, &[], &[Some(7)]),
                    (1, 1, &[0], &[Some(1), Some(7), None]),
                    (1, 2, &[0], &[Some(2), Some(7), Some(21)]),
                ],
                &[],
            ),
        ],
    ),
    // Each of two owners has a copy, with its own edge; who wrote to itself has one, with both.
    (
        "DELETE FROM orders ;; INSERT INTO msgs VALUES (1, 5, 7), (3, 5, 5)",
        &[
            (
                5,
                &[
                    (0, 5, &[], &[Some(5)]),
                    (2, 1, &[1], &[Some(1), Some(5), Some(7)]),
                    (2, 3, &[1, 2], &[Some(3), Some(5), Some(5)]),
                ],
                &[],
            ),
            (
                7,
                &[
                    (0, 7, &[], &[Some(7)]),
                    (2, 1, &[2], &[Some(1), Some(5), Some(7)]),
                ],
                &[],
            ),
        ],
    ),
    // One of its edges leads elsewhere: 5 owns it still.
    (
        "UPDATE msgs SET sender = 7 WHERE id = 3",
        &[
            (
                5,
                &[
                    (0, 5, &[], &[Some(5)]),
                    (2, 1, &[1], &[Some(1), Some(5), Some(7)]),
                    (2, 3, &[2], &[Some(3), Some(7), Some(5)]),
                ],
                &[],
            ),
            (
                7,
                &[
                    (0, 7, &[], &[Some(7)]),
                    (2, 1, &[2], &[Some(1), Some(5), Some(7)]),
                    (2, 3, &[1], &[Some(3), Some(7), Some(5)]),
                ],
                &[],
            ),
        ],
    ),
    (
        "DELETE FROM msgs WHERE id = 1",
        &[
            (
                5,
                &[
                    (0, 5, &[], &[Some(5)]),
                    (2, 3, &[2], &[Some(3), Some(7), Some(5)]),
                ],
                &[],
            ),
            (
                7,
                &[
                    (0, 7, &[], &[Some(7)]),
                    (2, 3, &[1], &[Some(3), Some(7), Some(5)]),
                ],
                &[],
            ),
        ],
    ),
];

/// Edge 0 is that of who took a photo, 1 that of whom it shows, 2 that of a note's photo, 3 that of a note's writer.
const PHOTOS: &str = "\
CREATE DATA_SUBJECT TABLE users (id INT PRIMARY KEY)
CREATE TABLE photos (id INT PRIMARY KEY, who INT OWNED_BY users(id), shows INT ACCESSED_BY users(id))
CREATE TABLE notes (id INT PRIMARY KEY, photo INT ACCESSED_BY photos(id), who INT OWNED_BY users(id))
INSERT INTO users VALUES (5), (7)";

const PHOTO_CASES: [Case; 4] = [
    // 5 sees the photo and the note below it, and owns neither.
    (
        "INSERT INTO photos VALUES (1, 7, 5) ;; INSERT INTO notes VALUES (4, 1, 7)",
        &[
            (5, &[(0, 5, &[], &[Some(5)])], &[(1, 1), (2, 4)]),
            (
                7,
                &[
                    (0, 7, &[], &[Some(7)]),
                    (1, 1, &[0], &[Some(1), Some(7), Some(5)]),
                    (2, 4, &[2, 3], &[Some(4), Some(1), Some(7)]),
                ],
                &[],
            ),
        ],
    ),
    // What was seen is owned, and isn't seen beside that; 7 sees nothing of the photo, and its note by one edge less.
    (
        "UPDATE photos SET who = 5",
        &[
            (
                5,
                &[
                    (0, 5, &[], &[Some(5)]),
                    (1, 1, &[0, 1], &[Some(1), Some(5), Some(5)]),
                ],
                &[(2, 4)],
            ),
            (
                7,
                &[
                    (0, 7, &[], &[Some(7)]),
                    (2, 4, &[3], &[Some(4), Some(1), Some(7)]),
                ],
                &[],
            ),
        ],
    ),
    // What was owned is seen again.
    (
        "UPDATE photos SET who = 7",
        &[
            (5, &[(0, 5, &[], &[Some(5)])], &[(1, 1), (2, 4)]),
            (
                7,
                &[
                    (0, 7, &[], &[Some(7)]),
                    (1, 1, &[0], &[Some(1), Some(7), Some(5)]),
                    (2, 4, &[2, 3], &[Some(4), Some(1), Some(7)]),
                ],
                &[],
            ),
        ],
    ),
    (
        "DELETE FROM notes ;; UPDATE photos SET shows = NULL",
        &[
            (5, &[(0, 5, &[], &[Some(5)])], &[]),
            (
                7,
                &[
                    (0, 7, &[], &[Some(7)]),
                    (1, 1, &[0], &[Some(1), Some(7), None]),
                ],
                &[],
            ),
        ],
    ),
];

/// Edge 0 is that of who wrote a page, 1 that of who has a folder, 2 that of the page in a folder.
const FOLDERS: &str = "\
CREATE DATA_SUBJECT TABLE users (id INT PRIMARY KEY)
CREATE TABLE pages (id INT PRIMARY KEY, who INT OWNED_BY users(id))
CREATE TABLE folders (id INT PRIMARY KEY, who INT OWNED_BY users(id), page INT OWNS pages(id))
INSERT INTO users VALUES (5), (7)
INSERT INTO pages VALUES (1, 5), (2, 5)";

const FOLDER_CASES: [Case; 3] = [
    (
        "INSERT INTO folders VALUES (9, 5, 1)",
        &[
            (
                5,
                &[
                    (0, 5, &[], &[Some(5)]),
                    (1, 1, &[0, 2], &[Some(1), Some(5)]),
                    (1, 2, &[0], &[Some(2), Some(5)]),
                    (2, 9, &[1], &[Some(9), Some(5), Some(1)]),
                ],
                &[],
            ),
            (7, &[(0, 7, &[], &[Some(7)])], &[]),
        ],
    ),
    // The page is another. Nobody comes or goes, and both pages stay as they are but for the edges that lead up.
    (
        "UPDATE folders SET page = 2",
        &[
            (
                5,
                &[
                    (0, 5, &[], &[Some(5)]),
                    (1, 1, &[0], &[Some(1), Some(5)]),
                    (1, 2, &[0, 2], &[Some(2), Some(5)]),
                    (2, 9, &[1], &[Some(9), Some(5), Some(2)]),
                ],
                &[],
            ),
            (7, &[(0, 7, &[], &[Some(7)])], &[]),
        ],
    ),
    // The folder is another's, who owns the page by it.
    (
        "UPDATE folders SET who = 7",
        &[
            (
                5,
                &[
                    (0, 5, &[], &[Some(5)]),
                    (1, 1, &[0], &[Some(1), Some(5)]),
                    (1, 2, &[0], &[Some(2), Some(5)]),
                ],
                &[],
            ),
            (
                7,
                &[
                    (0, 7, &[], &[Some(7)]),
                    (1, 2, &[2], &[Some(2), Some(5)]),
                    (2, 9, &[1], &[Some(9), Some(7), Some(2)]),
                ],
                &[],
            ),
        ],
    ),
];

fn is_named(name: &RowName, wanted: (u32, i64)) -> bool {
    name.table.0 == wanted.0 && name.key == Key::Int(wanted.1)
}

fn is_value(value: &Value, wanted: Option<i64>) -> bool {
    match value {
        Value::Null => wanted.is_none(),
        Value::Int(number) => wanted == Some(*number),
        _ => false,
    }
}

fn are_values(values: &[Value], wanted: &[Option<i64>]) -> bool {
    values.len() == wanted.len()
        && values
            .iter()
            .zip(wanted)
            .all(|(value, wanted)| is_value(value, *wanted))
}

fn are_edges(edges: &[EdgeNo], wanted: &[u32]) -> bool {
    edges.len() == wanted.len()
        && edges
            .iter()
            .zip(wanted)
            .all(|(edge, wanted)| edge.0 == *wanted)
}

fn is_copy(copy: &Shelved, wanted: &Copied) -> bool {
    let (table, key, by, values) = *wanted;
    is_named(&copy.name, (table, key))
        && are_edges(copy.by.items(), by)
        && are_values(copy.row.values(), values)
}

/// The user of a number.
fn user(number: i64) -> Subject {
    Subject(RowName {
        table: TableNo(0),
        key: Key::Int(number),
    })
}

/// Looks at the copies that are kept for a user, from each of two places on that a run is lent from.
fn check_shelf(
    rt: &(impl Abort + AllocGlobal),
    version: &Version,
    writes: &str,
    subject: &Subject,
    wanted: &[Copied],
)
    requires { IsWellFormed version.now }
{
    let shown = Shown { version };
    let copies = shown.shelf_from(subject, 0);
    assert_eq!(rt; copies.len(), wanted.len(), "{writes}");
    assert!(rt;
        copies
            .iter()
            .zip(wanted)
            .all(|(found, wanted)| is_copy(&found.1, wanted)),
        "{writes}"
    );
    assert_eq!(rt; shown.shelf_count(subject), wanted.len() as u64);
    let behind = shown.shelf_from(subject, 1);
    assert_eq!(rt; behind.len(), wanted.len().saturating_sub(1));
}

/// Looks at the names that are kept for a user.
fn check_seen(
    rt: &(impl Abort + AllocGlobal),
    version: &Version,
    writes: &str,
    subject: &Subject,
    wanted: &[(u32, i64)],
)
    requires { IsWellFormed version.now }
{
    let shown = Shown { version };
    let names = shown.seen_from(subject, 0);
    assert_eq!(rt; names.len(), wanted.len(), "{writes}");
    assert!(rt;
        names
            .iter()
            .zip(wanted)
            .all(|(found, wanted)| is_named(&found.1, *wanted)),
        "{writes}"
    );
    assert_eq!(rt; shown.seen_count(subject), wanted.len() as u64);
}

/// Looks at what is kept for a user, and at its GET and its FORGET both ways.
fn check_kept(rt: &(impl Abort + AllocGlobal), store: &Store, writes: &str, wanted: &Kept) {
    let (number, shelf, seen) = *wanted;
    let subject = user(number);
    check_shelf(rt, store.version(), writes, &subject, shelf);
    check_seen(rt, store.version(), writes, &subject, seen);
    check_get(rt, store.version(), &subject);
    check_forget(rt, store.version(), &subject);
    drop(subject);
}

/// Makes writes, one behind another.
fn run_all(rt: &(impl Abort + AllocGlobal), store: &mut Store, writes: &str) {
    for text in writes.split(" ;; ") {
        drop(store.run(rt, text));
    }
}

/// Makes writes, and looks at what is kept behind them.
fn check_case(rt: &(impl Abort + AllocGlobal), store: &mut Store, case: &Case) {
    let (writes, kept) = *case;
    run_all(rt, store, writes);
    for wanted in kept {
        check_kept(rt, store, writes, wanted);
    }
}

/// Goes over cases, each behind the one before it.
fn check_cases(rt: &(impl Abort + AllocGlobal), before: &str, cases: &[Case]) {
    let mut store = store_of(rt, before);
    for case in cases {
        check_case(rt, &mut store, case);
    }
    drop(store);
}

#[test]
fn shelves_follow_changes(rt: HostRuntime) {
    check_cases(&rt, POST, &POST_CASES);
    check_cases(&rt, PHOTOS, &PHOTO_CASES);
    check_cases(&rt, FOLDERS, &FOLDER_CASES);
}
