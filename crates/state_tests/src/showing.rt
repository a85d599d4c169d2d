//! What a data subject is shown.
ghost use Rattle.state_model.specs.Sound.{Sound};

use crate::kept::subject_of;
use crate::store::store_of;
use crate::texts::{check_lines, parts};
use own_model::Reply;
use std::process::Abort;
use store_version::{Shown, Version};
use subject_access::{collect_flat, no_subject};

/// Two people, what each owns, and a room that whoever holds a key to it may see: its code is hidden by that edge.
pub const HOUSE: &str = "\
CREATE DATA_SUBJECT TABLE users (id INT PRIMARY KEY, name TEXT)
CREATE TABLE rooms (id INT PRIMARY KEY, who INT OWNED_BY users(id), code TEXT)
CREATE TABLE keys (id INT PRIMARY KEY, who INT OWNED_BY users(id), room INT ACCESSES rooms(id), ON GET room ANON (code))
INSERT INTO users VALUES (5, 'Ann'), (7, 'Bo')
INSERT INTO rooms VALUES (1, 5, 'x'), (2, 7, 'y'), (3, 7, 'z')
INSERT INTO keys VALUES (10, 5, 2), (11, 5, 1), (12, 7, NULL)";

/// The GDPR GETs of the house.
const SHOWN: [&str; 3] = [
    "GDPR GET users 5 => got 5 / users|5|'Ann' / rooms|1|5|'x' / rooms|2|7|HIDDEN / keys|10|5|2 / keys|11|5|1",
    "GDPR GET users 7 => got 4 / users|7|'Bo' / rooms|2|7|'y' / rooms|3|7|'z' / keys|12|7|NULL",
    "GDPR GET users 8 => refused absent users 8",
];

/// The schema of the house: each table, and behind it its edges.
const GRAPH: &str =
    "graph 6 / users subject / rooms private / rooms.who OWNED_BY users / keys private / keys.who OWNED_BY users / keys.room ACCESSES rooms GET (code)";

/// One GDPR GET.
fn check_shown(rt: &(impl Abort + AllocGlobal), version: &Version, case: &str)
    requires { Sound version.now }
{
    let (call, wanted) = parts(rt, case);
    let subject = subject_of(rt, version, call);
    let shown = Shown { version };
    let reply = collect_flat(rt.alloc(), &shown, &subject).expect(rt, "memory");
    check_lines(rt, reply, wanted)
}

#[test]
fn subjects_are_shown_what_reaches_them(rt: HostRuntime) {
    let store = store_of(&rt, HOUSE);
    for case in &SHOWN {
        check_shown(&rt, store.version(), case);
    }
}

/// Who is absent.
fn check_absent(rt: &(impl Abort + AllocGlobal), version: &Version)
    requires { Sound version.now }
{
    let subject = subject_of(rt, version, "GDPR GET users 9");
    let why = no_subject(rt.alloc(), version.schema(), &subject).expect(rt, "memory");
    check_lines(rt, Reply::Refused(why), "refused absent users 9")
}

#[test]
fn who_is_absent_is_named(rt: HostRuntime) {
    let store = store_of(&rt, HOUSE);
    check_absent(&rt, store.version())
}

#[test]
fn schemas_are_explained(rt: HostRuntime) {
    let store = store_of(&rt, HOUSE);
    let catalog = store.version().catalog();
    assert_eq!(&rt; catalog.creates().len(), 3);
    for (number, table) in catalog.schema().tables.items().iter().enumerate() {
        let found = catalog.table(&table.name);
        assert!(&rt; found.is_some_and(|found| found.0 as usize == number));
    }
    let graph = catalog.explain(rt.alloc()).expect(&rt, "memory");
    check_lines(&rt, graph, GRAPH)
}
