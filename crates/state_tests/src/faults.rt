//! What is wrong with a store as a whole.
ghost use Rattle.state_model.specs.Sound.{IsWellFormed};

use crate::kept::next_of;
use crate::store::{Store, store_of};
use crate::texts::{check_lines, read};
use commit_check::{
    first_fault_flat, first_owner_fault, first_reference_fault, first_unique_fault,
    row_limit_fault, weight_limit_fault,
};
use own_model::{Refusal, Reply};
use owner_graph::graph_of;
use owner_sets::OwnerSets;
use std::mem::drop;
use std::process::Abort;
use store_version::{Shown, Version};

const STORE: &str = "\
CREATE DATA_SUBJECT TABLE users (id INT PRIMARY KEY, mail TEXT UNIQUE)
CREATE TABLE notes (id INT PRIMARY KEY, who INT OWNED_BY users(id), about INT REFERENCES notes(id))
INSERT INTO users VALUES (1, 'a'), (2, NULL)
INSERT INTO notes VALUES (10, 1, NULL)";

/// A write, and the first fault of each kind behind it; the first of all is that of the leftmost kind.
struct Case {
    write: &'static str,
    unique: &'static str,
    reference: &'static str,
    owner: &'static str,
    whole: &'static str,
}

const CASES: [Case; 4] = [
    Case {
        write: "INSERT INTO users VALUES (3, NULL), (0, 'a')",
        unique: "refused unique users 0 mail",
        reference: "ok",
        owner: "ok",
        whole: "refused unique users 0 mail",
    },
    Case {
        write: "INSERT INTO notes VALUES (12, NULL, 99), (11, 9, 10)",
        unique: "ok",
        reference: "refused reference notes 11 who",
        owner: "refused owner notes 11",
        whole: "refused reference notes 11 who",
    },
    Case {
        write: "UPDATE notes SET who = NULL",
        unique: "ok",
        reference: "ok",
        owner: "refused owner notes 10",
        whole: "refused owner notes 10",
    },
    Case {
        write: "INSERT INTO notes VALUES (11, 2, 10)",
        unique: "ok",
        reference: "ok",
        owner: "ok",
        whole: "ok",
    },
];

/// A fault as a reply tells it.
fn told(fault: Option<Refusal>) -> Reply {
    match fault {
        Some(why) => Reply::Refused(why),
        None => Reply::Done,
    }
}

/// Looks for the first row without an owner, where no limit is passed.
fn check_owner(rt: &(impl Abort + AllocGlobal), version: &Version, wanted: &str)
    requires { IsWellFormed version.now }
{
    let graph = graph_of(rt.alloc(), version.schema()).expect(rt, "memory");
    let shown = Shown { version };
    let sets = OwnerSets::of(rt.alloc(), &shown, &graph).expect(rt, "memory");
    check_lines(rt, told(row_limit_fault(&shown)), "ok");
    check_lines(rt, told(weight_limit_fault(&shown, &sets)), "ok");
    let owner = first_owner_fault(rt.alloc(), &shown, &sets).expect(rt, "memory");
    check_lines(rt, told(owner), wanted)
}

/// Looks for the faults of a version.
fn check_faults(rt: &(impl Abort + AllocGlobal), version: &Version, case: &Case)
    requires { IsWellFormed version.now }
{
    let shown = Shown { version };
    let unique = first_unique_fault(rt.alloc(), &shown).expect(rt, "memory");
    check_lines(rt, told(unique), case.unique);
    let reference = first_reference_fault(rt.alloc(), &shown).expect(rt, "memory");
    check_lines(rt, told(reference), case.reference);
    check_owner(rt, version, case.owner);
    let whole = first_fault_flat(rt.alloc(), &shown).expect(rt, "memory");
    check_lines(rt, told(whole), case.whole)
}

/// Makes the write of a case.
fn check_case(rt: &(impl Abort + AllocGlobal), store: &Store, case: &Case) {
    let statement = read(rt, case.write);
    let next = next_of(rt, store.version(), &statement);
    drop(statement);
    check_faults(rt, next.version(), case);
    drop(next);
}

#[test]
fn writes_lead_to_faults(rt: HostRuntime) {
    let store = store_of(&rt, STORE);
    for case in &CASES {
        check_case(&rt, &store, case);
    }
}
