//! What the erasure of a data subject removes and changes.
ghost use Rattle.state_model.specs.Sound.{Sound};

use crate::changes::{check_names, is_named, rows_left};
use crate::kept::subject_of;
use crate::store::store_of;
use crate::texts::check_lines;
use std::mem::drop;
use std::process::Abort;
use store_version::{Shown, Version};
use subject_erase::{ErasePlan, erase_changes, plan_flat};

/// Two people who write to each other, and marks on what they wrote. A message that stays without its sender loses its note.
const POST: &str = "\
CREATE DATA_SUBJECT TABLE users (id INT PRIMARY KEY)
CREATE TABLE msgs (id INT PRIMARY KEY, sender INT OWNED_BY users(id), receiver INT OWNED_BY users(id), note TEXT, ON DEL sender ANON (note))
CREATE TABLE marks (id INT PRIMARY KEY, who INT OWNED_BY users(id), msg INT REFERENCES msgs(id))
INSERT INTO users VALUES (5), (7)
INSERT INTO msgs VALUES (1, 5, 7, 'x'), (2, 7, 5, 'y'), (3, 5, NULL, 'z')
INSERT INTO marks VALUES (20, 7, 1), (21, 7, 3), (22, 5, 2)";

/// A FORGET: the names of all rows that it removes or changes, by their table's number and key, of those that it removes, and
/// what is left of the others.
struct Case {
    call: &'static str,
    changes: &'static [(u32, i64)],
    removed: &'static [(u32, i64)],
    left: &'static str,
}

const CASES: [Case; 2] = [
    Case {
        call: "GDPR FORGET users 5",
        changes: &[(0, 5), (1, 1), (1, 2), (1, 3), (2, 21), (2, 22)],
        removed: &[(0, 5), (1, 3), (2, 22)],
        left: "rows 3 / 1|NULL|7|NULL / 2|7|NULL|'y' / 21|7|NULL",
    },
    Case {
        call: "GDPR FORGET users 7",
        changes: &[(0, 7), (1, 1), (1, 2), (2, 20), (2, 21)],
        removed: &[(0, 7), (2, 20), (2, 21)],
        left: "rows 2 / 1|5|NULL|'x' / 2|NULL|5|NULL",
    },
];

/// Looks at what is removed, and at what is left of the rest.
fn check_plan(rt: &(impl Abort + AllocGlobal), plan: ErasePlan, case: &Case) {
    let ErasePlan { removed, changed } = plan;
    let found = removed.items();
    assert_eq!(rt; found.len(), case.removed.len());
    assert!(rt;
        found
            .iter()
            .zip(case.removed)
            .all(|(found, name)| is_named(found, *name))
    );
    drop(removed);
    let left = rows_left(rt.alloc(), changed).expect(rt, "memory");
    check_lines(rt, left, case.left)
}

/// One FORGET.
fn check_erased(rt: &(impl Abort + AllocGlobal), version: &Version, case: &Case)
    requires { Sound version.now }
{
    let subject = subject_of(rt, version, case.call);
    let shown = Shown { version };
    let changes = erase_changes(rt.alloc(), &shown, version.graph(), &subject).expect(rt, "memory");
    check_names(rt, &changes, case.changes);
    drop(changes);
    let plan = plan_flat(rt.alloc(), &shown, &subject).expect(rt, "memory");
    check_plan(rt, plan, case)
}

#[test]
fn erasures_remove_and_change_rows(rt: HostRuntime) {
    let store = store_of(&rt, POST);
    for case in &CASES {
        check_erased(&rt, store.version(), case);
    }
}
