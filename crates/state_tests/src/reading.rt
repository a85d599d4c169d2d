//! Selects over a store, and one transaction by itself.
ghost use Rattle.state_model.specs.Sound.{Sound};
ghost use Rattle.txn_core.specs.Runs.{IsRowStatement};
ghost use Rattle.state_tests.specs.Asked.{IsMeant};

use crate::changes::check_names;
use crate::kept::{bound, row_bound};
use crate::store::{Store, store_of};
use crate::texts::{check_lines, parts, read};
use own_model::{Bound, Reply};
use query_eval::select_reply;
use std::mem::drop;
use std::process::Abort;
use store_version::{Shown, Version};
use txn_core::Txn;

const STORE: &str = "\
CREATE TABLE acc (id INT PRIMARY KEY, n INT)
CREATE TABLE towns (name TEXT PRIMARY KEY, acc INT)
CREATE VIEW rich AS SELECT id, n FROM acc WHERE n >= 20
CREATE VIEW total AS SELECT SUM(n) FROM acc
INSERT INTO acc VALUES (1, 10), (2, 20), (3, 30)
INSERT INTO towns VALUES ('Bern', 1), ('Chur', 3)";

/// Selects from a table, two tables, groups and views.
const SELECTS: [&str; 5] = [
    "SELECT n FROM acc WHERE id <> 2 => rows 2 / 10 / 30",
    "SELECT name, n FROM towns JOIN acc ON acc = id => rows 2 / 'Bern'|10 / 'Chur'|30",
    "SELECT COUNT(*), SUM(n) FROM acc WHERE n > 10 => rows 1 / 2|50",
    "SELECT id FROM rich ORDER BY n DESC => rows 2 / 3 / 2",
    "SELECT * FROM total => rows 1 / 60",
];

/// The reply to a bound SELECT.
fn reply_to(rt: &(impl Abort + AllocGlobal), version: &Version, bound: &Bound) -> Reply
    requires sound { Sound version.now }
    requires meant { IsMeant version.now.schema bound.now }
{
    let shown = Shown { version };
    match bound {
        Bound::Select(query) => select_reply(rt.alloc(), &shown, query).expect(rt, "memory"),
        _ => panic!(rt; "no SELECT"),
    }
}

/// One select.
fn check_select(rt: &(impl Abort + AllocGlobal), store: &Store, case: &str) {
    let (text, wanted) = parts(rt, case);
    let version = store.version();
    let statement = read(rt, text);
    let bound = bound(rt, version, &statement);
    drop(statement);
    let reply = reply_to(rt, version, &bound);
    drop(bound);
    check_lines(rt, reply, wanted)
}

#[test]
fn selects_have_replies(rt: HostRuntime) {
    let store = store_of(&rt, STORE);
    for case in &SELECTS {
        check_select(&rt, &store, case);
    }
}

/// Runs a bound UPDATE of one row in a transaction of its own.
fn check_txn(rt: &(impl Abort + AllocGlobal), version: &Version, bound: &Bound)
    requires sound { Sound version.now }
    requires row { IsRowStatement version.now.schema bound.now }
{
    let mut txn = Txn::new(rt.alloc());
    let shown = Shown { version };
    let reply = txn
        .run(rt.alloc(), &shown, version.views(), bound)
        .expect(rt, "memory");
    check_lines(rt, reply, "ok 2");
    let changes = txn.changes(rt.alloc(), &shown).expect(rt, "memory");
    check_names(rt, &changes, &[(0, 2)]);
}

#[test]
fn transaction_has_changes(rt: HostRuntime) {
    let store = store_of(&rt, STORE);
    let version = store.version();
    let statement = read(&rt, "UPDATE acc SET n = 10 WHERE id < 3");
    let bound = row_bound(&rt, version, &statement);
    drop(statement);
    check_txn(&rt, version, &bound);
    drop(bound);
}
