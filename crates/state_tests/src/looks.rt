//! How often a version is looked at for a statement in a transaction. That it is looked at no more than has to be, no
//! clause says.
ghost use Rattle.std.specs.Prelude.{◌≡◌, take, true};
ghost use Rattle.own_model.specs.Db.{Db};
ghost use Rattle.run_model.specs.Run.{run_bound};
ghost use Rattle.state_model.specs.Sound.{IsWellFormed, Sound};
ghost use Rattle.txn_core.specs.Runs.{IsRowStatement};
ghost use Rattle.txn_core.specs.SessionStates.{is_open, state_by};
ghost use Rattle.state_tests.specs.Ready.{AreReady};

use crate::kept::row_bound;
use crate::sessions::{begun, reply_to_statement};
use crate::store::{Store, store_of};
use crate::texts::{check_lines, read};
use link_model::{Linked, Referring};
use own_base::{ColNo, Key, Row, RowName, SessionNo, Subject, TableNo};
use own_model::{Bound, Reply, Schema, StoreView};
use std::cell::Cell;
use std::mem::drop;
use std::process::Abort;
use store_version::{Shown, Version};
use txn_core::Txns;

/// A version that counts how often its rows are looked at. A run of it is one row, so each row that is lent is a look.
#[derive(Drop)]
pub struct Counted<'a> {
    pub shown: Shown<'a>,
    pub looks: Cell<u64>,
}

impl<'a> Counted<'a> {
    fn look(&self) {
        self.looks.set(self.looks.get().wrapping_add(1));
    }
}

/// The first row of a run, as a run.
fn first_of(run: &[Row]) -> &[Row]
    ensures { result.now ≡ take 1 run.now }
{
    if run.is_empty() { run } else { &run[..1] }
}

impl<'a> StoreView for Counted<'a> {
    ghost db = { λ counted. counted.shown.version.now };

    fn schema(&self) -> &Schema {
        self.shown.schema()
    }

    fn count(&self, table: TableNo) -> u64 {
        self.shown.count(table)
    }

    fn row_at(&self, table: TableNo, at: u64) -> Option<&Row> {
        self.look();
        self.shown.row_at(table, at)
    }

    fn row(&self, name: &RowName) -> Option<&Row> {
        self.look();
        self.shown.row(name)
    }

    fn rows_from(&self, table: TableNo, at: u64) -> &[Row] {
        self.look();
        first_of(self.shown.rows_from(table, at))
    }

    ghost ordered = { λ counted. counted.shown.ordered };
}

impl<'a> Referring for Counted<'a> {
    ghost linked = { λ counted. counted.shown.version.now };

    fn holder_count(&self, table: TableNo, column: ColNo, value: &Key) -> u64 {
        self.look();
        self.shown.holder_count(table, column, value)
    }

    fn holders_from(&self, table: TableNo, column: ColNo, value: &Key, at: u64) -> &[(Key, Key)] {
        self.look();
        self.shown.holders_from(table, column, value, at)
    }
}

impl<'a> Linked for Counted<'a> {
    ghost use Rattle.std.specs.Prelude.{refl};

    ghost one = { λ counted. refl };

    fn owners(&self, name: &RowName) -> &[Subject] {
        self.look();
        self.shown.owners(name)
    }

    fn reach(&self, name: &RowName) -> &[Subject] {
        self.look();
        self.shown.reach(name)
    }
}

/// How many rows each of both tables has, numbered from 0. Two of the second one refer to each of the first half of the first.
const ROWS: u64 = 2_000;

/// How often the version is looked at, at most, for an UPDATE of ten rows: each end of their range is found by eleven
/// halves, since 2 to the power of 11 is more than the rows of the table, and each row of the range is looked at where it
/// is read, and where its change is. Twice that is few too; and it is for a few rows that an index names, or that are joined by one.
const RANGE: u64 = 2 * (11 + 11 + 10 + 10);

/// How often for the same once the transaction has changed three rows: at each of these places each of the three is looked
/// for by as many halves.
const FEW: u64 = (11 + 11 + 10 + 10) * (3 * 11 + 1);

/// How often for a statement over the table whose rows the transaction has changed: each row is looked at where they are
/// merged with the changes, and where its change is. Three times is few too.
const WALK: u64 = 3 * ROWS;

/// A statement, the reply to it, and how often the version is looked at for it: so often at least, since each row that is
/// read is a look, and so often at most.
type Case = (&'static str, &'static str, u64, u64);

/// The statements of a transaction.
const CASES: [Case; 11] = [
    (
        "SELECT id FROM u WHERE t = 38",
        "rows 2 / 76 / 77",
        3,
        RANGE,
    ),
    (
        "SELECT t.n, u.id FROM u JOIN t ON u.t = t.id WHERE u.t = 38 AND u.id > 76",
        "rows 1 / 0|77",
        4,
        RANGE,
    ),
    (
        "SELECT u.id FROM t JOIN u ON t.id = u.t WHERE t.id = 38",
        "rows 2 / 76 / 77",
        3,
        RANGE,
    ),
    (
        "SELECT u.id FROM t JOIN u ON t.id = u.t WHERE t.id >= 10 AND t.id < 12",
        "rows 4 / 20 / 21 / 22 / 23",
        8,
        RANGE,
    ),
    (
        "SELECT t.id FROM u JOIN t ON u.t = t.id WHERE u.id < 4",
        "rows 4 / 0 / 0 / 1 / 1",
        8,
        RANGE,
    ),
    (
        "UPDATE t SET n = n + 1 WHERE id >= 100 AND id < 103",
        "ok 3",
        3,
        RANGE,
    ),
    (
        "SELECT COUNT(*) FROM t WHERE id >= 101 AND id < 111",
        "rows 1 / 10",
        8,
        FEW,
    ),
    (
        "UPDATE t SET n = n + 1 WHERE id >= 103 AND id < 110",
        "ok 7",
        7,
        FEW,
    ),
    ("UPDATE t SET n = n + 1", "ok 2000", ROWS, WALK),
    (
        "SELECT COUNT(*), SUM(n) FROM t",
        "rows 1 / 2000|2010",
        ROWS,
        WALK,
    ),
    ("DELETE FROM t WHERE n = 1", "ok 1990", ROWS, WALK),
];

/// The reply to a bound statement in the open transaction of session 1, and how often the version is looked at for it.
fn looked_reply(
    rt: &(impl Abort + AllocGlobal),
    version: &Version,
    txns: &mut Txns,
    bound: &Bound,
) -> (Reply, u64)
    requires sound { Sound version.now }
    requires ready { AreReady version.now txns.old }
    requires open { is_open (state_by txns.old.states 1) ≡ true }
    requires bound { IsRowStatement version.now.schema bound.now }
    requires well_formed { (db : Db) → IsWellFormed db → db.schema ≡ version.now.schema → IsWellFormed (run_bound db bound.now).db }
    ensures { AreReady version.now txns.new }
{
    let counted = Counted {
        shown: Shown { version },
        looks: Cell::new(0),
    };
    let reply = reply_to_statement(rt, &counted, version.views(), txns, SessionNo(1), bound);
    (reply, counted.looks.get())
}

/// One statement.
fn check_looks(rt: &(impl Abort + AllocGlobal), version: &Version, txns: &mut Txns, case: &Case)
    requires sound { Sound version.now }
    requires ready { AreReady version.now txns.old }
    ensures { AreReady version.now txns.new }
{
    let (text, wanted, least, most) = *case;
    let statement = read(rt, text);
    let bound = row_bound(rt, version, &statement);
    drop(statement);
    assert!(rt; txns.is_open(SessionNo(1)));
    let (reply, looks) = looked_reply(rt, version, txns, &bound);
    drop(bound);
    assert!(rt; least <= looks && looks <= most, "{looks}: {text}");
    check_lines(rt, reply, wanted)
}

/// The statements, one after another.
fn check_cases(rt: &(impl Abort + AllocGlobal), version: &Version, txns: &mut Txns)
    requires sound { Sound version.now }
    requires ready { AreReady version.now txns.old }
{
    for case in &CASES {
        check_looks(rt, version, txns, case);
    }
}

/// An INSERT of the rows of the first table.
fn insert(rt: &(impl Abort + AllocGlobal)) -> String {
    let alloc = rt.alloc();
    let mut text = format!(in alloc; "INSERT INTO t VALUES (0, 0)").expect(rt, "memory");
    for id in 1..ROWS {
        let row = format!(in alloc; ", ({id}, 0)").expect(rt, "memory");
        text.push_str(row.as_str()).expect(rt, "memory");
    }
    text
}

/// An INSERT of those of the second, of which two refer to one.
fn insert_referring(rt: &(impl Abort + AllocGlobal)) -> String {
    let alloc = rt.alloc();
    let mut text = format!(in alloc; "INSERT INTO u VALUES (0, 0)").expect(rt, "memory");
    for id in 1..ROWS {
        let of = id / 2;
        let row = format!(in alloc; ", ({id}, {of})").expect(rt, "memory");
        text.push_str(row.as_str()).expect(rt, "memory");
    }
    text
}

/// The tables.
const TABLES: &str = "\
CREATE TABLE t (id INT PRIMARY KEY, n INT)
CREATE TABLE u (id INT PRIMARY KEY, t INT REFERENCES t(id))";

/// Both tables with their rows.
fn store(rt: &(impl Abort + AllocGlobal)) -> Store {
    let mut store = store_of(rt, TABLES);
    store.run(rt, insert(rt).as_str());
    store.run(rt, insert_referring(rt).as_str());
    store
}

#[test]
fn few_looks_in_a_transaction(rt: HostRuntime) {
    let store = store(&rt);
    let version = store.version();
    let mut txns = begun(rt.alloc(), version).expect(&rt, "memory");
    check_cases(&rt, version, &mut txns)
}
