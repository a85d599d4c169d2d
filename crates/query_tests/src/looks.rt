//! How often a store is looked at for a select. That no more of it is looked at than has to be, no clause says.

ghost use Rattle.std.specs.Prelude.{◌≡◌, take};

use crate::calls::{bound, check_calls, check_reply, parts, put_rows, read};
use crate::selects::{are_views_there, is_source_there};
use crate::small::{Shown, Small};
use crate::tables::are_tables;
use own_base::{List, Row, RowName, TableNo, Value};
use own_model::{Bound, BoundSelect, REPLY_ROWS, Reply, Schema, StoreView};
use query_eval::select_reply;
use std::cell::Cell;
use std::mem::drop;
use std::process::Abort;

/// A store that counts how often its rows are looked at. A run of it is one row, so each row that is lent is a look.
#[derive(Drop)]
struct Counted<'a> {
    shown: Shown<'a>,
    looks: Cell<u64>,
}

impl<'a> Counted<'a> {
    fn look(&self) {
        self.looks.set(self.looks.get().wrapping_add(1));
    }
}

/// The first row of a run, as a run.
fn first_of(run: &[Row]) -> &[Row]
    ensures { result.now ≡ take 1 run.now }
{
    if run.is_empty() { run } else { &run[..1] }
}

impl<'a> StoreView for Counted<'a> {
    ghost db = { λ counted. ⟦<Shown<'a> as StoreView>⟧.db counted.shown };

    fn schema(&self) -> &Schema {
        self.shown.schema()
    }

    fn count(&self, table: TableNo) -> u64 {
        self.shown.count(table)
    }

    fn row_at(&self, table: TableNo, at: u64) -> Option<&Row> {
        self.look();
        self.shown.row_at(table, at)
    }

    fn row(&self, name: &RowName) -> Option<&Row> {
        self.look();
        self.shown.row(name)
    }

    fn rows_from(&self, table: TableNo, at: u64) -> &[Row] {
        self.look();
        first_of(self.shown.rows_from(table, at))
    }

    ghost ordered = { λ counted. counted.shown.ordered };
}

/// The row of a number, and 1.
fn row(rt: &(impl Abort + AllocGlobal), number: u32) -> Row {
    let values = vec![in rt.alloc(); Value::Int(i64::from(number)), Value::Int(1)].expect(
        rt, "memory",
    );
    Row::from_values(List::from_vec(values))
}

/// The rows of the numbers from 0 on, so many.
fn rows(rt: &(impl Abort + AllocGlobal), count: u32) -> List<Row> {
    let mut rows = List::new(rt.alloc());
    for number in 0..count {
        rows.add(row(rt, number)).expect(rt, "memory");
    }
    rows
}

/// A store after the CREATEs of some tables, each of a number and of 1, with so many rows in each.
fn store_of(rt: &(impl Abort + AllocGlobal), creates: &str, counts: &[u32]) -> Small {
    let mut small = Small::new(rt.alloc());
    check_calls(rt, &mut small, creates);
    for (table, count) in (0..u32::MAX).zip(counts) {
        put_rows(rt, &mut small, TableNo(table), rows(rt, *count));
    }
    small
}

/// What a SELECT means.
fn query_of(rt: &(impl Abort + AllocGlobal), small: &Small, text: &str) -> BoundSelect {
    let statement = read(rt, text);
    let bound = bound(rt, small, &statement);
    drop(statement);
    match bound {
        Ok(Bound::Select(query)) => query,
        _ => panic!(rt; "no SELECT"),
    }
}

/// The reply to a select, and how often the store is looked at for it.
fn looked_reply(
    rt: &(impl Abort + AllocGlobal),
    small: &Small,
    query: &BoundSelect,
) -> (Reply, u64) {
    assert!(rt; are_tables(small));
    assert!(rt; are_views_there(&small.schema));
    assert!(rt; is_source_there(&small.schema, query));
    let counted = Counted {
        shown: Shown { small },
        looks: Cell::new(0),
    };
    let reply = select_reply(rt.alloc(), &counted, query).expect(rt, "memory");
    (reply, counted.looks.get())
}

/// A SELECT and its reply, and how often the store is looked at for it: so often at least, since each row that is read is
/// a look, and so often at most.
type Case = (&'static str, u64, u64);

/// One select.
fn check_looks(rt: &(impl Abort + AllocGlobal), small: &Small, case: &Case) {
    let (row, least, most) = *case;
    let (text, wanted) = parts(rt, row).expect(rt, "a select");
    let query = query_of(rt, small, text);
    let (reply, looks) = looked_reply(rt, small, &query);
    drop(query);
    assert!(rt; least <= looks && looks <= most, "{looks}: {text}");
    check_reply(rt, text, reply, wanted)
}

/// One table, and how many rows it has.
const TABLE: &str = "CREATE TABLE t (id INT PRIMARY KEY, n INT) => ok";

const ROWS: u32 = 1000;

/// For all rows: each is looked at once.
const SCAN: u64 = ROWS as u64;

/// For a range of ten rows: each of its ends is found by ten halves, since 2 to the power of 10 is more than the rows of
/// the table, and each row of the range is looked at once. Twice that is few too.
const RANGE: u64 = 2 * (10 + 10 + 10);

/// For the row of a key: it is looked up once. Twice is few too.
const KEY: u64 = 2;

const SELECTS: [Case; 7] = [
    ("SELECT SUM(id) FROM t => rows 1 / 499500", SCAN, SCAN),
    (
        "SELECT * FROM t WHERE id >= 500 AND id < 510 => rows 10 / 500|1 / 501|1 / 502|1 / 503|1 / 504|1 / 505|1 / 506|1 / 507|1 / 508|1 / 509|1",
        10,
        RANGE,
    ),
    (
        "SELECT SUM(id) FROM t WHERE n = 1 AND id > 499 AND id <= 509 => rows 1 / 5045",
        10,
        RANGE,
    ),
    (
        "SELECT SUM(id) FROM t WHERE id < 10 => rows 1 / 45",
        10,
        RANGE,
    ),
    ("SELECT id FROM t WHERE id >= 999 => rows 1 / 999", 1, RANGE),
    ("SELECT id FROM t WHERE id > 2000 => rows 0", 0, RANGE),
    ("SELECT * FROM t WHERE id = 7 => rows 1 / 7|1", 1, KEY),
];

#[test]
fn few_looks_at_a_range(rt: HostRuntime) {
    let small = store_of(&rt, TABLE, &[ROWS]);
    for case in &SELECTS {
        check_looks(&rt, &small, case);
    }
    drop(small);
}

/// Two tables, and how many rows they have. All of them meet, which makes 2,000,000 pairs.
const TABLES: &str = "\
CREATE TABLE a (id INT PRIMARY KEY, n INT) => ok
CREATE TABLE b (id INT PRIMARY KEY, n INT) => ok";

const LEFT: u32 = 2000;

const RIGHT: u32 = 1000;

/// Each right row is looked at once, and as many left rows as have more pairs than a reply may have rows.
const ENOUGH: u64 = RIGHT as u64 + (REPLY_ROWS / RIGHT as u64 + 1);

/// A join that is refused. The left row at which the walk ends is one look more, and ten more are few too.
const JOIN: Case = (
    "SELECT a.id, b.id FROM a JOIN b ON a.n = b.n => refused limit reply 1000000",
    ENOUGH,
    ENOUGH + 10,
);

#[test]
fn few_looks_at_a_join_that_is_refused(rt: HostRuntime) {
    let small = store_of(&rt, TABLES, &[LEFT, RIGHT]);
    check_looks(&rt, &small, &JOIN);
    drop(small);
}
