//! What a transaction changes, over a store that stays as it is.
ghost use Rattle.std.specs.Prelude.{◌≡◌, MatchBool, ⊤};
ghost use Rattle.std.specs.List.{AllByRecursion};
ghost use Rattle.own_model.specs.Db.{key_of};
ghost use Rattle.state_model.specs.MayBePut.{IsPutIn};
ghost use Rattle.txn_space.specs.Sound.{IsBase, IsSpaceOf};

use crate::store::{Store, store_of};
use own_base::{Change, ColNo, Key, List, Row, RowName, TableNo, Value};
use own_model::{FootItem, Footprint, Schema, StoreView, TableDef};
use std::alloc::{AllocError, Global};
use std::mem::drop;
use std::process::Abort;
use store_version::{Shown, Version};
use txn_space::Space;

/// Tables 0 and 1, whose rows are a value and a key.
const STORE: &str = "\
CREATE TABLE stock (pieces INT, id INT PRIMARY KEY)
CREATE TABLE prices (price INT, id INT PRIMARY KEY)
INSERT INTO stock VALUES (10, 1), (30, 3), (50, 5)
INSERT INTO prices VALUES (7, 1)";

/// A key that no row of the store has, and none that a step leaves.
const ABSENT: i64 = 4;

/// A key, and the value beside it.
type Pair = (i64, i64);

/// A table, a key, and the value of the row that is put; none where the row is taken away.
type Put = (u32, i64, Option<i64>);

/// Changes that are put behind those of the steps before, the rows of both tables as they are seen then, and the net.
type Step = (
    &'static [Put],
    &'static [Pair],
    &'static [Pair],
    &'static [(u32, Option<Pair>, Option<Pair>)],
);

const STEPS: [Step; 3] = [
    // a row comes, one changes and one goes
    (
        &[(0, 3, Some(31)), (0, 2, Some(20)), (0, 1, None)],
        &[(2, 20), (3, 31), (5, 50)],
        &[(1, 7)],
        &[
            (0, Some((1, 10)), None),
            (0, None, Some((2, 20))),
            (0, Some((3, 30)), Some((3, 31))),
        ],
    ),
    // what came goes, what went comes back as it was, and a row that isn't there is taken away
    (
        &[
            (0, 2, None),
            (0, 1, Some(10)),
            (0, 4, None),
            (1, 9, Some(9)),
        ],
        &[(1, 10), (3, 31), (5, 50)],
        &[(1, 7), (9, 9)],
        &[(0, Some((3, 30)), Some((3, 31))), (1, None, Some((9, 9)))],
    ),
    // of several changes of a row the last holds
    (
        &[
            (1, 1, Some(8)),
            (0, 3, Some(3)),
            (0, 3, Some(30)),
            (1, 9, None),
        ],
        &[(1, 10), (3, 30), (5, 50)],
        &[(1, 8)],
        &[(1, Some((1, 7)), Some((1, 8)))],
    ),
];

/// The name of a row, by its table and its key.
pub fn name_of(name: (u32, i64)) -> RowName
    ensures { result.table.0 ≡ name.0 }
{
    RowName {
        table: TableNo(name.0),
        key: Key::Int(name.1),
    }
}

fn row_of(alloc: Global, key: i64, value: i64) -> Result<Row, AllocError> {
    let values = vec![in alloc; Value::Int(value), Value::Int(key)]?;
    Ok(Row::from_values(List::from_vec(values)))
}

fn change_of(alloc: Global, put: &Put) -> Result<Change, AllocError> {
    let (table, key, value) = *put;
    let row = value.map(|value| row_of(alloc, key, value));
    Ok(Change {
        after: row.transpose()?,
        before: None,
        name: name_of((table, key)),
    })
}

fn changes_of(alloc: Global, puts: &[Put]) -> Result<Vec<Change>, AllocError> {
    let mut changes = Vec::new(alloc);
    for put in puts {
        changes.push(change_of(alloc, put)?)?;
    }
    Ok(changes)
}

/// Whether a row has this key, which is a number.
#[tactic(auto, unfolding(own_model::specs::Db::key_of))]
fn has_key(table: &TableDef, row: &Row, key: &Key) -> bool
    ensures { MatchBool result (key_of table.now row.now ≡ key.now) ⊤ }
{
    match (row.values().get(table.key.0 as usize), key) {
        (Some(Value::Int(left)), Key::Int(right)) => *left == *right,
        _ => false,
    }
}

fn is_change_of(schema: &Schema, change: &Change) -> bool
    ensures { MatchBool result (IsPutIn schema.now.tables change.now) ⊤ }
{
    match (
        schema.tables.items().get(change.name.table.0 as usize),
        &change.after,
    ) {
        (Some(table), Some(row)) => has_key(table, row, &change.name.key),
        (Some(_), None) => true,
        (None, _) => false,
    }
}

fn are_changes_of(schema: &Schema, changes: &[Change]) -> bool
    ensures { MatchBool result (AllByRecursion (IsPutIn schema.now.tables) changes.now) ⊤ }
{
    match changes.split_first() {
        Some((first, rest)) => is_change_of(schema, first) && are_changes_of(schema, rest),
        None => true,
    }
}

/// The key and the value of a row.
fn pair_of(row: &Row) -> Option<Pair> {
    match (row.get(ColNo(1)), row.get(ColNo(0))) {
        (Some(Value::Int(key)), Some(Value::Int(value))) => Some((*key, *value)),
        _ => None,
    }
}

/// The rows of a table: by place, by key and by runs.
fn expect_rows<V: StoreView>(rt: &impl Abort, view: &V, table: u32, rows: &[Pair]) {
    assert!(rt; (table as usize) < view.schema().tables.items().len());
    let number = TableNo(table);
    let count = rows.len() as u64;
    assert_eq!(rt; view.count(number), count, "{rows:?}");
    for (at, row) in (0..u64::MAX).zip(rows) {
        assert_eq!(rt; view.row_at(number, at).and_then(pair_of), Some(*row));
        let named = view.row(&name_of((table, row.0)));
        assert_eq!(rt; named.and_then(pair_of), Some(*row));
        let run = view.rows_from(number, at);
        let rest = rows.iter().skip(at as usize).take(run.len());
        assert!(rt; !run.is_empty() && run.iter().filter_map(pair_of).eq(rest.copied()));
    }
    assert!(rt; view.row(&name_of((table, ABSENT))).is_none());
    assert!(rt; view.row_at(number, count).is_none() && view.rows_from(number, count).is_empty());
}

fn expect_net(rt: &impl Abort, changes: List<Change>, net: &[(u32, Option<Pair>, Option<Pair>)]) {
    let told = changes.items().iter().map(|change| {
        let before = change.before.as_ref().and_then(pair_of);
        let after = change.after.as_ref().and_then(pair_of);
        (change.name.table.0, before, after)
    });
    assert!(rt; told.eq(net.iter().copied()), "{net:?}");
    drop(changes);
}

/// Both tables as a whole, and one that isn't there.
fn whole_tables(alloc: Global) -> Result<Footprint, AllocError> {
    let mut items = List::new(alloc);
    for number in [1, 0, 2] {
        items.add(FootItem {
            table: TableNo(number),
            key: None,
            write: false,
        })?;
    }
    Ok(items)
}

/// The rows of both tables, merged with what a transaction changes.
fn expect_merged<V: StoreView>(
    rt: &(impl Abort + AllocGlobal),
    base: &V,
    space: &Space,
    step: &Step,
)
    requires base { IsBase (V.db base.now).schema.tables (V.db base.now).rows }
    requires space { IsSpaceOf (V.db base.now).schema.tables space.now }
{
    let whole = whole_tables(rt.alloc()).expect(rt, "memory");
    let merged = space.merged(rt.alloc(), base, &whole).expect(rt, "memory");
    expect_rows(rt, &merged, 0, step.1);
    expect_rows(rt, &merged, 1, step.2);
    drop(merged);
    drop(whole);
}

/// Makes a step.
fn check_step(rt: &(impl Abort + AllocGlobal), version: &Version, space: &mut Space, step: &Step)
    requires base { IsBase version.now.schema.tables version.now.rows }
    requires space { IsSpaceOf version.now.schema.tables space.old }
    ensures space { IsSpaceOf version.now.schema.tables space.new }
{
    let base = Shown { version };
    let changes = changes_of(rt.alloc(), step.0).expect(rt, "memory");
    assert!(rt; are_changes_of(version.schema(), &changes));
    let put = space.put(rt.alloc(), &base, &changes);
    drop(changes);
    put.expect(rt, "memory");
    let over = space.over(&base);
    expect_rows(rt, &over, 0, step.1);
    expect_rows(rt, &over, 1, step.2);
    expect_merged(rt, &base, space, step);
    expect_net(
        rt,
        space.changes(rt.alloc(), &base).expect(rt, "memory"),
        step.3,
    );
}

/// The rows of a store, as a base.
fn base_of(store: &Store) -> &Version
    ensures { IsBase result.now.schema.tables result.now.rows }
{
    store.version()
}

/// Makes the steps, one after another.
fn check_steps(rt: &(impl Abort + AllocGlobal), base: &Version)
    requires { IsBase base.now.schema.tables base.now.rows }
{
    let mut space = Space::new(rt.alloc());
    for step in &STEPS {
        check_step(rt, base, &mut space, step);
    }
}

#[test]
fn changes_are_seen_over_the_store(rt: HostRuntime) {
    let store = store_of(&rt, STORE);
    check_steps(&rt, base_of(&store))
}
