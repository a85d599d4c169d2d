//! What statements mean, and what they may read or write, as derived texts.

use crate::calls::{bound, check_calls, parts, read};
use crate::small::Small;
use own_base::{ColNo, Key, List};
use own_model::{Bound, BoundCond, FootItem};
use plan_bind::footprint;
use pred_eval::pinned_key;
use std::mem::drop;
use std::process::Abort;

const CREATES: &str = "\
CREATE TABLE u (id INT PRIMARY KEY) => ok
CREATE TABLE t (id INT PRIMARY KEY, n INT, s TEXT) => ok
CREATE DATA_SUBJECT TABLE p (mail TEXT PRIMARY KEY, n INT) => ok
CREATE VIEW v AS SELECT n, s FROM t WHERE id = 1 => ok
CREATE VIEW w AS SELECT t.n FROM p JOIN t ON p.n = t.n => ok
CREATE VIEW g AS SELECT n, SUM(n) FROM t GROUP BY n => ok";

/// Statements and what they mean: `<1>` is column 1, and brackets hold a list (`written_out`).
const MEANINGS: &str = "\
SELECT s, t.n AS m FROM t WHERE n = 1 AND NOT s IS NOT NULL ORDER BY id DESC => Select(BoundSelect { source: Table(TableNo(1)), items: [Column(<2>), Column(<1>)], cond: Some(Every([Compare(<1>, Eq, Literal(Int(1))), Not(IsNull(<2>, true))])), grouped: false, group: None, order: Some((<0>, true)) })
SELECT * FROM v WHERE n > 1 OR s IS NULL => Select(BoundSelect { source: View(ViewNo(0)), items: [Column(<0>), Column(<1>)], cond: Some(Some1([Compare(<0>, Gt, Literal(Int(1))), IsNull(<1>, false)])), grouped: false, group: None, order: None })
-- a join's columns count in their own tables, all others over the pair; ON may name the right one first
SELECT mail FROM p JOIN t ON s = mail WHERE t.n <> p.n ORDER BY id => Select(BoundSelect { source: Pair { left: TableNo(2), right: TableNo(1), left_column: <0>, right_column: <2> }, items: [Column(<0>)], cond: Some(Compare(<3>, Ne, Column(<1>))), grouped: false, group: None, order: Some((<2>, false)) })
SELECT * FROM t JOIN u ON t.n = u.id => Select(BoundSelect { source: Pair { left: TableNo(1), right: TableNo(0), left_column: <1>, right_column: <0> }, items: [Column(<0>), Column(<1>), Column(<2>), Column(<3>)], cond: None, grouped: false, group: None, order: None })
-- the order of a grouped select is by the first of its items that has the name
SELECT COUNT(*), SUM(n) AS k, s AS k FROM t GROUP BY s ORDER BY t.k => Select(BoundSelect { source: Table(TableNo(1)), items: [Count, SumOf(<1>), Column(<2>)], cond: None, grouped: true, group: Some(<2>), order: Some((<1>, false)) })
UPDATE t SET s = 'x', n = id WHERE id = 5 => Update { table: TableNo(1), sets: [(<2>, Literal(Text(Text { text: \"x\" }))), (<1>, Column(<0>))], cond: Some(Compare(<0>, Eq, Literal(Int(5)))) }
UPDATE p SET n = n - -2 => Update { table: TableNo(2), sets: [(<1>, Minus(<1>, -2))], cond: None }
UPDATE t SET n = id + 3, s = NULL => Update { table: TableNo(1), sets: [(<1>, Plus(<0>, 3)), (<2>, Literal(Null))], cond: None }
DELETE FROM p => Delete { table: TableNo(2), cond: None }
GDPR GET p 'x' => Get(Subject(RowName { table: TableNo(2), key: Text(Text { text: \"x\" }) }))
GDPR FORGET p 'x' => Forget(Subject(RowName { table: TableNo(2), key: Text(Text { text: \"x\" }) }))
EXPLAIN COMPLIANCE => Explain";

/// Statements and their footprints: `r1` reads table 1 and `w1` writes it, whole or one row.
const FOOTPRINTS: &str = "\
SELECT n FROM t => r1 None;
SELECT n FROM t WHERE n = 5 => r1 None;
SELECT n FROM t WHERE n = 5 AND id = 6 => r1 Some(Int(6));
SELECT COUNT(*) FROM t WHERE id = 6 => r1 Some(Int(6));
-- a join and a view have their tables whole, whatever the condition
SELECT id FROM t JOIN p ON mail = s WHERE id = 6 => r1 None;r2 None;
SELECT id FROM p JOIN t ON mail = s WHERE mail = 'x' => r1 None;r2 None;
SELECT n FROM v => r1 None;
SELECT n FROM w => r1 None;r2 None;
SELECT n FROM g => r1 None;
INSERT INTO t (n, id) VALUES (1, 9), (2, -5), (3, 9) => w1 Some(Int(-5));w1 Some(Int(9));
UPDATE p SET n = 1 WHERE mail = 'x' => w2 Some(Text(Text { text: \"x\" }));
UPDATE p SET n = 1 => w2 None;
DELETE FROM t WHERE id = 5 => w1 Some(Int(5));
GDPR GET p 'x' => none";

/// Conditions, and the key that each pins.
const PINNED: &str = "\
id = 5 => Some(Int(5))
id = NULL => None
id = n => None
id >= 5 => None
n = 5 => None
NOT id = 5 => None
id = 5 OR n = 1 => None
n = 1 AND id = NULL AND id = 6 AND id = 7 => Some(Int(6))
id = 5 AND (n = 1 OR n = 2) => Some(Int(5))
-- an AND in brackets is a list of its own
(id = 5 AND n = 1) AND n = 2 => None
n = 1 AND (id = 5) => Some(Int(5))
id IS NULL => None";

/// What a letter of a row represents, where it isn't itself.
fn represented(letter: char) -> Option<&'static str> {
    match letter {
        '<' => Some("ColNo("),
        '>' => Some(")"),
        '[' => Some("List { items: ["),
        ']' => Some("] }"),
        _ => None,
    }
}

/// Adds what a letter of a row represents.
fn write_out(rt: &impl Abort, text: &mut String, letter: char) {
    match represented(letter) {
        Some(words) => text.push_str(words).expect(rt, "memory"),
        None => text.push(letter).expect(rt, "memory"),
    }
}

/// The derived text that a row represents.
fn written_out(rt: &(impl Abort + AllocGlobal), row: &str) -> String {
    let mut text = String::new(rt.alloc());
    for letter in row.chars() {
        write_out(rt, &mut text, letter);
    }
    text
}

/// What a text means.
fn meant(rt: &(impl Abort + AllocGlobal), small: &Small, text: &str) -> Bound {
    let statement = read(rt, text);
    let bound = bound(rt, small, &statement);
    drop(statement);
    match bound {
        Ok(bound) => bound,
        Err(_) => panic!(rt; "no meaning: {text}"),
    }
}

/// Adds an item of a footprint, as a row has it.
fn report(rt: &(impl Abort + AllocGlobal), text: &mut String, item: &FootItem) {
    let sign = if item.write { "w" } else { "r" };
    let reported = format!(in rt.alloc(); "{sign}{} {:?};", item.table.0, item.key).expect(
        rt, "memory",
    );
    text.push_str(reported.as_str()).expect(rt, "memory");
}

/// A footprint as a row has it.
fn reported(rt: &(impl Abort + AllocGlobal), items: &[FootItem]) -> String {
    let mut text = String::new(rt.alloc());
    if items.is_empty() {
        text.push_str("none").expect(rt, "memory");
    }
    for item in items {
        report(rt, &mut text, item);
    }
    text
}

/// What a text means, as a derived text.
fn meaning(rt: &(impl Abort + AllocGlobal), small: &Small, text: &str) -> String {
    let bound = meant(rt, small, text);
    let reported = format!(in rt.alloc(); "{bound:?}").expect(rt, "memory");
    drop(bound);
    reported
}

/// One row of `MEANINGS`.
fn check_meaning(rt: &(impl Abort + AllocGlobal), small: &Small, text: &str, wanted: &str) {
    let reported = meaning(rt, small, text);
    let wanted = written_out(rt, wanted);
    assert_eq!(rt; reported.as_str(), wanted.as_str(), "{text}");
}

#[test]
fn statements_have_meanings(rt: HostRuntime) {
    let mut small = Small::new(rt.alloc());
    check_calls(&rt, &mut small, CREATES);
    for row in MEANINGS.split('\n') {
        if let Some((text, wanted)) = parts(&rt, row) {
            check_meaning(&rt, &small, text, wanted);
        }
    }
    drop(small);
}

/// The footprint of a text.
fn footprint_of(rt: &(impl Abort + AllocGlobal), small: &Small, text: &str) -> List<FootItem> {
    let bound = meant(rt, small, text);
    let items = footprint(rt.alloc(), &small.schema, &bound).expect(rt, "memory");
    drop(bound);
    items
}

/// One row of `FOOTPRINTS`.
fn check_footprint(rt: &(impl Abort + AllocGlobal), small: &Small, text: &str, wanted: &str) {
    let items = footprint_of(rt, small, text);
    let reported = reported(rt, items.items());
    drop(items);
    assert_eq!(rt; reported.as_str(), wanted, "{text}");
}

#[test]
fn statements_have_footprints(rt: HostRuntime) {
    let mut small = Small::new(rt.alloc());
    check_calls(&rt, &mut small, CREATES);
    for row in FOOTPRINTS.split('\n') {
        if let Some((text, wanted)) = parts(&rt, row) {
            check_footprint(&rt, &small, text, wanted);
        }
    }
    drop(small);
}

/// The condition of a bound DELETE.
fn condition_of<'a>(rt: &impl Abort, bound: &'a Bound) -> &'a BoundCond {
    match bound {
        Bound::Delete {
            cond: Some(cond),
            ..
        } => cond,
        _ => panic!(rt; "no DELETE with a condition"),
    }
}

/// A key, if there is one, as a derived text.
fn reported_key(rt: &(impl Abort + AllocGlobal), key: Option<Key>) -> String {
    let reported = format!(in rt.alloc(); "{key:?}").expect(rt, "memory");
    drop(key);
    reported
}

/// The key that a condition pins, as a derived text.
fn pinned(rt: &(impl Abort + AllocGlobal), cond: &BoundCond) -> String {
    let key = pinned_key(rt.alloc(), Some(cond), ColNo(0)).expect(rt, "memory");
    reported_key(rt, key)
}

/// One row of `PINNED`.
fn check_pin(rt: &(impl Abort + AllocGlobal), small: &Small, cond: &str, wanted: &str) {
    let text = format!(in rt.alloc(); "DELETE FROM t WHERE {cond}").expect(rt, "memory");
    let bound = meant(rt, small, text.as_str());
    let reported = pinned(rt, condition_of(rt, &bound));
    drop(bound);
    assert_eq!(rt; reported.as_str(), wanted, "{text}");
}

#[test]
fn conditions_pin_keys(rt: HostRuntime) {
    let mut small = Small::new(rt.alloc());
    check_calls(&rt, &mut small, CREATES);
    for row in PINNED.split('\n') {
        if let Some((cond, wanted)) = parts(&rt, row) {
            check_pin(&rt, &small, cond, wanted);
        }
    }
    drop(small);
}
