//! Whether the rows that a test was given are those of a store.

ghost use Rattle.std.specs.Prelude.{◌≡◌, MatchBool, map, ⊤};
ghost use Rattle.std.specs.List.{AllByRecursion};
ghost use Rattle.std.specs.declared.cmp.Ordering.TheVariants.{Less};
ghost use Rattle.own_base.specs.Key.{key_cmp};
ghost use Rattle.own_model.specs.Db.{AreRising, IsRising, key_of};
ghost use Rattle.query_model.specs.Stored.{AreStored, IsStored};
ghost use Rattle.query_eval.specs.Tables.{AreTables};

use crate::key_ref::{compare, key_of};
use crate::small::Small;
use own_base::{List, Row, Value};
use own_model::TableDef;

fn is_stored(value: &Value) -> bool
    ensures { MatchBool result (IsStored value.now) ⊤ }
{
    match value {
        Value::Sum(_) => false,
        Value::Null | Value::Int(_) | Value::Text(_) => true,
    }
}

fn are_stored(rows: &[Row]) -> bool
    ensures { MatchBool result (AreStored rows.now) ⊤ }
{
    rows.iter()
        .all(|row| row.values().iter().all(|value| is_stored(value)))
}

/// Whether a row's key is below those of all these rows.
fn is_below(table: &TableDef, row: &Row, rows: &[Row]) -> bool
    ensures { MatchBool result (AllByRecursion (λ key. key_cmp (key_of table.now row.now) key ≡ Less) (map (key_of table.now) rows.now)) ⊤ }
{
    match rows.split_first() {
        Some((other, rest)) => {
            compare(key_of(table, row), key_of(table, other)).is_lt() && is_below(table, row, rest)
        }
        None => true,
    }
}

#[tactic(auto, using(crate::proofs::Rising::no_rows_rise, crate::proofs::Rising::rising_from))]
fn is_rising(table: &TableDef, rows: &[Row]) -> bool
    ensures { MatchBool result (IsRising table.now rows.now) ⊤ }
{
    match rows.split_first() {
        Some((first, rest)) => is_below(table, first, rest) && is_rising(table, rest),
        None => true,
    }
}

fn are_rising(tables: &[TableDef], rows: &[List<Row>]) -> bool
    ensures { MatchBool result (AreRising tables.now rows.now) ⊤ }
{
    match tables.split_first() {
        Some((table, tables)) => match rows.split_first() {
            Some((first, rest)) => is_rising(table, first.items()) && are_rising(tables, rest),
            None => false,
        },
        None => rows.is_empty(),
    }
}

/// Whether the keys of each table rise strictly, and no row holds a sum.
pub fn are_tables(small: &Small) -> bool
    ensures { MatchBool result (AreTables small.now.schema small.now.rows.items) ⊤ }
{
    are_rising(small.schema.tables.items(), &small.rows)
        && small.rows.iter().all(|rows| are_stored(rows.items()))
}
