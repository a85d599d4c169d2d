ghost use Rattle.std.specs.Prelude.{◌≡◌, ◌≤◌, [], length, map, IfOk, OnOk};
ghost use Rattle.std.specs.List.{AllByRecursion, flat_map};
ghost use Rattle.std.specs.Option.{option_map_or};
ghost use Rattle.own_model.specs.declared.bound.Bound.TheVariants as bound;
ghost use Rattle.own_model.specs.declared.limit.TheConstants.{STATEMENT_BYTES, TABLE_COLUMNS};
ghost use Rattle.schema_model.specs.WithinLimits.{IsWithinLimits};
ghost use Rattle.query_model.specs.Scope.{table_named};
ghost use Rattle.query_model.specs.SelectMeaning.{table_number};
ghost use Rattle.query_model.specs.WithinLimits.{IsTupleWithin};
ghost use Rattle.query_model.specs.WriteFaults.{insert_faults, insert_faults_in, tuple_faults};
ghost use Rattle.query_model.specs.WriteMeaning.{put_row};
ghost use Rattle.bind_scope.specs.After.{after};
ghost use Rattle.plan_bind.specs.InsertTargets.{IsCounted};

use crate::insert_targets::Targets;
use crate::tuple::bind_tuple;
use bind_scope::{Least, bind_table};
use own_base::{List, Name, Row, TableNo, Value};
use own_model::{Bound, STATEMENT_BYTES, Schema, TABLE_COLUMNS, TableDef};
use std::alloc::{AllocError, Global};

/// The rows that tuples put.
fn bind_tuples<'a>(
    alloc: Global,
    targets: &Targets<'a>,
    tuples: &[List<Value>],
    least: &mut Least<'a>,
) -> Result<List<Row>, AllocError>
    requires tuples { AllByRecursion IsTupleWithin tuples.now }
    requires counted { IsCounted targets.now least.old }
    ensures rows { IfOk result (λ rows. rows ≡ map (put_row targets.now.table targets.now.names) tuples.now) }
    ensures noted { OnOk result (least.new ≡ after least.old (flat_map (tuple_faults targets.now.table targets.now.names) tuples.now)) }
{
    let mut rows = Vec::with_capacity(alloc, tuples.len())?;
    for tuple in tuples {
        rows.push(bind_tuple(alloc, targets, tuple.items(), least)?)?;
    }
    Ok(List::from_vec(rows))
}

/// The rows that an INSERT puts into a table.
fn bind_rows<'a>(
    alloc: Global,
    table: &'a TableDef,
    names: &'a Option<List<Name>>,
    tuples: &[List<Value>],
    least: &mut Least<'a>,
) -> Result<List<Row>, AllocError>
    requires table { length table.now.columns ≤ TABLE_COLUMNS }
    requires tuples { AllByRecursion IsTupleWithin tuples.now }
    ensures rows { IfOk result (λ rows. rows ≡ map (put_row table.now names.now) tuples.now) }
    ensures noted { OnOk result (least.new ≡ after least.old (insert_faults_in names.now tuples.now table.now)) }
{
    let targets = Targets::of(alloc, table, names, least)?;
    bind_tuples(alloc, &targets, tuples, least)
}

/// What an INSERT means. What is wrong with it is noted.
#[tactic(auto, unfolding(query_model::specs::WriteFaults::insert_faults))]
pub fn bind_insert<'a>(
    alloc: Global,
    schema: &'a Schema,
    table: &'a Name,
    columns: &'a Option<List<Name>>,
    rows: &'a List<List<Value>>,
    least: &mut Least<'a>,
) -> Result<Bound, AllocError>
    requires tables { IsWithinLimits schema.now }
    requires tuples { AllByRecursion IsTupleWithin rows.now }
    ensures bound { IfOk result (λ insert. insert ≡ bound.Insert (table_number schema.now table.now) (option_map_or (λ found. map (put_row found.1 columns.now) rows.now) (table_named schema.now table.now) [])) }
    ensures noted { OnOk result (least.new ≡ after least.old (insert_faults schema.now table.now columns.now rows.now)) }
{
    match bind_table(schema, table, least) {
        None => Ok(Bound::Insert {
            table: TableNo(0),
            rows: List::new(alloc),
        }),
        Some(found) => Ok(Bound::Insert {
            table: found.number,
            rows: bind_rows(alloc, found.table, columns, rows.items(), least)?,
        }),
    }
}
