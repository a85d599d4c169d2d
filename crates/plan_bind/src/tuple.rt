ghost use Rattle.std.specs.Prelude.{◌≡◌, ◌≤◌, ◌∷◌, [], Some, length, IfOk, OnOk, if◌then◌else◌};
ghost use Rattle.std.specs.List.{flat_map, zip};
ghost use Rattle.own_model.specs.declared.limit.TheConstants.{STATEMENT_BYTES, TABLE_COLUMNS};
ghost use Rattle.own_model.specs.declared.refusal.Refusal.TheVariants.{NullValue};
ghost use Rattle.query_model.specs.WithinLimits.{IsTupleWithin};
ghost use Rattle.query_model.specs.WriteFaults as spec;
ghost use Rattle.query_model.specs.WriteFaults.{columns_for, columns_left, left_faults, tuple_faults, value_faults, wrong_count};
ghost use Rattle.query_model.specs.WriteMeaning.{put_row};
ghost use Rattle.bind_scope.specs.After.{after};
ghost use Rattle.plan_bind.specs.NumberedColumns.{column_of};
ghost use Rattle.plan_bind.specs.InsertTargets.{IsCounted, value_at};

use crate::insert_targets::Targets;
use crate::numbered_column::NumberedColumn;
use crate::value_kind::goes_with;
use bind_scope::{Fault, Least};
use own_base::{List, MakeCopy, Row, Value};
use own_model::{STATEMENT_BYTES, TABLE_COLUMNS, TableDef};
use row_reading::is_null;
use std::alloc::{AllocError, Global};

/// Whether a column takes no NULL: the primary key, and one that is NOT NULL.
fn takes_no_null(table: &TableDef, column: NumberedColumn<'_>) -> bool
    ensures { result ≡ spec.takes_no_null table.now (column_of column.entry) }
{
    column.number == table.key || column.column.not_null
}

/// Notes a tuple of another number of values than the columns. A list of more columns than a table can have is refused
/// for itself, so that no such number is told.
#[tactic(auto, using(crate::proofs::ColumnLists::lengths))]
fn note_count(targets: &Targets<'_>, tuple: &[Value], least: &mut Least<'_>)
    requires tuple { IsTupleWithin tuple.now }
    requires counted { IsCounted targets.now least.old }
    ensures { least.new ≡ after least.old (wrong_count (length tuple.now) (length (columns_for targets.now.table targets.now.names))) }
{
    let got = tuple.len();
    let wanted = targets.columns().len();
    if got != wanted && wanted <= TABLE_COLUMNS {
        least.note(Fault::Count {
            got: got as u32,
            wanted: wanted as u32,
        });
    }
}

/// Notes a value of another kind than its column, and a NULL where none may stand.
fn note_value<'a>(
    table: &TableDef,
    column: NumberedColumn<'a>,
    value: &Value,
    least: &mut Least<'a>,
)
    ensures { least.new ≡ after least.old (value_faults table.now (Some (column_of column.entry)) value.now) }
{
    if !goes_with(column.column.kind, value) {
        least.note(Fault::WrongKind(&column.column.name));
    }
    if is_null(value) && takes_no_null(table, column) {
        least.note(Fault::NullValue(&column.column.name));
    }
}

/// Notes what is wrong with the values, each by the column that it is for.
fn note_values<'a>(targets: &Targets<'a>, tuple: &[Value], least: &mut Least<'a>)
    ensures { least.new ≡ after least.old (flat_map (λ pair. value_faults targets.now.table pair.0 pair.1) (zip (columns_for targets.now.table targets.now.names) tuple.now)) }
{
    for (column, value) in targets.columns().iter().zip(tuple) {
        if let Some(column) = column {
            note_value(targets.table(), *column, value, least);
        }
    }
}

/// Notes a column that gets no value and takes no NULL.
fn note_missing<'a>(table: &TableDef, column: NumberedColumn<'a>, least: &mut Least<'a>)
    ensures { least.new ≡ after least.old (if spec.takes_no_null table.now (column_of column.entry) then NullValue column.entry.column.now.name ∷ [] else []) }
{
    if takes_no_null(table, column) {
        least.note(Fault::NullValue(&column.column.name));
    }
}

/// Notes the columns that get no value and take no NULL.
fn note_left<'a>(targets: &Targets<'a>, least: &mut Least<'a>)
    ensures { least.new ≡ after least.old (left_faults targets.now.table (columns_left targets.now.table targets.now.names)) }
{
    for column in targets.left() {
        note_missing(targets.table(), *column, least);
    }
}

/// A copy of the value at a place; NULL where there is none.
fn copied_at(alloc: Global, tuple: &[Value], place: Option<usize>) -> Result<Value, AllocError>
    ensures { IfOk result (λ value. value ≡ value_at tuple.now place) }
{
    match place {
        Some(place) if place < tuple.len() => tuple[place].copy(alloc),
        _ => Ok(Value::Null),
    }
}

/// The row that a tuple puts, which its copies share.
fn put_row(alloc: Global, targets: &Targets<'_>, tuple: &[Value]) -> Result<Row, AllocError>
    ensures { IfOk result (λ row. row ≡ put_row targets.now.table targets.now.names tuple.now) }
{
    let places = targets.places();
    let mut values = Vec::with_capacity(alloc, places.len())?;
    for place in places {
        values.push(copied_at(alloc, tuple, *place)?)?;
    }
    Row::from_values(List::from_vec(values)).into_shared(alloc)
}

/// The row that a tuple puts. What is wrong with the tuple is noted.
pub(crate) fn bind_tuple<'a>(
    alloc: Global,
    targets: &Targets<'a>,
    tuple: &[Value],
    least: &mut Least<'a>,
) -> Result<Row, AllocError>
    requires tuple { IsTupleWithin tuple.now }
    requires counted { IsCounted targets.now least.old }
    ensures row { IfOk result (λ row. row ≡ put_row targets.now.table targets.now.names tuple.now) }
    ensures noted { OnOk result (least.new ≡ after least.old (tuple_faults targets.now.table targets.now.names tuple.now)) }
{
    note_count(targets, tuple, least);
    note_values(targets, tuple, least);
    note_left(targets, least);
    put_row(alloc, targets, tuple)
}
