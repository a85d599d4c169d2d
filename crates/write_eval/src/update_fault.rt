ghost use Rattle.std.specs.Prelude.{◌≡◌, flat_map, map, unwrap_or, IfOk, OnOk};
ghost use Rattle.std.specs.Option.{option_copied};
ghost use Rattle.query_model.specs.Expression.{value_of};
ghost use Rattle.run_model.specs.Update.{null_faults, range_faults, update_faults};
ghost use Rattle.state_model.specs.Fault.{first_of};
ghost use Rattle.write_eval.specs.FirstFaults as spec;

use crate::set_value::value_of;
use own_base::{ColNo, MakeCopy, Name, Row, Value};
use own_model::{BoundExpr, Column, Refusal, TableDef};
use row_reading::cell;
use std::alloc::{AllocError, Global};
use std::marker::Model;

/// The first NULL and the first sum out of range that an UPDATE met so far, by the column's name, which is lent. Contracts
/// see the two refusals.
#[derive(Drop)]
struct FirstFaults<'a> {
    null: Option<&'a Name>,
    range: Option<&'a Name>,
}

impl<'a> Model for FirstFaults<'a> {
    ghost use Rattle.std.specs.Prelude.{option_map};
    ghost use Rattle.std.specs.Option.{option_copied};
    ghost use Rattle.own_model.specs.declared.refusal.Refusal.TheVariants.{NullValue, Range};
    ghost use Rattle.write_eval.specs.FirstFaults.{Faults};

    ghost Value = { Faults };

    ghost view = { λ first. record { null = option_map NullValue (option_copied first.null); range = option_map Range (option_copied first.range) } };
}

impl<'a> FirstFaults<'a> {
    /// None so far. Takes no memory.
    fn new() -> FirstFaults<'a>
        ensures { result ≡ spec.none_yet }
    {
        FirstFaults {
            null: None,
            range: None,
        }
    }

    /// Notes what is wrong with a value for a column, where it is the first of its kind. Takes no memory.
    fn note_value(&mut self, column: &'a Column, value: Option<&Value>)
        ensures { self.new ≡ spec.with_faults self.old (spec.null_fault (option_copied value.entry) column.now) (spec.range_fault (option_copied value.entry) column.now) }
    {
        match value {
            Some(Value::Null) => {
                if column.not_null && self.null.is_none() {
                    self.null = Some(&column.name);
                }
            }
            Some(_) => {}
            None => {
                if self.range.is_none() {
                    self.range = Some(&column.name);
                }
            }
        }
    }

    /// The same for what stands in a column of a row; none is NULL. Takes no memory.
    fn note_cell(&mut self, column: &'a Column, value: Option<&Value>)
        ensures { self.new ≡ spec.with_faults self.old (spec.null_fault (Some (unwrap_or (option_copied value.entry) Value.Null)) column.now) (spec.range_fault (Some (unwrap_or (option_copied value.entry) Value.Null)) column.now) }
    {
        match value {
            Some(value) => self.note_value(column, Some(value)),
            None => {
                let null = Value::Null;
                self.note_value(column, Some(&null));
            }
        }
    }

    /// The same for what a column is set to. No text is copied.
    #[tactic(auto, unfolding(query_model::specs::Expression::value_of))]
    fn note_expression(
        &mut self,
        alloc: Global,
        column: &'a Column,
        expr: &BoundExpr,
        row: &Row,
    ) -> Result<(), AllocError>
        ensures { OnOk result (self.new ≡ spec.with_faults self.old (spec.null_fault (value_of expr.now row.now) column.now) (spec.range_fault (value_of expr.now row.now) column.now)) }
    {
        match expr {
            BoundExpr::Literal(value) => self.note_value(column, Some(value)),
            BoundExpr::Column(number) => self.note_cell(column, cell(row, *number)),
            BoundExpr::Plus(_, _) | BoundExpr::Minus(_, _) => {
                let value = value_of(alloc, expr, row)?;
                self.note_value(column, value.as_ref());
            }
        }
        Ok(())
    }

    /// Notes what is wrong with a set over a row.
    fn note_set(
        &mut self,
        alloc: Global,
        table: &'a TableDef,
        set: &(ColNo, BoundExpr),
        row: &Row,
    ) -> Result<(), AllocError>
        ensures { OnOk result (self.new ≡ spec.with_faults self.old (spec.set_nulls table.now row.now set.now) (spec.set_ranges table.now row.now set.now)) }
    {
        match table.columns.items().get(set.0.0 as usize) {
            Some(column) => self.note_expression(alloc, column, &set.1, row),
            None => Ok(()),
        }
    }

    /// Notes what is wrong with the sets over a row, by column in the text.
    fn note_row(
        &mut self,
        alloc: Global,
        table: &'a TableDef,
        sets: &[(ColNo, BoundExpr)],
        row: &Row,
    ) -> Result<(), AllocError>
        ensures { OnOk result (self.new ≡ spec.with_faults self.old (null_faults table.now sets.now row.now) (range_faults table.now sets.now row.now)) }
    {
        for set in sets {
            self.note_set(alloc, table, set, row)?;
        }
        Ok(())
    }

    /// The refusal of the first NULL, else of the first sum out of range.
    fn refusal(&self, alloc: Global) -> Result<Option<Refusal>, AllocError>
        ensures { IfOk result (λ reported. reported ≡ spec.reported self.now) }
    {
        match (self.null, self.range) {
            (Some(column), _) => Ok(Some(Refusal::NullValue(column.copy(alloc)?))),
            (None, Some(column)) => Ok(Some(Refusal::Range(column.copy(alloc)?))),
            (None, None) => Ok(None),
        }
    }
}

/// The first faults of an UPDATE of rows, by row as they stand. One pass over them finds both.
fn faults_of<'a>(
    alloc: Global,
    table: &'a TableDef,
    sets: &[(ColNo, BoundExpr)],
    rows: &[&Row],
) -> Result<FirstFaults<'a>, AllocError>
    ensures { IfOk result (λ faults. faults ≡ spec.with_faults spec.none_yet (flat_map (null_faults table.now sets.now) (map (λ row. row.now) rows.now)) (flat_map (range_faults table.now sets.now) (map (λ row. row.now) rows.now))) }
{
    let mut faults = FirstFaults::new();
    for row in rows {
        faults.note_row(alloc, table, sets, row)?;
    }
    Ok(faults)
}

/// The refusal of an UPDATE of rows, if there is one: of the first NULL, else of the first sum out of range.
#[tactic(auto, using(crate::proofs::FirstFaults::reported_first), unfolding(run_model::specs::Update::update_faults))]
pub(crate) fn first_fault(
    alloc: Global,
    table: &TableDef,
    sets: &[(ColNo, BoundExpr)],
    rows: &[&Row],
) -> Result<Option<Refusal>, AllocError>
    ensures { IfOk result (λ why. why ≡ first_of (update_faults table.now sets.now (map (λ row. row.now) rows.now))) }
{
    let faults = faults_of(alloc, table, sets, rows)?;
    faults.refusal(alloc)
}
