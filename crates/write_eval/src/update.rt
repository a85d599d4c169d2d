ghost use Rattle.std.specs.Prelude.{◌≡◌, ◌<◌, length, map, IfOk};
ghost use Rattle.std.specs.Option.{option_copied};
ghost use Rattle.query_eval.specs.Tables.{AreTables};
ghost use Rattle.run_model.specs.Run as outcome;
ghost use Rattle.run_model.specs.Update.{set_value, updated};
ghost use Rattle.write_eval.specs.Updates as spec;
ghost use Rattle.write_eval.specs.Write.{SpareKey};
ghost use Rattle.write_eval.specs.Writes.{Answers};

use crate::set_value::set_value;
use crate::update_fault::first_fault;
use crate::written::Written;
use own_base::{Change, ColNo, List, MakeCopy, Row, RowName, TableNo};
use own_model::{BoundCond, BoundExpr, Refusal, StoreView, TableDef};
use query_eval::kept_in_table;
use row_reading::{definition_of, key_of};
use std::alloc::{AllocError, Global};

/// A row after an UPDATE of it, of which each expression sees the row as it was.
#[tactic(auto, unfolding(run_model::specs::Update::updated))]
fn updated(alloc: Global, sets: &[(ColNo, BoundExpr)], row: &Row) -> Result<Row, AllocError>
    ensures { IfOk result (λ after. after ≡ updated sets.now row.now) }
{
    let mut values = List::new(alloc);
    for (number, value) in row.values().iter().enumerate() {
        values.add(set_value(alloc, sets, row, number, value)?)?;
    }
    Row::from_values(values).into_shared(alloc)
}

/// That a row is updated.
fn replacement(
    alloc: Global,
    number: TableNo,
    table: &TableDef,
    sets: &[(ColNo, BoundExpr)],
    row: &Row,
) -> Result<Change, AllocError>
    ensures { IfOk result (λ change. change ≡ spec.replacement number table.now sets.now row.now) }
{
    let key = key_of(alloc, table, row)?;
    let before = row.copy(alloc)?;
    let after = updated(alloc, sets, row)?;
    Ok(Change {
        name: RowName { table: number, key },
        before: Some(before),
        after: Some(after),
    })
}

/// That rows are updated, one after another.
fn replacements(
    alloc: Global,
    number: TableNo,
    table: &TableDef,
    sets: &[(ColNo, BoundExpr)],
    rows: &[&Row],
) -> Result<List<Change>, AllocError>
    ensures { IfOk result (λ changes. changes ≡ map (spec.replacement number table.now sets.now) (map (λ row. row.now) rows.now)) }
{
    let mut changes = List::new(alloc);
    for row in rows {
        changes.add(replacement(alloc, number, table, sets, row)?)?;
    }
    Ok(changes)
}

/// What an UPDATE changes: the rows that WHERE keeps, each of them, also one that ends as it was. Or why it is refused.
pub(crate) fn update<V: StoreView>(
    alloc: Global,
    view: &V,
    number: TableNo,
    sets: &[(ColNo, BoundExpr)],
    cond: Option<&BoundCond>,
) -> Result<Result<Written, Refusal>, AllocError>
    requires there { number.0 < length (V.db view.now).schema.tables }
    requires spare { SpareKey (V.db view.now).schema number sets.now }
    requires tables { AreTables (V.db view.now).schema (V.db view.now).rows }
    ensures { IfOk result (λ answer. Answers (V.db view.now) (outcome.update (V.db view.now) number.0 sets.now (option_copied cond.entry)) number answer) }
{
    let table = definition_of(view, number);
    let kept = kept_in_table(alloc, view, number, cond)?;
    match first_fault(alloc, table, sets, kept.rows())? {
        Some(why) => Ok(Err(why)),
        None => {
            let changes = replacements(alloc, number, table, sets, kept.rows())?;
            Ok(Ok(Written {
                count: kept.count(),
                changes,
            }))
        }
    }
}
