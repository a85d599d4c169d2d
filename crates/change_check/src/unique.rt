ghost use Rattle.std.specs.Prelude.{◌≡◌, ◌<◌, ◌^◌, [], true, IfOk, IsTrue, Some, length, slice_get};
ghost use Rattle.own_model.specs.Db.{Db, IsOrdered};
ghost use Rattle.schema_model.specs.WithinLimits.{IsWithinLimits};
ghost use Rattle.state_model.specs.Fault.{first_of, unique_faults};
ghost use Rattle.state_model.specs.LeadTo.{LeadTo};
ghost use Rattle.state_model.specs.Rows.{AreRowsOf};
ghost use Rattle.link_model.specs.Indexed.{is_indexed_at};
ghost use Rattle.change_check.specs.declared.cell_name.CellName.{CellName as Cell};
ghost use Rattle.change_check.specs.declared.refusing.Rule.TheVariants.{Unique};
ghost use Rattle.change_check.specs.Least.{IsFurther, is_reached};
ghost use Rattle.change_check.specs.Rule.{breaks_at, breaks_by};
ghost use Rattle.change_check.specs.Shared.{HoldsWhatCame, shared_by};

use crate::came::came;
use crate::cell_name::{CellName, lower};
use crate::holders::first_of_many;
use crate::refusing::{Rule, refusal_at};
use link_model::Linked;
use own_base::{Change, ColNo};
use own_model::{Column, Refusal, TableDef};
use std::alloc::{AllocError, Global};

/// The first who holds what a change's row came to hold in a UNIQUE column, where another does too.
fn shared_by<V: Linked>(
    alloc: Global,
    view: &V,
    change: &Change,
    number: ColNo,
    column: &Column,
) -> Result<Option<CellName>, AllocError>
    requires { column.now.unique ≡ true → IsTrue (is_indexed_at (V.db view.now).schema change.now.name.table.0 number.0) }
    ensures { IfOk result (λ shared. shared ≡ shared_by (V.db view.now) change.now number.0 column.now) }
{
    if !column.unique {
        return Ok(None);
    }
    match came(alloc, number, change)? {
        Some(value) => first_of_many(alloc, view, change.name.table, number, &value),
        None => Ok(None),
    }
}

/// What was found, taken further by what a change's row came to hold in the UNIQUE columns of its table.
fn least_in_columns<V: Linked>(
    alloc: Global,
    view: &V,
    change: &Change,
    definition: &TableDef,
    found: Option<CellName>,
) -> Result<Option<CellName>, AllocError>
    requires there { slice_get (V.db view.now).schema.tables change.now.name.table.0 ≡ Some definition.now }
    requires limits { length definition.now.columns < 2 ^ 32 }
    ensures further { IfOk result (λ least. IsFurther (breaks_at (breaks_by Unique (V.db view.now)) (V.db view.now)) found least) }
    ensures caught { IfOk result (λ least. (name : Cell) → HoldsWhatCame (V.db view.now) change.now name
        → breaks_at (breaks_by Unique (V.db view.now)) (V.db view.now) name ≡ true → is_reached least name ≡ true) }
{
    let mut least = found;
    for (at, column) in definition.columns.items().iter().enumerate() {
        let shared = shared_by(alloc, view, change, ColNo(at as u32), column)?;
        least = lower(shared, least);
    }
    Ok(least)
}

/// What was found, taken further by a change.
fn least_by_change<V: Linked>(
    alloc: Global,
    view: &V,
    change: &Change,
    found: Option<CellName>,
) -> Result<Option<CellName>, AllocError>
    requires limits { IsWithinLimits (V.db view.now).schema }
    ensures further { IfOk result (λ least. IsFurther (breaks_at (breaks_by Unique (V.db view.now)) (V.db view.now)) found least) }
    ensures caught { IfOk result (λ least. (name : Cell) → HoldsWhatCame (V.db view.now) change.now name
        → breaks_at (breaks_by Unique (V.db view.now)) (V.db view.now) name ≡ true → is_reached least name ≡ true) }
{
    match view
        .schema()
        .tables
        .items()
        .get(change.name.table.0 as usize)
    {
        Some(definition) => least_in_columns(alloc, view, change, definition, found),
        None => Ok(found),
    }
}

/// The first value of a UNIQUE column that another row of its table holds too, by table, then key, then column, of a
/// database to which changes lead from one that had none. It may be of a row that no change names. Takes memory for a few
/// keys.
pub fn first_unique_fault_by<V: Linked>(
    alloc: Global,
    after: &V,
    changes: &[Change],
) -> Result<Option<Refusal>, AllocError>
    requires limits { IsWithinLimits (V.db after.now).schema }
    requires rows { AreRowsOf (V.db after.now).schema.tables (V.db after.now).rows }
    ensures { (before : Db) → IsOrdered before → before.schema ≡ (V.db after.now).schema → LeadTo before (V.db after.now) changes.now → unique_faults before ≡ []
        → IfOk result (λ first. first ≡ first_of (unique_faults (V.db after.now))) }
{
    let mut least = None;
    for change in changes {
        least = least_by_change(alloc, after, change, least)?;
    }
    refusal_at(alloc, Rule::Unique, after.schema(), least)
}
