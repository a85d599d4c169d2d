ghost use Rattle.std.specs.Prelude.{◌≡◌, [], true, IfOk};
ghost use Rattle.std.specs.List.{AllByRecursion};
ghost use Rattle.own_model.specs.Db.{Db, IsOrdered};
ghost use Rattle.owner_model.specs.Joins.{row_of};
ghost use Rattle.schema_model.specs.OwnerSchema.{IsOwnerSchema};
ghost use Rattle.schema_model.specs.WithinLimits.{IsWithinLimits};
ghost use Rattle.state_model.specs.Fault.{first_of, reference_faults};
ghost use Rattle.state_model.specs.LeadTo.{LeadTo};
ghost use Rattle.change_check.specs.declared.cell_name.CellName.{CellName as Cell};
ghost use Rattle.change_check.specs.declared.refusing.Rule.TheVariants.{Reference};
ghost use Rattle.change_check.specs.Dangling.{IsWhatCame, RefersTo, is_taken};
ghost use Rattle.change_check.specs.Least.{IsFurther, is_reached};
ghost use Rattle.change_check.specs.Rule.{breaks_at, breaks_by};

use crate::cell_name::CellName;
use crate::dangling::dangling_in_columns;
use crate::referring::referring_in_tables;
use crate::refusing::{Rule, refusal_at};
use link_model::Linked;
use own_base::Change;
use own_model::Refusal;
use std::alloc::{AllocError, Global};

/// What was found, taken further by what the row of a change came to refer to.
fn least_by_row<V: Linked>(
    alloc: Global,
    view: &V,
    change: &Change,
    found: Option<CellName>,
) -> Result<Option<CellName>, AllocError>
    requires limits { IsWithinLimits (V.db view.now).schema }
    requires owner { IsOwnerSchema (V.db view.now).schema }
    requires told { change.now.after ≡ row_of (V.db view.now) change.now.name }
    ensures further { IfOk result (λ least. IsFurther (breaks_at (breaks_by Reference (V.db view.now)) (V.db view.now)) found least) }
    ensures caught { IfOk result (λ least. (name : Cell) → IsWhatCame change.now name
        → breaks_at (breaks_by Reference (V.db view.now)) (V.db view.now) name ≡ true → is_reached least name ≡ true) }
{
    match view
        .schema()
        .tables
        .items()
        .get(change.name.table.0 as usize)
    {
        Some(definition) => dangling_in_columns(alloc, view, change, definition, found),
        None => Ok(found),
    }
}

/// What was found, taken further by a change: by what its row came to refer to, or by those who refer to a row that it took
/// away.
fn least_by_change<V: Linked>(
    alloc: Global,
    view: &V,
    change: &Change,
    found: Option<CellName>,
) -> Result<Option<CellName>, AllocError>
    requires limits { IsWithinLimits (V.db view.now).schema }
    requires owner { IsOwnerSchema (V.db view.now).schema }
    requires told { change.now.after ≡ row_of (V.db view.now) change.now.name }
    ensures further { IfOk result (λ least. IsFurther (breaks_at (breaks_by Reference (V.db view.now)) (V.db view.now)) found least) }
    ensures came { IfOk result (λ least. (name : Cell) → IsWhatCame change.now name
        → breaks_at (breaks_by Reference (V.db view.now)) (V.db view.now) name ≡ true → is_reached least name ≡ true) }
    ensures taken { IfOk result (λ least. is_taken change.now ≡ true → (name : Cell) → RefersTo (V.db view.now) change.now.name name → is_reached least name ≡ true) }
{
    match (&change.before, &change.after) {
        (_, Some(_)) => least_by_row(alloc, view, change, found),
        (Some(_), None) => referring_in_tables(alloc, view, &change.name, found),
        (None, None) => Ok(found),
    }
}

/// The first reference that names no row, by table, then key, then column, of a database to which changes lead from one that
/// had none. It may be of a row that no change names. Takes memory for a few keys.
pub fn first_reference_fault_by<V: Linked>(
    alloc: Global,
    after: &V,
    changes: &[Change],
) -> Result<Option<Refusal>, AllocError>
    requires limits { IsWithinLimits (V.db after.now).schema }
    requires owner { IsOwnerSchema (V.db after.now).schema }
    requires told { AllByRecursion (λ change. change.after ≡ row_of (V.db after.now) change.name) changes.now }
    ensures { (before : Db) → IsOrdered before → before.schema ≡ (V.db after.now).schema → LeadTo before (V.db after.now) changes.now → reference_faults before ≡ []
        → IfOk result (λ first. first ≡ first_of (reference_faults (V.db after.now))) }
{
    let mut least = None;
    for change in changes {
        least = least_by_change(alloc, after, change, least)?;
    }
    refusal_at(alloc, Rule::Reference, after.schema(), least)
}
