ghost use Rattle.std.specs.Prelude.{◌≡◌, IfOk, Some, slice_get};
ghost use Rattle.own_model.specs.Db.{key_of};
ghost use Rattle.own_model.specs.Stored.{rows_at};
ghost use Rattle.owner_sets.specs.Sets.{AreSetsOf};
ghost use Rattle.schema_model.specs.OwnerSchema.{IsOwnerSchema};
ghost use Rattle.schema_model.specs.WithinLimits.{IsWithinLimits};
ghost use Rattle.state_model.specs.Fault.{first_of, owner_faults, owner_rule};
ghost use Rattle.subject_model.specs.Owners.{owners};
ghost use Rattle.commit_check.specs.Firsts.{first_in_table};

use own_base::{MakeCopy, Row, TableNo};
use own_model::{Refusal, StoreView, TableDef};
use owner_sets::OwnerSets;
use row_reading::{is_private, key_of};
use std::alloc::{AllocError, Global};

/// What a row of a private table without an owner is refused with.
fn refusal(alloc: Global, definition: &TableDef, row: &Row) -> Result<Refusal, AllocError>
    ensures { IfOk result (λ refusal. refusal ≡ Refusal.Owner definition.now.name (key_of definition.now row.now)) }
{
    let table = definition.name.copy(alloc)?;
    let key = key_of(alloc, definition, row)?;
    Ok(Refusal::Owner { table, key })
}

/// The first row of a private table, by key, without an owner.
fn first_in_table<V: StoreView>(
    alloc: Global,
    view: &V,
    sets: &OwnerSets,
    table: TableNo,
    definition: &TableDef,
) -> Result<Option<Refusal>, AllocError>
    requires there { slice_get (V.db view.now).schema.tables table.0 ≡ Some definition.now }
    requires owner { IsOwnerSchema (V.db view.now).schema }
    requires owners { AreSetsOf (V.db view.now) (owners (V.db view.now)) sets.now.owners }
    ensures { IfOk result (λ first. first ≡ first_in_table (owner_rule (V.db view.now)) table.0 definition.now (rows_at (V.db view.now).rows table.0)) }
{
    if !is_private(view.schema(), table.0 as usize) {
        return Ok(None);
    }
    for at in 0..view.count(table) {
        let row = match view.row_at(table, at) {
            Some(row) => row,
            None => return Ok(None),
        };
        if sets.owners(table, at).is_empty() {
            let fault = refusal(alloc, definition, row)?;
            return Ok(Some(fault));
        }
    }
    Ok(None)
}

/// The first row of a private table, by table, then key, without an owner, given the sets of the view's rows.
pub fn first_owner_fault<V: StoreView>(
    alloc: Global,
    view: &V,
    sets: &OwnerSets,
) -> Result<Option<Refusal>, AllocError>
    requires limits { IsWithinLimits (V.db view.now).schema }
    requires owner { IsOwnerSchema (V.db view.now).schema }
    requires owners { AreSetsOf (V.db view.now) (owners (V.db view.now)) sets.now.owners }
    ensures { IfOk result (λ first. first ≡ first_of (owner_faults (V.db view.now))) }
{
    for (number, definition) in view.schema().tables.items().iter().enumerate() {
        if let Some(fault) = first_in_table(
            alloc,
            view,
            sets,
            TableNo(number as u32),
            definition,
        )? {
            return Ok(Some(fault));
        }
    }
    Ok(None)
}
