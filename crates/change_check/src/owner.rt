ghost use Rattle.std.specs.Prelude.{◌≡◌, ℕ, [], IfOk, Some, slice_get};
ghost use Rattle.own_base.specs.declared.change.Change.{Change as OwnChange};
ghost use Rattle.own_model.specs.Db.{Db, IsOrdered};
ghost use Rattle.schema_model.specs.OwnerSchema.{IsOwnerSchema};
ghost use Rattle.subject_model.specs.Named.{is_there};
ghost use Rattle.state_model.specs.Fault.{first_of, owner_faults};
ghost use Rattle.state_model.specs.LeadTo.{LeadTo};
ghost use Rattle.move_model.specs.Moves.{AreMovesOf};
ghost use Rattle.move_model.specs.declared.owner_move.OwnerMove.{OwnerMove as Move};
ghost use Rattle.change_check.specs.Least.{IsFurther};
ghost use Rattle.change_check.specs.Unowned.{IsCaught, is_of_unowned, is_unowned, unowned_cell};

use crate::cell_name::{CellName, lower};
use crate::refusing::owner_refusal;
use link_model::Linked;
use move_model::OwnerMove;
use own_base::{Change, ColNo, MakeCopy, RowName};
use own_model::{Refusal, StoreView};
use row_reading::is_private;
use std::alloc::{AllocError, Global};

/// Whether there is a row of a name.
fn is_there<V: StoreView>(view: &V, name: &RowName) -> bool
    ensures { result ≡ is_there (V.db view.now) name.now }
{
    let table = name.table.0 as usize;
    table < view.schema().tables.items().len() && view.row(name).is_some()
}

/// Whether there is one, in a private table, and it has no owner.
fn is_unowned<V: Linked>(view: &V, name: &RowName) -> bool
    requires { IsOwnerSchema (V.db view.now).schema }
    ensures { result ≡ is_unowned (V.db view.now) name.now }
{
    is_private(view.schema(), name.table.0 as usize)
        && is_there(view, name)
        && view.owners(name).is_empty()
}

/// The first cell of such a row, which stands for the row.
fn unowned_cell<V: Linked>(
    alloc: Global,
    view: &V,
    name: &RowName,
) -> Result<Option<CellName>, AllocError>
    requires { IsOwnerSchema (V.db view.now).schema }
    ensures { IfOk result (λ cell. cell ≡ unowned_cell (V.db view.now) name.now) }
{
    if !is_unowned(view, name) {
        return Ok(None);
    }
    let row = name.copy(alloc)?;
    let column = ColNo(0);
    Ok(Some(CellName { row, column }))
}

/// What was found, taken further by the row of a name.
fn least_by_name<V: Linked>(
    alloc: Global,
    view: &V,
    name: &RowName,
    found: Option<CellName>,
) -> Result<Option<CellName>, AllocError>
    requires { IsOwnerSchema (V.db view.now).schema }
    ensures further { IfOk result (λ least. IsFurther (is_of_unowned (V.db view.now)) found least) }
    ensures caught { IfOk result (λ least. IsCaught (V.db view.now) name.now least) }
{
    let unowned = unowned_cell(alloc, view, name)?;
    Ok(lower(unowned, found))
}

/// What was found, taken further by the rows of changes.
fn least_by_changes<V: Linked>(
    alloc: Global,
    view: &V,
    changes: &[Change],
    found: Option<CellName>,
) -> Result<Option<CellName>, AllocError>
    requires { IsOwnerSchema (V.db view.now).schema }
    ensures further { IfOk result (λ least. IsFurther (is_of_unowned (V.db view.now)) found least) }
    ensures caught { IfOk result (λ least. (place : ℕ) (change : OwnChange) → slice_get changes.now place ≡ Some change → IsCaught (V.db view.now) change.name least) }
{
    let mut least = found;
    for change in changes {
        least = least_by_name(alloc, view, &change.name, least)?;
    }
    Ok(least)
}

/// What was found, taken further by the rows of moves.
fn least_by_moves<V: Linked>(
    alloc: Global,
    view: &V,
    moves: &[OwnerMove],
    found: Option<CellName>,
) -> Result<Option<CellName>, AllocError>
    requires { IsOwnerSchema (V.db view.now).schema }
    ensures further { IfOk result (λ least. IsFurther (is_of_unowned (V.db view.now)) found least) }
    ensures caught { IfOk result (λ least. (place : ℕ) (one : Move) → slice_get moves.now place ≡ Some one → IsCaught (V.db view.now) one.name least) }
{
    let mut least = found;
    for one in moves {
        least = least_by_name(alloc, view, &one.name, least)?;
    }
    Ok(least)
}

/// The first row of a private table, by table, then key, without an owner, of a database to which changes lead from one where
/// each had one. It may be of a row that no change names. No rows are looked at but those that changed and those whose
/// subjects moved. Takes memory for a few keys.
pub fn first_owner_fault_by<V: Linked>(
    alloc: Global,
    after: &V,
    changes: &[Change],
    moves: &[OwnerMove],
) -> Result<Option<Refusal>, AllocError>
    requires { IsOwnerSchema (V.db after.now).schema }
    ensures { (before : Db) → IsOrdered before → before.schema ≡ (V.db after.now).schema → LeadTo before (V.db after.now) changes.now
        → AreMovesOf before (V.db after.now) moves.now → owner_faults before ≡ []
        → IfOk result (λ first. first ≡ first_of (owner_faults (V.db after.now))) }
{
    let changed = least_by_changes(alloc, after, changes, None)?;
    let least = least_by_moves(alloc, after, moves, changed)?;
    owner_refusal(alloc, after.schema(), least)
}
