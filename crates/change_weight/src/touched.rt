ghost use Rattle.std.specs.Prelude.{◌≡◌, ◌++◌, IfOk};
ghost use Rattle.change_weight.specs.Touched.{AreTidied, changed_names as names_of_changes, moved_names as names_of_moves};

use move_model::OwnerMove;
use own_base::{Change, MakeCopy, RowName};
use std::alloc::{AllocError, Global};

/// The names of changes.
fn changed_names(alloc: Global, changes: &[Change]) -> Result<Vec<RowName>, AllocError>
    ensures { IfOk result (λ names. names.items ≡ names_of_changes changes.now) }
{
    let mut names = Vec::new(alloc);
    for change in changes {
        names.push(change.name.copy(alloc)?)?;
    }
    Ok(names)
}

/// Those names, and those of moves behind them.
fn with_moved(
    alloc: Global,
    changed: Vec<RowName>,
    moves: &[OwnerMove],
) -> Result<Vec<RowName>, AllocError>
    ensures { IfOk result (λ names. names.items ≡ changed.items ++ names_of_moves moves.now) }
{
    let mut names = changed;
    for moved in moves {
        names.push(moved.name.copy(alloc)?)?;
    }
    Ok(names)
}

/// The same names, rising, each once. Takes no memory.
fn tidied(names: Vec<RowName>) -> Vec<RowName>
    ensures { AreTidied names.items result.items }
{
    let mut names = names;
    names.sort_unstable();
    names.dedup();
    names
}

/// The names of changes and of moves, rising, each once.
pub(crate) fn touched(
    alloc: Global,
    changes: &[Change],
    moves: &[OwnerMove],
) -> Result<Vec<RowName>, AllocError>
    ensures { IfOk result (λ names. AreTidied (names_of_changes changes.now ++ names_of_moves moves.now) names.items) }
{
    let changed = changed_names(alloc, changes)?;
    let names = with_moved(alloc, changed, moves)?;
    Ok(tidied(names))
}
