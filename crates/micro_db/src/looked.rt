ghost use Rattle.std.specs.Prelude.{◌≡◌, ◌++◌, IfOk, OnOk};
ghost use Rattle.owner_index.specs.Adds.{Adds, ForSome};
ghost use Rattle.owner_index.specs.Names.{AreTidied};
ghost use Rattle.schema_model.specs.OwnerSchema.{IsOwnerSchema};
ghost use Rattle.micro_db.specs.Looked.{AreLookedAt, IsBelowMoved};

use crate::below::add_below;
use link_model::Linked;
use move_model::OwnerMove;
use own_base::{Change, List, RowName};
use owner_index::touched;
use std::alloc::{AllocError, Global};

/// Adds the rows right below those that moved.
fn add_below_moved<N: Linked>(
    alloc: Global,
    after: &N,
    moves: &[OwnerMove],
    names: &mut List<RowName>,
) -> Result<(), AllocError>
    requires { IsOwnerSchema (N.db after.now).schema }
    ensures { OnOk result (Adds (ForSome (IsBelowMoved (N.db after.now)) moves.now) names.old names.new) }
{
    for moved in moves {
        add_below(alloc, after, &moved.name, names)?;
    }
    Ok(())
}

/// The same names, rising, each once. Takes no memory.
fn tidied(names: List<RowName>) -> List<RowName>
    ensures { AreTidied names result }
{
    let mut names = names.into_vec();
    names.sort_unstable();
    names.dedup();
    List::from_vec(names)
}

/// The rows of which copies may have to be renewed, though how their subjects stand to them stays: those that changes touch,
/// and those right below rows that moved.
pub(crate) fn looked_at<N: Linked>(
    alloc: Global,
    after: &N,
    moves: &[OwnerMove],
    changes: &[Change],
) -> Result<List<RowName>, AllocError>
    requires { IsOwnerSchema (N.db after.now).schema }
    ensures { IfOk result (AreLookedAt (N.db after.now) moves.now changes.now) }
{
    let mut names = touched(alloc, after, after, changes)?;
    add_below_moved(alloc, after, moves, &mut names)?;
    Ok(tidied(names))
}
