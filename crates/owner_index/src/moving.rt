ghost use Rattle.std.specs.Prelude.{◌≡◌, [], ◌∷◌, ◌++◌, IfOk, IsTrue, OnOk, filter};
ghost use Rattle.std.specs.List.Sorted.{IsStrictlySortedBy};
ghost use Rattle.owner_index.specs.Held.{owners_of, reach_of};
ghost use Rattle.owner_index.specs.HeldMoves.{AddsMoves, AreHeldMoves, DoRise, held_standing, is_among, is_move, is_same, move_at, reachers};
ghost use Rattle.owner_sets.specs.IsSortedSet.{IsSortedSet};
ghost use Rattle.owner_sets.specs.SubjectOrder.{subject_cmp};
ghost use Rattle.subject_model.specs.NameOrder.{name_cmp};

use crate::gather::{add_copies, as_set};
use crate::index::OwnerIndex;
use move_model::{OwnerMove, Standing};
use own_base::{List, MakeCopy, RowName, Subject};
use std::alloc::{AllocError, Global};

/// Whether a subject is one of these, which rise. It takes as many looks as their number has bits, and no memory.
fn is_among(subject: &Subject, subjects: &[Subject]) -> bool
    ensures { IsStrictlySortedBy subject_cmp subjects.now → result ≡ is_among subject.now subjects.now }
{
    subjects.binary_search(subject).is_ok()
}

/// How a subject stands to a row by what an index holds, in lists that rise.
fn held_standing(index: &OwnerIndex, name: &RowName, subject: &Subject) -> Standing
    ensures { DoRise index.now → result ≡ held_standing index.now name.now subject.now }
{
    if is_among(subject, index.owners(name)) {
        Standing::Owns
    } else if is_among(subject, index.reach(name)) {
        Standing::Reaches
    } else {
        Standing::Nothing
    }
}

/// Whether two are the same.
fn is_same(one: Standing, other: Standing) -> bool
    ensures { result ≡ is_same one other }
{
    one == other
}

/// Adds a subject's move, where it stands otherwise to a row than before.
fn add_move(
    alloc: Global,
    old: &OwnerIndex,
    new: &OwnerIndex,
    name: &RowName,
    subject: &Subject,
    moves: &mut List<OwnerMove>,
) -> Result<(), AllocError>
    ensures { OnOk result (DoRise old.now → DoRise new.now → moves.new ≡ moves.old ++ filter is_move (move_at old.now new.now name.now subject.now ∷ [])) }
{
    let before = held_standing(old, name, subject);
    let after = held_standing(new, name, subject);
    if is_same(before, after) {
        return Ok(());
    }
    moves.add(OwnerMove {
        name: name.copy(alloc)?,
        subject: subject.copy(alloc)?,
        before,
        after,
    })?;
    Ok(())
}

/// All who reached a row or reach it, each once.
fn reachers(
    alloc: Global,
    old: &OwnerIndex,
    new: &OwnerIndex,
    name: &RowName,
) -> Result<List<Subject>, AllocError>
    ensures { IfOk result (IsSortedSet (reachers old.now new.now name.now)) }
{
    let mut subjects = Vec::new(alloc);
    add_copies(alloc, old.reach(name), &mut subjects)?;
    add_copies(alloc, new.reach(name), &mut subjects)?;
    Ok(as_set(subjects))
}

/// Whether two indexes hold the same for a row. Takes no memory.
fn is_kept(old: &OwnerIndex, new: &OwnerIndex, name: &RowName) -> bool
    ensures owners { IsTrue result → owners_of old.now name.now ≡ owners_of new.now name.now }
    ensures reach { IsTrue result → reach_of old.now name.now ≡ reach_of new.now name.now }
{
    old.owners(name) == new.owners(name) && old.reach(name) == new.reach(name)
}

/// Adds the moves of a row.
fn add_moves(
    alloc: Global,
    old: &OwnerIndex,
    new: &OwnerIndex,
    name: &RowName,
    moves: &mut List<OwnerMove>,
) -> Result<(), AllocError>
    ensures { OnOk result (DoRise old.now → DoRise new.now → AddsMoves old.now new.now name.now moves.old moves.new) }
{
    if is_kept(old, new, name) {
        return Ok(());
    }
    let subjects = reachers(alloc, old, new, name)?;
    for subject in subjects.items() {
        add_move(alloc, old, new, name, subject, moves)?;
    }
    Ok(())
}

/// The moves of these rows, by row, then by subject, where what is held rises.
pub(crate) fn moves_of(
    alloc: Global,
    old: &OwnerIndex,
    new: &OwnerIndex,
    names: &[RowName],
) -> Result<List<OwnerMove>, AllocError>
    requires { IsStrictlySortedBy name_cmp names.now }
    ensures { IfOk result (λ moves. DoRise old.now → DoRise new.now → AreHeldMoves old.now new.now names.now moves) }
{
    let mut moves = List::new(alloc);
    for name in names {
        add_moves(alloc, old, new, name, &mut moves)?;
    }
    Ok(moves)
}
