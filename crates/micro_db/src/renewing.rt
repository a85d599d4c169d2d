ghost use Rattle.std.specs.Prelude.{◌≡◌, IfOk, IsTrue, OnOk};
ghost use Rattle.schema_model.specs.OwnerSchema.{IsOwnerSchema};
ghost use Rattle.shelf_model.specs.At.{copy_at, seen_at};
ghost use Rattle.micro_db.specs.Renewed.{AreRight, ForSomeOf, IsMoveAt, IsOf, IsReachedAt, Renews};

use crate::copying::copy_of;
use crate::micro::MicroDb;
use crate::place::{compare_names, compare_subjects};
use crate::rows::is_there;
use crate::standing::{owns, reaches};
use link_model::Linked;
use move_model::OwnerMove;
use own_base::{MakeCopy, RowName, Subject};
use row_reading::is_name;
use shelf_model::Shelved;
use std::alloc::{AllocError, Global};
use std::cmp::Ordering;

/// The copy of a row that is there, where the subject owns it.
fn copy_at<N: Linked>(
    alloc: Global,
    after: &N,
    subject: &Subject,
    name: &RowName,
) -> Result<Option<Shelved>, AllocError>
    requires { IsOwnerSchema (N.db after.now).schema }
    ensures { IfOk result (λ copy. copy ≡ copy_at (N.db after.now) subject.now.0 name.now) }
{
    if owns(after, subject, name) {
        copy_of(alloc, after, subject, name)
    } else {
        Ok(None)
    }
}

/// The name of a row that is there, where the subject reaches it and doesn't own it.
fn seen_at<N: Linked>(
    alloc: Global,
    after: &N,
    subject: &Subject,
    name: &RowName,
) -> Result<Option<RowName>, AllocError>
    requires { IsOwnerSchema (N.db after.now).schema }
    ensures { IfOk result (λ seen. seen ≡ seen_at (N.db after.now) subject.now.0 name.now) }
{
    if is_there(after, name) && reaches(after, subject, name) && !owns(after, subject, name) {
        Ok(Some(name.copy(alloc)?))
    } else {
        Ok(None)
    }
}

/// Whether a move is below that of a subject and a row: by row, then by subject.
fn is_below(moved: &OwnerMove, subject: &Subject, name: &RowName) -> bool {
    match compare_names(&moved.name, name) {
        Ordering::Equal => compare_subjects(&moved.subject, subject).is_lt(),
        apart => apart.is_lt(),
    }
}

/// Whether a subject moved at a row, of moves that rise. It takes as many looks as their number has bits, and no memory.
fn has_moved(moves: &[OwnerMove], subject: &Subject, name: &RowName) -> bool
    ensures { IsTrue result → ForSomeOf IsMoveAt moves.now subject.now name.now }
{
    let at = moves.partition_point(|moved| is_below(moved, subject, name));
    match moves.get(at) {
        Some(moved) => is_name(&moved.name, name) && is_name(&moved.subject.0, &subject.0),
        None => false,
    }
}

impl MicroDb {
    /// Makes right what is kept of a row for a subject.
    fn renew<N: Linked>(
        &mut self,
        alloc: Global,
        after: &N,
        subject: &Subject,
        name: &RowName,
    ) -> Result<(), AllocError>
        requires { IsOwnerSchema (N.db after.now).schema }
        ensures { OnOk result (Renews (N.db after.now) (IsOf subject.now name.now) self.old self.new) }
    {
        let copy = copy_at(alloc, after, subject, name)?;
        let seen = seen_at(alloc, after, subject, name)?;
        self.shelves.put(alloc, subject, name, copy)?;
        self.seen.put(alloc, subject, name, seen)?;
        Ok(())
    }

    /// Makes right what is kept where a subject stands otherwise to a row than before, from the last move on: what goes from a
    /// page's end goes in place, and what goes from its beginning doesn't.
    pub(crate) fn renew_moved<N: Linked>(
        &mut self,
        alloc: Global,
        after: &N,
        moves: &[OwnerMove],
    ) -> Result<(), AllocError>
        requires { IsOwnerSchema (N.db after.now).schema }
        ensures { OnOk result (Renews (N.db after.now) (ForSomeOf IsMoveAt moves.now) self.old self.new) }
    {
        let mut left = moves.len();
        while left > 0 {
            left -= 1;
            let moved = &moves[left];
            self.renew(alloc, after, &moved.subject, &moved.name)?;
        }
        Ok(())
    }

    /// Makes right what is kept of a row for a subject, where it didn't move there: else it is right already.
    fn renew_unmoved<N: Linked>(
        &mut self,
        alloc: Global,
        after: &N,
        moves: &[OwnerMove],
        subject: &Subject,
        name: &RowName,
    ) -> Result<(), AllocError>
        requires { IsOwnerSchema (N.db after.now).schema }
        ensures { OnOk result (AreRight (N.db after.now) moves.now self.old → Renews (N.db after.now) (IsOf subject.now name.now) self.old self.new) }
    {
        if has_moved(moves, subject, name) {
            return Ok(());
        }
        self.renew(alloc, after, subject, name)?;
        Ok(())
    }

    /// Makes right what is kept of a row for the subjects that reach it, where it is right for those that moved.
    fn renew_row<N: Linked>(
        &mut self,
        alloc: Global,
        after: &N,
        moves: &[OwnerMove],
        name: &RowName,
    ) -> Result<(), AllocError>
        requires { IsOwnerSchema (N.db after.now).schema }
        ensures { OnOk result (AreRight (N.db after.now) moves.now self.old → Renews (N.db after.now) (IsReachedAt (N.db after.now) name.now) self.old self.new) }
    {
        for subject in after.reach(name) {
            self.renew_unmoved(alloc, after, moves, subject, name)?;
        }
        Ok(())
    }

    /// Makes right what is kept of these rows for the subjects that reach them, where it is right for those that moved.
    pub(crate) fn renew_rows<N: Linked>(
        &mut self,
        alloc: Global,
        after: &N,
        moves: &[OwnerMove],
        names: &[RowName],
    ) -> Result<(), AllocError>
        requires { IsOwnerSchema (N.db after.now).schema }
        ensures { OnOk result (AreRight (N.db after.now) moves.now self.old → Renews (N.db after.now) (ForSomeOf (IsReachedAt (N.db after.now)) names.now) self.old self.new) }
    {
        for name in names {
            self.renew_row(alloc, after, moves, name)?;
        }
        Ok(())
    }
}
