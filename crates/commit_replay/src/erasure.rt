ghost use Rattle.std.specs.Prelude.{◌≡◌, ◌↔◌, IfOk, IsTrue};
ghost use Rattle.std.specs.List.{AllByRecursion};
ghost use Rattle.owner_model.specs.Joins.{row_of};
ghost use Rattle.move_model.specs.Moves.{AreMovesOf};
ghost use Rattle.ref_index.specs.Tells.{Tell};
ghost use Rattle.schema_model.specs.Tables.{is_subject};
ghost use Rattle.state_model.specs.Put.{put};
ghost use Rattle.state_model.specs.Sound.{Sound};
ghost use Rattle.state_model.specs.Weight.{weight};
ghost use Rattle.subject_model.specs.Forget.{forget};
ghost use Rattle.disk_model.specs.declared.commit.Commit.TheVariants.{Forget};
ghost use Rattle.disk_model.specs.Lawful.{IsLawfulForget};
ghost use Rattle.commit_replay.specs.Leads.{Leads};

use crate::followed::Followed;
use change_weight::weight_by;
use move_model::OwnerMove;
use own_base::{Change, List, MakeCopy, RowName, Subject};
use own_model::StoreView;
use row_reading::is_subject;
use std::alloc::{AllocError, Global};
use std::mem::drop;
use store_version::{Next, Shown, Version, prepare};
use subject_erase::erase_changes;

/// Whether there is a data subject of a name.
fn is_lawful_forget(version: &Version, name: &RowName) -> bool
    requires { Sound version.now }
    ensures { IsTrue result ↔ IsLawfulForget version.now name.now }
{
    if !is_subject(version.schema(), name.table.0 as usize) {
        return false;
    }
    let shown = Shown { version };
    shown.row(name).is_some()
}

/// The changes by which the subject of a name is erased.
fn erased(alloc: Global, version: &Version, name: &RowName) -> Result<List<Change>, AllocError>
    requires sound { Sound version.now }
    requires subject { IsTrue (is_subject version.now.schema name.now.table.0) }
    ensures tells { IfOk result (Tell version.now) }
    ensures forgets { IfOk result (λ changes. put version.now changes ≡ forget version.now name.now) }
{
    let subject = Subject(name.copy(alloc)?);
    let shown = Shown { version };
    erase_changes(alloc, &shown, version.graph(), &subject)
}

/// What the version weighs that an erasure leaves, by its changes and the moves that come with them. No rule is asked.
fn weight_left(
    alloc: Global,
    version: &Version,
    weighs: u64,
    next: &Next,
    changes: &[Change],
    moves: &[OwnerMove],
) -> Result<u64, AllocError>
    requires sound { Sound version.now }
    requires weighs { weight version.now ≡ weighs }
    requires tells { Tell version.now changes.now }
    requires next { next.now ≡ put version.now changes.now }
    requires sound_next { Sound next.now }
    requires moves { AreMovesOf version.now (put version.now changes.now) moves.now }
    ensures { IfOk result (λ left. left ≡ weight next.now) }
{
    let before = Shown { version };
    let after = Shown {
        version: next.version(),
    };
    weight_by(alloc, &before, &after, weighs, changes, moves)
}

/// What an erasure leaves, of which these are the changes.
fn left_by(
    alloc: Global,
    version: &Version,
    weighs: u64,
    changes: &[Change],
) -> Result<Followed, AllocError>
    requires sound { Sound version.now }
    requires weighs { weight version.now ≡ weighs }
    requires tells { Tell version.now changes.now }
    requires sound_next { Sound (put version.now changes.now) }
    ensures next { IfOk result (λ followed. followed.next ≡ put version.now changes.now) }
    ensures weighs { IfOk result (λ followed. weight followed.next ≡ followed.weighs) }
{
    let (next, moves) = prepare(alloc, version, changes)?;
    let left = weight_left(alloc, version, weighs, &next, changes, moves.items());
    drop(moves);
    match left {
        Ok(weighs) => Ok(Followed { next, weighs }),
        Err(refused) => {
            drop(next);
            Err(refused)
        }
    }
}

/// What a commit of a FORGET leads to, where it is lawful here. No constraint and no limit is asked, since an erasure breaks
/// none.
pub(crate) fn follow_forget(
    alloc: Global,
    version: &Version,
    weighs: u64,
    name: &RowName,
) -> Result<Option<Followed>, AllocError>
    requires sound { Sound version.now }
    requires weighs { weight version.now ≡ weighs }
    ensures { Leads version.now (Forget name.now) result }
{
    if !is_lawful_forget(version, name) {
        return Ok(None);
    }
    let changes = erased(alloc, version, name)?;
    let followed = left_by(alloc, version, weighs, changes.items())?;
    Ok(Some(followed))
}
