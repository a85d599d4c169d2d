ghost use Rattle.std.specs.Prelude.{◌≡◌, ◌+◌, ◌<◌, ◌^◌, [], IsTrue, count_by, false, length, map, not, IfOk};
ghost use Rattle.own_model.specs.declared.bound.Bound.TheVariants.{Forget};
ghost use Rattle.own_model.specs.declared.reply.Reply.TheVariants.{Forgot};
ghost use Rattle.move_model.specs.Moves.{AreMovesOf};
ghost use Rattle.schema_model.specs.Tables.{is_subject};
ghost use Rattle.ref_index.specs.Tells.{Tell};
ghost use Rattle.state_model.specs.Put.{put};
ghost use Rattle.state_model.specs.Sound.{Sound};
ghost use Rattle.state_model.specs.Weight.{weight};
ghost use Rattle.run_model.specs.Run.{forget_subject};
ghost use Rattle.subject_erase.specs.Plan.{leaves_row};
ghost use Rattle.history_model.specs.Reply.{forget_reply};
ghost use Rattle.check_image.specs.Gated.{IsGatedImage};
ghost use Rattle.crash_model.specs.Room.{LaidAnew};
ghost use Rattle.engine_core.specs.Answered.{ErasesBound, IsLaidBy, Tells};

use crate::answer::Answer;
use crate::prepared::{NextState, Prepared};
use change_weight::weight_by;
use check_image::encode;
use move_model::OwnerMove;
use own_base::{Change, List, MakeCopy, RowName, Subject};
use own_model::{Reply, StoreView};
use shelf_erase::erase_changes;
use std::alloc::{AllocError, Global};
use std::mem::drop;
use store_version::{Next, Shown, Version, prepare};
use subject_access::no_subject;

/// The reply to a GDPR FORGET that makes these changes: how many rows they remove, and how many they change.
fn forgotten(changes: &[Change]) -> Reply
    requires { length changes.now < 2 ^ 32 }
    ensures { result ≡ Forgot (count_by (λ change. not (leaves_row change)) changes.now) (count_by leaves_row changes.now) }
{
    let removed = changes
        .iter()
        .filter(|change| !change.after.is_some())
        .count();
    let changed = changes
        .iter()
        .filter(|change| change.after.is_some())
        .count();
    Reply::Forgot {
        removed: removed as u32,
        changed: changed as u32,
    }
}

/// The names of the rows that changes are of.
fn names_of(alloc: Global, changes: &[Change]) -> Result<List<RowName>, AllocError>
    ensures { IfOk result (λ names. names ≡ map (λ change. change.name) changes.now) }
{
    let mut names = Vec::new(alloc);
    for change in changes {
        let name = change.name.copy(alloc)?;
        names.push(name)?;
    }
    Ok(List::from_vec(names))
}

/// What the version weighs that a FORGET leaves, by its changes and the moves that come with them. No rule is asked.
fn weight_left(
    alloc: Global,
    version: &Version,
    weighs: u64,
    next: &Next,
    changes: &[Change],
    moves: &[OwnerMove],
) -> Result<u64, AllocError>
    requires sound { Sound version.now }
    requires weighs { weight version.now ≡ weighs }
    requires tells { Tell version.now changes.now }
    requires next { next.now ≡ put version.now changes.now }
    requires sound_next { Sound next.now }
    requires moves { AreMovesOf version.now (put version.now changes.now) moves.now }
    ensures { IfOk result (λ left. left ≡ weight next.now) }
{
    let before = Shown { version };
    let after = Shown {
        version: next.version(),
    };
    weight_by(alloc, &before, &after, weighs, changes, moves)
}

/// The image of a version to which a commit leads, behind so many of them, and a closed gate.
fn image_of(alloc: Global, version: &Version, commits: u64) -> Result<List<u8>, AllocError>
    requires sound { Sound version.now }
    ensures { IfOk result (IsGatedImage version.now (commits + 1)) }
{
    let shown = Shown { version };
    // Past the greatest number of commits that an image may have, the bytes are none, whichever of them is told.
    let number = commits.saturating_add(1);
    encode(alloc, &shown, version.catalog().creates(), number)
}

/// The answer to a call that leads to a next version and leaves it by its image.
fn laid(
    alloc: Global,
    next: Next,
    weighs: u64,
    image: Result<List<u8>, AllocError>,
    reply: Reply,
) -> Result<Answer, AllocError>
    ensures told { IfOk result (IsLaidBy next weighs reply image) }
    ensures nothing { IfOk result (λ answer. answer.erased ≡ []) }
{
    match image {
        Ok(image) => Ok(Answer {
            reply,
            next: Some(Prepared {
                state: NextState::Anew(next),
                weighs,
                bytes: image,
            }),
            erased: List::new(alloc),
        }),
        Err(refused) => {
            drop(next);
            drop(reply);
            Err(refused)
        }
    }
}

/// The answer to a bound GDPR FORGET, which commits by itself, behind so many commits: no constraint, limit or length refuses it,
/// and none is asked. What it leaves is laid anew, so that nothing of what it erases stays on the disk. It names the rows that it
/// removes or changes as erased.
#[tactic(auto, unfolding(run_model::specs::Run::forget_subject))]
pub(crate) fn forget(
    alloc: Global,
    version: &Version,
    weighs: u64,
    commits: u64,
    subject: &Subject,
) -> Result<Answer, AllocError>
    requires sound { Sound version.now }
    requires weighs { weight version.now ≡ weighs }
    requires subject { IsTrue (is_subject version.now.schema subject.now.0.table.0) }
    ensures tells { IfOk result (Tells version.now false (LaidAnew (commits + 1)) (λ verdict. forget_reply verdict (forget_subject version.now subject.now.0)) (forget_subject version.now subject.now.0).db) }
    ensures erases { IfOk result (ErasesBound version.now (Forget subject.now)) }
{
    let shown = Shown { version };
    if shown.row(&subject.0).is_none() {
        let why = no_subject(alloc, version.schema(), subject)?;
        return Ok(Answer::told(alloc, Reply::Refused(why)));
    }
    let changes = erase_changes(alloc, &shown, version.graph(), subject)?;
    let names = names_of(alloc, changes.items())?;
    let (next, moves) = prepare(alloc, version, changes.items())?;
    let reply = forgotten(changes.items());
    let left = weight_left(
        alloc,
        version,
        weighs,
        &next,
        changes.items(),
        moves.items(),
    );
    drop(moves);
    match left {
        Ok(left) => {
            let image = image_of(alloc, next.version(), commits);
            Ok(laid(alloc, next, left, image, reply)?.erasing(names))
        }
        Err(refused) => {
            drop(next);
            Err(refused)
        }
    }
}
