ghost use Rattle.std.specs.Prelude.{◌≡◌, [], ◌∷◌, IfOk, IfSome, IsTrue, OnErr};
ghost use Rattle.commit_check.specs.Judged.{IsJudged};
ghost use Rattle.move_model.specs.Moves.{AreMovesOf};
ghost use Rattle.schema_model.specs.Lone.{is_lone};
ghost use Rattle.state_model.specs.Put.{put};
ghost use Rattle.state_model.specs.Sound.{Sound};
ghost use Rattle.state_model.specs.Weight.{weight};
ghost use Rattle.commit_replay.specs.Taken.{AreTold, IsTaken};

use commit_check::Judged;
use commit_judge::{judge_alone, judge_by};
use move_model::OwnerMove;
use own_base::Change;
use std::alloc::{AllocError, Global};
use std::mem::drop;
use store_version::{Next, Shown, Version, prepare, publish, publish_change};

/// What is judged of the state that one change leads to before it is made, where nothing is linked with its table.
fn judged_alone(version: &Version, weighs: u64, change: &Change) -> Option<Judged>
    requires sound { Sound version.now }
    requires weighs { weight version.now ≡ weighs }
    requires told { AreTold version.now (change.now ∷ []) }
    ensures judged { IfSome result (IsJudged (put version.now (change.now ∷ []))) }
    ensures lone { IfSome result (λ _. IsTrue (is_lone version.now.schema change.now.name.table.0)) }
{
    judge_alone(&Shown { version }, weighs, change)
}

/// Makes one change in the version itself, where nothing is wrong with what it leaves; else answers false. After
/// `AllocError` all is as it was.
fn make_alone(
    alloc: Global,
    version: &mut Version,
    weighs: &mut u64,
    change: &Change,
    judged: Judged,
) -> Result<bool, AllocError>
    requires sound { Sound version.old }
    requires weighs { weight version.old ≡ weighs.old }
    requires told { AreTold version.old (change.now ∷ []) }
    requires judged { IsJudged (put version.old (change.now ∷ [])) judged }
    requires lone { IsTrue (is_lone version.old.schema change.now.name.table.0) }
    ensures taken { IfOk result (IsTaken version.old (put version.old (change.now ∷ [])) version.new weighs.new) }
    ensures version_stays { OnErr result (version.new ≡ version.old) }
    ensures weighs_stays { OnErr result (weighs.new ≡ weighs.old) }
{
    match judged {
        Judged::Fault(why) => {
            drop(why);
            Ok(false)
        }
        Judged::Weighs(sum) => {
            publish_change(alloc, version, change)?;
            *weighs = sum;
            Ok(true)
        }
    }
}

/// What is judged of a next version to which changes lead, by these and the moves that come with them.
fn judged_by(
    alloc: Global,
    version: &Version,
    weighs: u64,
    next: &Next,
    changes: &[Change],
    moves: &[OwnerMove],
) -> Result<Judged, AllocError>
    requires sound { Sound version.now }
    requires weighs { weight version.now ≡ weighs }
    requires told { AreTold version.now changes.now }
    requires next { next.now ≡ put version.now changes.now }
    requires moves { AreMovesOf version.now (put version.now changes.now) moves.now }
    ensures { IfOk result (IsJudged next.now) }
{
    let before = Shown { version };
    let after = Shown {
        version: next.version(),
    };
    judge_by(alloc, &before, &after, weighs, changes, moves)
}

/// The next version takes the place of the one that stands, where nothing is wrong with it; else answers false. Takes no
/// memory.
fn take(version: &mut Version, weighs: &mut u64, next: Next, judged: Judged) -> bool
    requires weighs { weight version.old ≡ weighs.old }
    requires judged { IsJudged next judged }
    ensures { IsTaken version.old next version.new weighs.new result }
{
    match judged {
        Judged::Fault(why) => {
            drop(why);
            drop(next);
            false
        }
        Judged::Weighs(sum) => {
            publish(version, next);
            *weighs = sum;
            true
        }
    }
}

/// Makes changes beside the version that stands, and goes on to what they leave, where nothing is wrong with it; else
/// answers false. After `AllocError` all is as it was.
fn make_beside(
    alloc: Global,
    version: &mut Version,
    weighs: &mut u64,
    changes: &[Change],
) -> Result<bool, AllocError>
    requires sound { Sound version.old }
    requires weighs { weight version.old ≡ weighs.old }
    requires told { AreTold version.old changes.now }
    ensures taken { IfOk result (IsTaken version.old (put version.old changes.now) version.new weighs.new) }
    ensures version_stays { OnErr result (version.new ≡ version.old) }
    ensures weighs_stays { OnErr result (weighs.new ≡ weighs.old) }
{
    let (next, moves) = prepare(alloc, version, changes)?;
    let judged = judged_by(alloc, version, *weighs, &next, changes, moves.items());
    drop(moves);
    match judged {
        Ok(judged) => Ok(take(version, weighs, next, judged)),
        Err(refused) => {
            drop(next);
            Err(refused)
        }
    }
}

/// Makes changes, and goes on to what they leave, where nothing is wrong with it; else answers false. A change alone, of a
/// table that nothing is linked with, is judged before it is made, and made in place. After `AllocError` all is as it was.
pub(crate) fn make(
    alloc: Global,
    version: &mut Version,
    weighs: &mut u64,
    changes: &[Change],
) -> Result<bool, AllocError>
    requires sound { Sound version.old }
    requires weighs { weight version.old ≡ weighs.old }
    requires told { AreTold version.old changes.now }
    ensures taken { IfOk result (IsTaken version.old (put version.old changes.now) version.new weighs.new) }
    ensures version_stays { OnErr result (version.new ≡ version.old) }
    ensures weighs_stays { OnErr result (weighs.new ≡ weighs.old) }
{
    if let [change] = changes {
        if let Some(judged) = judged_alone(version, *weighs, change) {
            return make_alone(alloc, version, weighs, change, judged);
        }
    }
    make_beside(alloc, version, weighs, changes)
}
