ghost use Rattle.std.specs.Prelude.{◌≡◌, ◌≢◌, ◌∷◌, [], false, None, IfOk, IfSome, IsTrue, OnErr, length};
ghost use Rattle.move_model.specs.Moves.{AreMovesOf};
ghost use Rattle.schema_model.specs.Lone.{is_lone};
ghost use Rattle.state_model.specs.Net.{net};
ghost use Rattle.state_model.specs.Put.{put};
ghost use Rattle.state_model.specs.CommitRefusal as spec;
ghost use Rattle.state_model.specs.Sound.{IsWellFormed, Sound};
ghost use Rattle.state_model.specs.Weight.{weight};
ghost use Rattle.disk_model.specs.declared.commit.Commit.TheVariants.{Changes};
ghost use Rattle.disk_model.specs.PutOf.{puts_of};
ghost use Rattle.commit_check.specs.Judged.{IsJudged};
ghost use Rattle.crash_model.specs.Room.{Appended};
ghost use Rattle.history_model.specs.Reply as spec_of;
ghost use Rattle.history_model.specs.Reply.{committing};
ghost use Rattle.engine_core.specs.Answered.{IsOnlyOfLone, IsRecordedAs, Tells};

use crate::answer::Answer;
use crate::prepared::{NextState, Prepared};
use commit_check::Judged;
use commit_judge::{judge_alone, judge_by};
use commit_record::record_of_changes;
use move_model::OwnerMove;
use own_base::{Change, List};
use own_model::{Refusal, Reply};
use rec_codec::EncodeFault;
use std::alloc::{AllocError, Global};
use std::mem::drop;
use store_version::{Next, Shown, Version, prepare};

/// What is judged of a next version to which changes lead, by these and the moves that come with them.
fn judged_by(
    alloc: Global,
    version: &Version,
    weighs: u64,
    next: &Next,
    changes: &[Change],
    moves: &[OwnerMove],
) -> Result<Judged, AllocError>
    requires sound { Sound version.now }
    requires weighs { weight version.now ≡ weighs }
    requires net { changes.now ≡ net version.now (put version.now changes.now) }
    requires well_formed { IsWellFormed next.now }
    requires next { next.now ≡ put version.now changes.now }
    requires moves { AreMovesOf version.now (put version.now changes.now) moves.now }
    ensures { IfOk result (IsJudged next.now) }
{
    let before = Shown { version };
    let after = Shown {
        version: next.version(),
    };
    judge_by(alloc, &before, &after, weighs, changes, moves)
}

/// Whether a reply is a refusal.
fn is_refusal(reply: &Reply) -> bool
    ensures { result ≡ spec_of.is_refusal reply.now }
{
    matches!(reply, Reply::Refused(_))
}

/// The answer to a call that leads to a next state without a fault: with its record it is left; where that would be longer
/// than a record may be, the call is refused with its length.
pub(crate) fn recorded(
    alloc: Global,
    state: NextState,
    weighs: u64,
    framed: Result<List<u8>, EncodeFault>,
    reply: Reply,
) -> Result<Answer, AllocError>
    ensures told { IfOk result (IsRecordedAs state weighs reply framed) }
    ensures nothing { IfOk result (λ answer. answer.erased ≡ []) }
{
    match framed {
        Ok(framed) => Ok(Answer {
            reply,
            next: Some(Prepared {
                state,
                weighs,
                bytes: framed,
            }),
            erased: List::new(alloc),
        }),
        Err(fault) => {
            drop(state);
            drop(reply);
            match fault {
                EncodeFault::TooBig(bytes) => {
                    Ok(Answer::told(alloc, Reply::Refused(Refusal::TooBig(bytes))))
                }
                EncodeFault::Memory => Err(AllocError),
            }
        }
    }
}

/// The answer to a commit whose next version is made beside the one that stands, and then judged.
fn commit_beside(
    alloc: Global,
    version: &Version,
    weighs: u64,
    changes: &[Change],
    reply: Reply,
) -> Result<Answer, AllocError>
    requires sound { Sound version.now }
    requires weighs { weight version.now ≡ weighs }
    requires net { changes.now ≡ net version.now (put version.now changes.now) }
    requires some { changes.now ≢ [] }
    requires well_formed { IsWellFormed (put version.now changes.now) }
    requires accepted { spec_of.is_refusal reply ≡ false }
    ensures tells { IfOk result (Tells version.now false (Appended (Changes (puts_of (net version.now (put version.now changes.now))))) (λ verdict. committing verdict (spec_of.changes version.now (put version.now changes.now))
        (spec.commit_refusal version.now (put version.now changes.now)) reply) (put version.now changes.now)) }
    ensures nothing { IfOk result (λ answer. answer.erased ≡ []) }
{
    let (next, moves) = prepare(alloc, version, changes)?;
    let judged = judged_by(alloc, version, weighs, &next, changes, moves.items());
    drop(moves);
    match judged {
        Ok(Judged::Weighs(sum)) => {
            let framed = record_of_changes(alloc, changes);
            recorded(alloc, NextState::Beside(next), sum, framed, reply)
        }
        Ok(Judged::Fault(why)) => {
            drop(next);
            drop(reply);
            Ok(Answer::told(alloc, Reply::Refused(why)))
        }
        Err(refused) => {
            drop(next);
            drop(reply);
            Err(refused)
        }
    }
}

/// What is judged of the state to which one change leads, before it is made, where nothing is linked with its table.
fn judged_alone(version: &Version, weighs: u64, change: &Change) -> Option<Judged>
    requires sound { Sound version.now }
    requires weighs { weight version.now ≡ weighs }
    requires net { change.now ∷ [] ≡ net version.now (put version.now (change.now ∷ [])) }
    requires well_formed { IsWellFormed (put version.now (change.now ∷ [])) }
    ensures judged { IfSome result (IsJudged (put version.now (change.now ∷ []))) }
    ensures lone { IfSome result (λ judged. IsTrue (is_lone version.now.schema change.now.name.table.0)) }
{
    judge_alone(&Shown { version }, weighs, change)
}

/// The only change of those that there are.
fn only_change(changes: List<Change>) -> Change
    requires { length changes ≡ 1 }
    ensures { changes ≡ result ∷ [] }
{
    let mut items = changes.into_vec();
    items.pop().unwrap()
}

/// The answer to a commit of one change alone, which is made in the version that stands once the disk has its record, by what
/// was judged of that.
fn commit_in_place(
    alloc: Global,
    version: &Version,
    changes: List<Change>,
    judged: Judged,
    reply: Reply,
) -> Result<Answer, AllocError>
    requires sound { Sound version.now }
    requires net { changes ≡ net version.now (put version.now changes) }
    requires well_formed { IsWellFormed (put version.now changes) }
    requires judged { IsJudged (put version.now changes) judged }
    requires lone { IsOnlyOfLone version.now changes }
    requires accepted { spec_of.is_refusal reply ≡ false }
    ensures tells { IfOk result (Tells version.now false (Appended (Changes (puts_of (net version.now (put version.now changes))))) (λ verdict. committing verdict (spec_of.changes version.now (put version.now changes))
        (spec.commit_refusal version.now (put version.now changes)) reply) (put version.now changes)) }
    ensures nothing { IfOk result (λ answer. answer.erased ≡ []) }
{
    let _ = version;
    match judged {
        Judged::Weighs(sum) => {
            let framed = record_of_changes(alloc, changes.items());
            let change = only_change(changes);
            recorded(alloc, NextState::InPlace(change), sum, framed, reply)
        }
        Judged::Fault(why) => {
            drop(changes);
            drop(reply);
            Ok(Answer::told(alloc, Reply::Refused(why)))
        }
    }
}

/// The answer to a call that commits changes and is answered so where they are accepted. A refusal stays one. Without any
/// change the state stays, and nothing refuses that.
pub(crate) fn commit(
    alloc: Global,
    version: &Version,
    weighs: u64,
    changes: List<Change>,
    reply: Reply,
) -> Result<Answer, AllocError>
    requires sound { Sound version.now }
    requires weighs { weight version.now ≡ weighs }
    requires net { changes ≡ net version.now (put version.now changes) }
    requires well_formed { IsWellFormed (put version.now changes) }
    ensures tells { IfOk result (Tells version.now false (Appended (Changes (puts_of (net version.now (put version.now changes))))) (λ verdict. committing verdict (spec_of.changes version.now (put version.now changes))
        (spec.commit_refusal version.now (put version.now changes)) reply) (put version.now changes)) }
    ensures nothing { IfOk result (λ answer. answer.erased ≡ []) }
    ensures spared { OnErr result (changes ≢ []) }
    ensures stays { IfOk result (λ answer. changes ≡ [] → answer.next ≡ None) }
{
    if is_refusal(&reply) {
        drop(changes);
        return Ok(Answer::told(alloc, reply));
    }
    if changes.items().is_empty() {
        drop(changes);
        return Ok(Answer::told(alloc, reply));
    }
    if let [change] = changes.items() {
        if let Some(judged) = judged_alone(version, weighs, change) {
            return commit_in_place(alloc, version, changes, judged, reply);
        }
    }
    let answer = commit_beside(alloc, version, weighs, changes.items(), reply);
    drop(changes);
    answer
}
