ghost use Rattle.std.specs.Prelude.{◌≡◌, ◌≢◌, None, IfOk, OnErr};
ghost use Rattle.own_model.specs.declared.history.Entry.{Entry};
ghost use Rattle.own_model.specs.declared.refusal.Refusal.TheVariants.{Memory};
ghost use Rattle.own_model.specs.declared.reply.Reply.TheVariants.{Refused};
ghost use Rattle.history_model.specs.World.{World};
ghost use Rattle.serve_model.specs.Look.{look_of};
ghost use Rattle.engine_core.specs.Came.{ComesTo, IsAnswered, IsReplied, MayBeRead, told_of};
ghost use Rattle.engine_core.specs.Came as spec;

use own_base::Place;
use own_model::{Bound, Refusal, Reply, Verdict};
use serve_model::{Looks, Step};
use std::alloc::AllocError;
use std::mem::drop;
use store_snapshot::Snapshot;

/// What serving an entry comes to.
#[derive(Drop)]
pub(crate) enum Came {
    /// What the disk said, and the reply.
    Replied(Verdict, Reply),
    /// What shows the database that the entry reads, and its bound statement, which is to be answered by that. The disk isn't
    /// asked.
    Look(Snapshot, Bound),
}

/// What a reply at once comes to.
pub(crate) fn replied(told: Result<(Verdict, Reply), AllocError>) -> Result<Came, AllocError>
    ensures told { told_of result ≡ told }
    ensures comes { (world : World) (entry : Entry) → look_of world entry ≡ None → IfOk result (ComesTo world entry) }
    ensures replied { IfOk result IsReplied }
{
    match told {
        Ok((verdict, reply)) => Ok(Came::Replied(verdict, reply)),
        Err(refused) => Err(refused),
    }
}

/// What a refusal is reported as, unless it is for want of memory.
pub(crate) fn refused(why: Refusal) -> Result<Reply, AllocError>
    ensures told { IfOk result (λ reply. (reply ≡ Refused why) × (why ≢ Memory)) }
    ensures memory { OnErr result (why ≡ Memory) }
{
    match why {
        Refusal::Memory => Err(AllocError),
        why => Ok(Reply::Refused(why)),
    }
}

/// What the disk said.
pub(crate) fn verdict_by(came: &Came) -> Verdict
    ensures { result ≡ spec.verdict_by came.now }
{
    match came {
        Came::Replied(verdict, _) => *verdict,
        Came::Look(..) => Verdict::Took,
    }
}

/// What a call came to whose entry has a place in the history.
pub(crate) fn step_of(place: Place, came: Came) -> Step<Snapshot>
    ensures { result ≡ spec.step_of place came }
{
    match came {
        Came::Replied(_, reply) => Step::Answered(place, reply),
        Came::Look(shown, bound) => Step::Look(place, shown, bound),
    }
}

/// What a call comes to that is to be answered at once: a look is answered by what shows its database. Else it stays.
pub(crate) fn answered(came: Came, at_once: bool) -> Result<Came, AllocError>
    requires { MayBeRead came }
    ensures { IfOk result (IsAnswered at_once came) }
{
    if !at_once {
        return Ok(came);
    }
    match came {
        Came::Replied(verdict, reply) => Ok(Came::Replied(verdict, reply)),
        Came::Look(shown, bound) => {
            let reply = shown.look(&bound);
            drop(shown);
            drop(bound);
            Ok(Came::Replied(Verdict::Took, reply?))
        }
    }
}

/// The reply of what was answered at once.
pub(crate) fn into_reply(came: Came) -> Reply
    requires { IsReplied came }
    ensures { result ≡ spec.reply_by came }
{
    match came {
        Came::Replied(_, reply) => reply,
        Came::Look(..) => unreachable!(),
    }
}
