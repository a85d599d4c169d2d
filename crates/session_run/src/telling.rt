ghost use Rattle.std.specs.Prelude.{◌≡◌};
ghost use Rattle.history_model.specs.History as spec;
ghost use Rattle.serve_model.specs.Look.{IsLook};
ghost use Rattle.session_run.specs.Telling.{IsShown, MayBeLookedAt, TellsReply, TellsStep};

use crate::replies::Told;
use own_base::{Place, SessionNo};
use own_model::{Bound, Refusal, Reply};
use serve_model::{Looks, Step};
use sql_print::print_reply;
use std::alloc::{AllocError, Global};
use std::mem::drop;

/// Whether a fault of the disk is told.
fn is_disk(reply: &Reply) -> bool
    ensures { result ≡ spec.is_disk reply.now }
{
    matches!(reply, Reply::Refused(Refusal::Disk))
}

/// Tells a call that was answered so.
fn tell_reply(
    alloc: Global,
    session: SessionNo,
    call: u32,
    place: Option<Place>,
    reply: Reply,
) -> Told
    ensures { TellsReply session.0 call place reply result }
{
    let failed = is_disk(&reply);
    let lines = print_reply(alloc, place, session, call, &reply).ok();
    drop(reply);
    Told {
        call,
        place,
        failed,
        lines,
    }
}

/// Answers a look by what shows its database. Where memory for that is refused, that is the answer.
fn look_at<L: Looks + Drop>(shown: L, bound: Bound) -> Reply
    requires { IsLook (L.db shown).schema bound }
    ensures { IsShown (L.db shown) bound result }
{
    match shown.look(&bound) {
        Ok(reply) => reply,
        Err(AllocError) => Reply::Refused(Refusal::Memory),
    }
}

/// Tells a call by what it came to. A look is answered here.
pub(crate) fn tell_step<L: Looks + Drop>(
    alloc: Global,
    session: SessionNo,
    call: u32,
    step: Step<L>,
) -> Told
    requires { MayBeLookedAt L.db step }
    ensures { TellsStep L.db session.0 call step result }
{
    match step {
        Step::Answered(place, reply) => tell_reply(alloc, session, call, Some(place), reply),
        Step::Look(place, shown, bound) => {
            let reply = look_at(shown, bound);
            tell_reply(alloc, session, call, Some(place), reply)
        }
        Step::NoMemory => {
            let reply = Reply::Refused(Refusal::Memory);
            tell_reply(alloc, session, call, None, reply)
        }
    }
}
