ghost use Rattle.std.specs.Prelude.{option_map};
ghost use Rattle.grammar_model.specs.Readable.{IsReadable};
ghost use Rattle.script_model.specs.Split.{IsOfASession};
ghost use Rattle.shell_session.specs.DiskView.{view_of};
ghost use Rattle.shell_session.specs.Life.{IsCalled};
ghost use Rattle.shell_session.specs.Opening.{opening_of};

use engine_core::Engine;
use outer_world::Disk;
use own_base::Place;
use own_model::{Refusal, Reply, ScriptCall};
use std::alloc::AllocError;

/// What a call was answered, and at which place of the history; without one memory kept it from being made.
#[derive(Drop)]
pub(crate) struct Answer {
    pub(crate) place: Option<Place>,
    pub(crate) reply: Reply,
}

/// Makes a call.
pub(crate) fn make_call<D: Disk>(engine: &mut Engine<D>, call: ScriptCall) -> Answer
    requires readable { IsReadable call.request }
    requires session { IsOfASession call }
    ensures called { IsCalled (view_of D.leaves D.moment D.might_have_left D.honest D.faults) (opening_of engine.old) (opening_of engine.new) call (option_map (λ place. place.0) result.place) result.reply }
{
    let ScriptCall {
        session,
        call: number,
        request,
    } = call;
    match engine.answer(session, number, request) {
        Ok((place, reply)) => Answer {
            place: Some(place),
            reply,
        },
        Err(AllocError) => Answer {
            place: None,
            reply: Reply::Refused(Refusal::Memory),
        },
    }
}
