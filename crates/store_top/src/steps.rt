ghost use Rattle.std.specs.Prelude.{◌≡◌, ◌+◌, ◌<◌, ◌≤◌, length, option_map};
ghost use Rattle.grammar_model.specs.Readable.{IsReadable};
ghost use Rattle.script_model.specs.Split.{IsOfASession};
ghost use Rattle.history_model.specs.History as spec;
ghost use Rattle.engine_core.specs.Seen.{disk_of};
ghost use Rattle.history_model.specs.Fails.{fails_at};
ghost use Rattle.crash_model.specs.MovesDisk.{MovesDiskOnce};
ghost use Rattle.store_top.specs.Steps.{AnswersCall};

use engine_core::Engine;
use outer_world::Disk;
use own_base::Place;
use own_model::{Refusal, Reply, ScriptCall};
use std::alloc::AllocError;

/// What a call came to: its place in the history, if it was made, and its reply.
#[derive(Debug, Drop)]
pub(crate) struct Told {
    pub(crate) place: Option<Place>,
    pub(crate) reply: Reply,
}

/// Whether a fault of the disk is told.
pub(crate) fn is_disk(reply: &Reply) -> bool
    ensures { result ≡ spec.is_disk reply.now }
{
    matches!(reply, Reply::Refused(Refusal::Disk))
}

/// Makes a call.
pub(crate) fn make_call<D: Disk>(engine: &mut Engine<D>, call: ScriptCall) -> Told
    requires room { 0 < engine.old.spare }
    requires readable { IsReadable call.request }
    requires session { IsOfASession call }
    ensures answers { AnswersCall engine.old.base call engine.old.history engine.new.history (option_map (λ place. place.0) result.place) result.reply }
    ensures failed { spec.is_disk result.reply ≡ fails_at engine.old.base engine.new.history (length engine.old.history) }
    ensures moves { MovesDiskOnce D.moment D.might_have_left D.honest D.faults engine.old.base engine.old.start engine.old.history engine.new.history (disk_of engine.old) (disk_of engine.new) }
    ensures base { engine.new.base ≡ engine.old.base }
    ensures start { engine.new.start ≡ engine.old.start }
    ensures journal { engine.new.journal ≡ engine.old.journal }
    ensures room { engine.old.spare ≤ engine.new.spare + 1 }
{
    let ScriptCall {
        session,
        call: number,
        request,
    } = call;
    match engine.answer(session, number, request) {
        Ok((place, reply)) => Told {
            place: Some(place),
            reply,
        },
        Err(AllocError) => Told {
            place: None,
            reply: Reply::Refused(Refusal::Memory),
        },
    }
}
