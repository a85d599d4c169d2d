ghost use Rattle.std.specs.Prelude.{◌≡◌, ◌≢◌, ◌+◌, ◌<◌, ◌≤◌, ℕ, List, [], length, vec_len, IfOk, IsTrue, OnOk, Err};
ghost use Rattle.outer_world.specs.FaultCount.{CountRose};
ghost use Rattle.outer_world.specs.LastCall.{EndsInFault};
ghost use Rattle.own_base.specs.declared.number.Area.TheVariants.{A, B};
ghost use Rattle.state_model.specs.Sound.{Sound};
ghost use Rattle.grammar_model.specs.Readable.{IsReadable};
ghost use Rattle.script_model.specs.Numbered.{AreNumbered};
ghost use Rattle.script_model.specs.Split.{IsOfASession};
ghost use Rattle.crash_model.specs.StoreIn.{IsStoreIn};
ghost use Rattle.engine_core.specs.Seen.{disk_of};
ghost use Rattle.store_top.specs.Ran.{LastFault};
ghost use Rattle.history_model.specs.Fails.{TellsFailure, fails_at};
ghost use Rattle.crash_model.specs.MovesDisk.{MovesDisk, MovesDiskOnce};
ghost use Rattle.store_top.specs.Steps.{AreOfInput, AreReadable, MakesCall, MakesCallTo, RunsTo, StopsAtCall, ToldBefore, ToldInPart};

use crate::steps::{is_disk, make_call};
use engine_core::Engine;
use outer_world::{Disk, Sink, write_all};
use own_base::Text;
use own_model::ScriptCall;
use session_run::RunFault;
use sql_print::print_reply;
use std::alloc::{AllocError, Global};
use std::mem::drop;

/// The lines of a call, and whether it was answered with a fault of the disk.
struct Lines {
    text: Text,
    failed: bool,
}

/// Serves a call, and gives its lines.
fn lines_of_call<D: Disk>(
    engine: &mut Engine<D>,
    alloc: Global,
    call: ScriptCall,
) -> Result<Lines, AllocError>
    requires room { 0 < engine.old.spare }
    requires readable { IsReadable call.request }
    requires session { IsOfASession call }
    ensures makes { MakesCall (λ lines. lines.text) engine.old.base call engine.old.history engine.new.history result }
    ensures failed { IfOk result (λ lines. lines.failed ≡ fails_at engine.old.base engine.new.history (length engine.old.history)) }
    ensures moves { MovesDiskOnce D.moment D.might_have_left D.honest D.faults engine.old.base engine.old.start engine.old.history engine.new.history (disk_of engine.old) (disk_of engine.new) }
    ensures base { engine.new.base ≡ engine.old.base }
    ensures start { engine.new.start ≡ engine.old.start }
    ensures journal { engine.new.journal ≡ engine.old.journal }
    ensures room { engine.old.spare ≤ engine.new.spare + 1 }
{
    let session = call.session;
    let number = call.call;
    let told = make_call(engine, call);
    let failed = is_disk(&told.reply);
    let text = print_reply(alloc, told.place, session, number, &told.reply);
    drop(told);
    Ok(Lines {
        text: text?,
        failed,
    })
}

/// Serves a call, and writes its lines; it answers whether the call was answered with a fault of the disk.
fn serve_call<W: Sink, D: Disk>(
    engine: &mut Engine<D>,
    alloc: Global,
    call: ScriptCall,
    sink: &mut W,
) -> Result<bool, RunFault>
    requires room { 0 < engine.old.spare }
    requires readable { IsReadable call.request }
    requires session { IsOfASession call }
    ensures makes { MakesCallTo engine.old.base call engine.old.history engine.new.history (W.written sink.old) (W.written sink.new) result }
    ensures failed { IfOk result (λ failed. failed ≡ fails_at engine.old.base engine.new.history (length engine.old.history)) }
    ensures moves { MovesDiskOnce D.moment D.might_have_left D.honest D.faults engine.old.base engine.old.start engine.old.history engine.new.history (disk_of engine.old) (disk_of engine.new) }
    ensures base { engine.new.base ≡ engine.old.base }
    ensures start { engine.new.start ≡ engine.old.start }
    ensures journal { engine.new.journal ≡ engine.old.journal }
    ensures room { engine.old.spare ≤ engine.new.spare + 1 }
    ensures fault { result ≡ Err RunFault.Write → CountRose (W.faults sink.old) (W.faults sink.new) }
    ensures last { result ≡ Err RunFault.Write → EndsInFault W.faults W.fails sink.old sink.new }
    ensures steady { result ≢ Err RunFault.Write → W.faults sink.new ≡ W.faults sink.old }
{
    match lines_of_call(engine, alloc, call) {
        Ok(Lines { text, failed }) => match write_all(sink, text.bytes()) {
            Ok(()) => Ok(failed),
            Err(_) => Err(RunFault::Write),
        },
        Err(AllocError) => Err(RunFault::Memory),
    }
}

/// Serves calls one after another, and writes each call's lines before the next. After the first fault of the sink or of
/// memory no call is made. It answers whether some call was answered with a fault of the disk.
pub(crate) fn serve_calls<W: Sink, D: Disk>(
    engine: &mut Engine<D>,
    alloc: Global,
    calls: Vec<ScriptCall>,
    sink: &mut W,
) -> Result<bool, RunFault>
    requires sound { Sound engine.old.base }
    requires fresh { engine.old.history ≡ [] }
    requires left { IsTrue (D.honest (disk_of engine.old)) → (a b : List ℕ) → D.leaves (disk_of engine.old) A a → D.leaves (disk_of engine.old) B b
        → IsStoreIn a b engine.old.base engine.old.start }
    requires room { vec_len calls ≤ engine.old.spare }
    requires numbered { AreNumbered [] calls.items }
    requires readable { AreReadable calls.items }
    requires input { AreOfInput calls.items }

    ensures served { OnOk result (RunsTo engine.old.base calls.items engine.new.history (W.written sink.old) (W.written sink.new)) }
    ensures failed { IfOk result (λ failed. TellsFailure failed engine.old.base engine.new.history) }
    ensures broken { result ≡ Err RunFault.Write → StopsAtCall engine.old.base calls.items engine.new.history (ToldInPart (W.written sink.old) (W.written sink.new)) }
    ensures refused { result ≡ Err RunFault.Memory → StopsAtCall engine.old.base calls.items engine.new.history (ToldBefore (W.written sink.old) (W.written sink.new)) }
    ensures fault { result ≡ Err RunFault.Write → LastFault W.faults W.fails sink.old sink.new }
    ensures steady { result ≢ Err RunFault.Write → W.faults sink.new ≡ W.faults sink.old }
    ensures moves { MovesDisk D.moment D.might_have_left D.honest D.faults engine.old.base engine.old.start engine.new.history (disk_of engine.old) (disk_of engine.new) }
    ensures base { engine.new.base ≡ engine.old.base }
    ensures start { engine.new.start ≡ engine.old.start }
    ensures journal { engine.new.journal ≡ engine.old.journal }
{
    let mut failed = false;
    for call in calls {
        if serve_call(engine, alloc, call, sink)? {
            failed = true;
        }
    }
    Ok(failed)
}
