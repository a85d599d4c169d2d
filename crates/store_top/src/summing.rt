ghost use Rattle.std.specs.Prelude.{◌≡◌, ◌≢◌, ◌+◌, ◌<◌, ◌≤◌, ◌^◌, ℕ, List, [], length, vec_len, IfOk, IsTrue, OnOk, Err};
ghost use Rattle.std.specs.Io.KnownBytes.{Appends};
ghost use Rattle.own_base.specs.declared.number.Area.TheVariants.{A, B};
ghost use Rattle.state_model.specs.Sound.{Sound};
ghost use Rattle.grammar_model.specs.Readable.{IsReadable};
ghost use Rattle.script_model.specs.Split.{IsOfASession};
ghost use Rattle.crash_model.specs.StoreIn.{IsStoreIn};
ghost use Rattle.engine_core.specs.Seen.{disk_of};
ghost use Rattle.store_top.specs.Ran.{LastFault};
ghost use Rattle.history_model.specs.Fails.{TellsFailure, fails_at};
ghost use Rattle.crash_model.specs.MovesDisk.{MovesDisk, MovesDiskOnce};
ghost use Rattle.store_top.specs.Steps.{AreOfInput, AreReadable, SumsUp, TalliesCall, TalliesCalls, ToldBefore, ToldInPart};

use crate::steps::{is_disk, make_call};
use engine_core::Engine;
use made_script::Tally;
use outer_world::{Disk, Sink, write_all};
use own_model::{Request, ScriptCall};
use session_run::RunFault;
use std::alloc::{AllocError, Global};
use std::mem::drop;

/// Makes a call, and adds what it was answered to the tally, unless it is an End: whether that was a fault of the disk.
fn tally_call<D: Disk>(engine: &mut Engine<D>, call: ScriptCall, tally: &mut Tally) -> bool
    requires room { 0 < engine.old.spare }
    requires readable { IsReadable call.request }
    requires session { IsOfASession call }
    requires few { tally.old.calls < 2 ^ 32 }
    ensures tallies { TalliesCall engine.old.base call engine.old.history engine.new.history tally.old tally.new }
    ensures failed { result ≡ fails_at engine.old.base engine.new.history (length engine.old.history) }
    ensures moves { MovesDiskOnce D.moment D.might_have_left D.honest D.faults engine.old.base engine.old.start engine.old.history engine.new.history (disk_of engine.old) (disk_of engine.new) }
    ensures base { engine.new.base ≡ engine.old.base }
    ensures start { engine.new.start ≡ engine.old.start }
    ensures journal { engine.new.journal ≡ engine.old.journal }
    ensures room { engine.old.spare ≤ engine.new.spare + 1 }
{
    let is_end = matches!(call.request, Request::End);
    let told = make_call(engine, call);
    let failed = is_disk(&told.reply);
    if !is_end {
        tally.add(&told.reply);
    }
    drop(told);
    failed
}

/// Makes calls one after another, and adds up what they are answered. It tells whether some call was answered with a fault of
/// the disk.
fn tally_calls<D: Disk>(engine: &mut Engine<D>, calls: Vec<ScriptCall>) -> (Tally, bool)
    requires sound { Sound engine.old.base }
    requires fresh { engine.old.history ≡ [] }
    requires left { IsTrue (D.honest (disk_of engine.old)) → (a b : List ℕ) → D.leaves (disk_of engine.old) A a → D.leaves (disk_of engine.old) B b
        → IsStoreIn a b engine.old.base engine.old.start }
    requires room { vec_len calls ≤ engine.old.spare }
    requires readable { AreReadable calls.items }
    requires input { AreOfInput calls.items }
    ensures tallies { TalliesCalls engine.old.base calls.items engine.new.history result.0 }
    ensures failed { TellsFailure result.1 engine.old.base engine.new.history }
    ensures moves { MovesDisk D.moment D.might_have_left D.honest D.faults engine.old.base engine.old.start engine.new.history (disk_of engine.old) (disk_of engine.new) }
    ensures base { engine.new.base ≡ engine.old.base }
    ensures start { engine.new.start ≡ engine.old.start }
    ensures journal { engine.new.journal ≡ engine.old.journal }
{
    let mut tally = Tally::new();
    let mut failed = false;
    for call in calls {
        if tally_call(engine, call, &mut tally) {
            failed = true;
        }
    }
    (tally, failed)
}

/// Makes calls one after another, and then writes the summary of what they were answered. It answers whether some call was
/// answered with a fault of the disk.
pub(crate) fn sum_up_calls<W: Sink, D: Disk>(
    engine: &mut Engine<D>,
    alloc: Global,
    calls: Vec<ScriptCall>,
    sink: &mut W,
) -> Result<bool, RunFault>
    requires sound { Sound engine.old.base }
    requires fresh { engine.old.history ≡ [] }
    requires left { IsTrue (D.honest (disk_of engine.old)) → (a b : List ℕ) → D.leaves (disk_of engine.old) A a → D.leaves (disk_of engine.old) B b
        → IsStoreIn a b engine.old.base engine.old.start }
    requires room { vec_len calls ≤ engine.old.spare }
    requires readable { AreReadable calls.items }
    requires input { AreOfInput calls.items }
    ensures served { OnOk result (SumsUp engine.old.base calls.items engine.new.history (Appends (W.written sink.old) (W.written sink.new))) }
    ensures failed { IfOk result (λ failed. TellsFailure failed engine.old.base engine.new.history) }
    ensures broken { result ≡ Err RunFault.Write → SumsUp engine.old.base calls.items engine.new.history (ToldInPart (W.written sink.old) (W.written sink.new) []) }
    ensures refused { result ≡ Err RunFault.Memory → SumsUp engine.old.base calls.items engine.new.history (ToldBefore (W.written sink.old) (W.written sink.new) []) }
    ensures fault { result ≡ Err RunFault.Write → LastFault W.faults W.fails sink.old sink.new }
    ensures steady { result ≢ Err RunFault.Write → W.faults sink.new ≡ W.faults sink.old }
    ensures moves { MovesDisk D.moment D.might_have_left D.honest D.faults engine.old.base engine.old.start engine.new.history (disk_of engine.old) (disk_of engine.new) }
    ensures base { engine.new.base ≡ engine.old.base }
    ensures start { engine.new.start ≡ engine.old.start }
    ensures journal { engine.new.journal ≡ engine.old.journal }
{
    let (tally, failed) = tally_calls(engine, calls);
    let Ok(text) = tally.told(alloc) else {
        return Err(RunFault::Memory);
    };
    match write_all(sink, text.bytes()) {
        Ok(()) => Ok(failed),
        Err(_) => Err(RunFault::Write),
    }
}
