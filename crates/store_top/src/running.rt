ghost use Rattle.std.specs.Prelude.{◌≡◌, ◌≢◌, ◌⊎◌, ◌≤◌, map, Some, None, string_bytes};
ghost use Rattle.made_model.specs.declared.limits.TheConstants.{PEOPLE, SEEDS};
ghost use Rattle.store_words.specs.Words.{mode_of};
ghost use Rattle.outer_world.specs.FaultCount.{CountRose};
ghost use Rattle.store_top.specs.Complete.{IsLawfulInput, IsServedOrRefused, IsWholeDisk};
ghost use Rattle.store_top.specs.OnDisk.{OnDisk, OnDiskBy, OnDiskTogether};
ghost use Rattle.store_top.specs.Ran.{Ran};
ghost use Rattle.store_top.specs.RanAs.{RanAs, ServedAs};
ghost use Rattle.store_top.specs.RanMade.{RanMade};
ghost use Rattle.store_top.specs.RanTogether.{RanTogether};
ghost use Rattle.store_top.specs.Status.{status_of};
ghost use Rattle.store_top.specs.Top.{IsUnserved, IsUsageOrMemory, ReadsInput, ReadsScript};

use crate::input::{read_calls, read_calls_in_parallel};
use crate::served::{Served, TopFault, status};
use crate::serving::{Ended, Telling, serve_script, without_calls};
use crate::together::serve_together;
use made_script::make_script;
use outer_world::{Disk, Gate, Sink, Source};
use std::alloc::{AllocError, Global};
use std::sync::Wait;
use std::thread::Threads;
use store_words::{Mode, mode_of};

/// Reads an input, and makes its calls one after another.
fn step_input<R: Source, W: Sink, D: Disk>(
    alloc: Global,
    source: &mut R,
    sink: &mut W,
    disk: D,
) -> Ended<D>
    ensures ran { Ran R.remaining R.faults R.fails W.written W.faults W.fails source.old source.new sink.old sink.new result.opened result.history result.fault }
    ensures lawful { result.fault ≢ Some TopFault.Usage }
    ensures order { (result.disk ≡ disk) ⊎ ReadsScript (R.remaining source.old) (R.remaining source.new) }
    ensures on_disk { OnDisk D.holds D.leaves D.moment D.might_have_left D.honest D.faults disk result.disk result.opened result.history result.fault }
{
    match read_calls(alloc, source) {
        Ok(calls) => serve_script(alloc, calls, Telling::Lines, sink, disk),
        Err(fault) => without_calls(alloc, fault, disk),
    }
}

/// Reads an input, its calls by a thread for each session, and serves the sessions side by side.
fn serve_input<Rt: Threads + Wait + Sync, R: Source, W: Sink, D: Disk + Send, G: Gate + Sync>(
    rt: &Rt,
    alloc: Global,
    source: &mut R,
    sink: &mut W,
    disk: D,
    gate: &G,
) -> Ended<D>
    ensures ran { RanTogether R.remaining R.faults R.fails W.written W.faults W.fails source.old source.new sink.old sink.new result.opened result.history result.fault }
    ensures lawful { result.fault ≢ Some TopFault.Usage }
    ensures order { (result.disk ≡ disk) ⊎ ReadsScript (R.remaining source.old) (R.remaining source.new) }
    ensures on_disk { OnDiskTogether D.holds D.leaves D.moment D.might_have_left D.honest D.faults disk result.disk result.opened result.history result.fault }
{
    match read_calls_in_parallel(rt, alloc, source) {
        Ok(calls) => serve_together(rt, alloc, calls, sink, disk, gate),
        Err(fault) => without_calls(alloc, fault, disk),
    }
}

/// The end of a run, with its status.
fn served<D>(ended: Ended<D>) -> Served<D>
    ensures status { result.status ≡ status_of ended.fault }
    ensures fault { result.fault ≡ ended.fault }
    ensures opened { result.opened ≡ ended.opened }
    ensures history { result.history ≡ ended.history }
    ensures disk { result.disk ≡ ended.disk }
{
    let Ended {
        fault,
        opened,
        history,
        disk,
    } = ended;
    Served {
        status: status(&fault),
        fault,
        opened,
        history,
        disk,
    }
}

/// What mode `step` does: it reads an input of calls from the source, opens the store of the disk, makes the calls one after
/// another over it, and writes each call's reply to the sink before the next call. It asks no gate and waits for nothing.
///
/// A source that tells nothing of its bytes, or a sink, has no clause on them; nor has a disk that isn't honest.
pub fn step<R: Source, W: Sink, D: Disk>(
    alloc: Global,
    source: &mut R,
    sink: &mut W,
    disk: D,
) -> Served<D>
    ensures status { result.status ≡ status_of result.fault }

    // What was read, made and written, by the fault.
    ensures ran { Ran R.remaining R.faults R.fails W.written W.faults W.fails source.old source.new sink.old sink.new result.opened result.history result.fault }
    ensures lawful { result.fault ≢ Some TopFault.Usage }

    // What became of the disk, which is touched only once the input was read to its end and has calls.
    ensures order { (result.disk ≡ disk) ⊎ ReadsScript (R.remaining source.old) (R.remaining source.new) }
    ensures on_disk { OnDisk D.holds D.leaves D.moment D.might_have_left D.honest D.faults disk result.disk result.opened result.history result.fault }

    // A run that no fault of the source, the sink or the disk disturbs, of a lawful input, over an honest disk on which nothing
    // is damaged, comes to its end, unless memory is refused. Then, by `on_disk`, no call was answered with a fault of the disk, and
    // each entry says that the disk took it, or that there was no room where there was none.
    ensures complete { (CountRose (R.faults source.old) (R.faults source.new) → ⊥) → (CountRose (W.faults sink.old) (W.faults sink.new) → ⊥)
        → (CountRose (D.faults disk) (D.faults result.disk) → ⊥) → IsLawfulInput (R.remaining source.old) (R.remaining source.new) → IsWholeDisk D.holds D.honest disk
        → IsServedOrRefused result.fault }
{
    served(step_input(alloc, source, sink, disk))
}

/// What mode `serve` does: it reads an input of calls from the source, by a thread for each session, opens the store of the disk,
/// and serves the sessions of the input side by side over it, by a worker for each: a worker makes the calls of its session in
/// their order, each under a turn that the workers take, and answers what reads alone beside the others. When all are done each
/// call's reply is written to the sink, session by session. Before each call the gate is asked, and it is told after.
///
/// That the run comes to its end isn't claimed: a worker waits until it has the turn. Where no thread can be made the sessions are
/// served one after another. A source that tells nothing of its bytes, or a sink, has no clause on them; nor has a disk that isn't
/// honest.
pub fn serve<Rt: Threads + Wait + Sync, R: Source, W: Sink, D: Disk + Send, G: Gate + Sync>(
    rt: &Rt,
    alloc: Global,
    source: &mut R,
    sink: &mut W,
    disk: D,
    gate: &G,
) -> Served<D>
    ensures status { result.status ≡ status_of result.fault }

    // What was read, made and written, by the fault.
    ensures ran { RanTogether R.remaining R.faults R.fails W.written W.faults W.fails source.old source.new sink.old sink.new result.opened result.history result.fault }
    ensures lawful { result.fault ≢ Some TopFault.Usage }

    // What became of the disk, which is touched only once the input was read to its end and has calls.
    ensures order { (result.disk ≡ disk) ⊎ ReadsScript (R.remaining source.old) (R.remaining source.new) }
    ensures on_disk { OnDiskTogether D.holds D.leaves D.moment D.might_have_left D.honest D.faults disk result.disk result.opened result.history result.fault }

    // A run that no fault of the source, the sink or the disk disturbs, of a lawful input, over an honest disk on which nothing
    // is damaged, comes to its end, unless memory is refused. Then, by `on_disk`, no call was answered with a fault of the disk, and
    // each entry says that the disk took it, or that there was no room where there was none.
    ensures complete { (CountRose (R.faults source.old) (R.faults source.new) → ⊥) → (CountRose (W.faults sink.old) (W.faults sink.new) → ⊥)
        → (CountRose (D.faults disk) (D.faults result.disk) → ⊥) → IsLawfulInput (R.remaining source.old) (R.remaining source.new) → IsWholeDisk D.holds D.honest disk
        → IsServedOrRefused result.fault }
{
    served(serve_input(rt, alloc, source, sink, disk, gate))
}

/// Makes the calls of a large script over the store of a disk, and sums them up.
fn make_large<W: Sink, D: Disk>(
    alloc: Global,
    people: u32,
    seed: u32,
    sink: &mut W,
    disk: D,
) -> Ended<D>
    requires people { (1 ≤ people) × (people ≤ PEOPLE) }
    requires seed { (1 ≤ seed) × (seed ≤ SEEDS) }
    ensures ran { RanMade W.written W.faults W.fails people seed sink.old sink.new result.opened result.history result.fault }
    ensures on_disk { OnDisk D.holds D.leaves D.moment D.might_have_left D.honest D.faults disk result.disk result.opened result.history result.fault }
{
    match make_script(alloc, people, seed) {
        Ok(script) => serve_script(alloc, script.calls.into_vec(), Telling::Summary, sink, disk),
        Err(AllocError) => without_calls(alloc, TopFault::Memory, disk),
    }
}

/// What mode `make` does: it opens the store of the disk, makes the calls of the large script of so many people and a seed one
/// after another over it, and then writes the summary of what they were answered to the sink. It reads nothing, asks no gate and
/// waits for nothing.
///
/// A sink that tells nothing of its bytes has no clause on them; nor has a disk that isn't honest.
pub fn make<W: Sink, D: Disk>(
    alloc: Global,
    people: u32,
    seed: u32,
    sink: &mut W,
    disk: D,
) -> Served<D>
    requires people { (1 ≤ people) × (people ≤ PEOPLE) }
    requires seed { (1 ≤ seed) × (seed ≤ SEEDS) }
    ensures status { result.status ≡ status_of result.fault }

    // What was made and written, by the fault.
    ensures ran { RanMade W.written W.faults W.fails people seed sink.old sink.new result.opened result.history result.fault }

    // What became of the disk.
    ensures on_disk { OnDisk D.holds D.leaves D.moment D.might_have_left D.honest D.faults disk result.disk result.opened result.history result.fault }

    // A run that no fault of the sink or the disk disturbs, over an honest disk on which nothing is damaged, comes to its end,
    // unless memory is refused. Then, by `on_disk`, no call was answered with a fault of the disk, and each entry says that the disk took
    // it, or that there was no room where there was none.
    ensures complete { (CountRose (W.faults sink.old) (W.faults sink.new) → ⊥) → (CountRose (D.faults disk) (D.faults result.disk) → ⊥) → IsWholeDisk D.holds D.honest disk
        → IsServedOrRefused result.fault }
{
    served(make_large(alloc, people, seed, sink, disk))
}

/// Runs the mode that the words after the store's name are: `step`, `serve` or `make`, which do what the functions of these names
/// do. The gate is asked by `serve` alone.
pub fn run<Rt: Threads + Wait + Sync, R: Source, W: Sink, D: Disk + Send, G: Gate + Sync>(
    rt: &Rt,
    alloc: Global,
    words: &[String],
    source: &mut R,
    sink: &mut W,
    disk: D,
    gate: &G,
) -> Served<D>
    ensures status { result.status ≡ status_of result.fault }

    // Usage comes where the words are no mode with its arguments, and nowhere else; only out of memory may be told in its
    // place. Then nothing is read.
    ensures usage { result.fault ≡ Some TopFault.Usage → mode_of (map string_bytes words.now) ≡ None }
    ensures unserved { mode_of (map string_bytes words.now) ≡ None → IsUsageOrMemory result.fault × (source.new ≡ source.old)
        × IsUnserved sink.old sink.new result.opened result.history × (result.disk ≡ disk) }

    // What was read, made and written, by the mode and the fault.
    ensures ran { RanAs R.remaining R.faults R.fails W.written W.faults W.fails source.old source.new sink.old sink.new result.opened result.history result.fault (mode_of (map string_bytes words.now)) }

    // In a mode that reads an input the disk is touched only once that was read to its end and has calls.
    ensures order { ReadsInput (mode_of (map string_bytes words.now)) → (result.disk ≡ disk) ⊎ ReadsScript (R.remaining source.old) (R.remaining source.new) }

    // What became of the disk.
    ensures on_disk { OnDiskBy D.holds D.leaves D.moment D.might_have_left D.honest D.faults disk result.disk result.opened result.history
        (ServedAs D.holds D.leaves D.moment D.might_have_left disk result.disk result.history (mode_of (map string_bytes words.now))) result.fault }

    // A run that no fault of the source, the sink or the disk disturbs, of a lawful input where its mode reads one, over an honest disk
    // on which nothing is damaged, comes to its end, unless memory is refused. Then, by `on_disk`, no call was answered with a fault of
    // the disk, and each entry says that the disk took it, or that there was no room where there was none.
    ensures complete { mode_of (map string_bytes words.now) ≢ None → (CountRose (R.faults source.old) (R.faults source.new) → ⊥) → (CountRose (W.faults sink.old) (W.faults sink.new) → ⊥)
        → (CountRose (D.faults disk) (D.faults result.disk) → ⊥) → (ReadsInput (mode_of (map string_bytes words.now)) → IsLawfulInput (R.remaining source.old) (R.remaining source.new))
        → IsWholeDisk D.holds D.honest disk → IsServedOrRefused result.fault }
{
    match mode_of(alloc, words) {
        Ok(Some(Mode::Step)) => step(alloc, source, sink, disk),
        Ok(Some(Mode::Serve)) => serve(rt, alloc, source, sink, disk, gate),
        Ok(Some(Mode::Make { people, seed })) => make(alloc, people, seed, sink, disk),
        Ok(None) => served(without_calls(alloc, TopFault::Usage, disk)),
        Err(AllocError) => served(without_calls(alloc, TopFault::Memory, disk)),
    }
}
