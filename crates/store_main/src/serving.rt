ghost use Rattle.std.specs.Prelude.{◌≡◌, ◌≢◌, ◌⊎◌, ℕ, Some, None, false, true, map, string_bytes};
ghost use Rattle.own_base.specs.declared.number.Area.{Area};
ghost use Rattle.history_model.specs.History.{History};
ghost use Rattle.store_top.specs.RanAs.{IsWholeAs};
ghost use Rattle.store_top.specs.Status.{status_of};
ghost use Rattle.store_words.specs.Words.{mode_of};
ghost use Rattle.store_main.specs.Ended.{IsOfWords, IsWithoutFiles, RanOver};
ghost use Rattle.store_main.specs.Words.{is_in_memory, is_served, served_mode};

use crate::ending::{Ending, disk_failed, out_of_memory, usage};
use outer_world::{FileDisk, NowGate, Sink, Source, StdinSource, StdoutSink, UnreadDisk};
use std::alloc::Global;
use std::fs::{File, Files};
use std::io::ErrorKind;
use std::mem::{drop, forget};
use std::sync::Wait;
use std::thread::Threads;
use store_top::{Served, TopFault, run};

/// Serves the words, the program's name first, over the system's streams.
///
/// The system tells nothing of its bytes, so the clauses say which status comes, and nothing of what was written.
pub(crate) fn serve_system<
    Rt: Input + Print + Files<File = File> + AllocGlobal + Threads + Wait + Sync,
>(rt: &Rt, words: &[String]) -> Ending
    ensures status { result.status ≡ status_of result.fault }
    ensures usage { result.fault ≡ Some TopFault.Usage → is_served (map string_bytes words.now) ≡ false }
    ensures unserved { is_served (map string_bytes words.now) ≡ false
        → IsOfWords result.fault ⊎ ((is_in_memory (map string_bytes words.now) ≡ false) × (result.fault ≡ Some TopFault.Disk)) }

    // Without a fault all the calls were made: in a mode that reads an input those of what some reader of the system gave, which was
    // read to its end.
    ensures whole { result.fault ≡ None
        → (opened : _) × (history : History) × (before : Rt.Reader) × (after : Rt.Reader)
        × IsWholeAs (Rt.Reader.remaining before) (Rt.Reader.remaining after) None None opened history (served_mode (map string_bytes words.now)) }
{
    let mut source = StdinSource::new(rt);
    let mut sink = StdoutSink::new(rt);
    serve(rt, words, &mut source, &mut sink)
}

/// Serves the words, the program's name first, over a source and a sink. The store `-` is an empty disk in memory, and any
/// other is a folder, whose files are opened before the other words are read.
///
/// The end is that of the run over that store: without a fault the run read its whole input, made all the calls and
/// wrote all their text, so that no end with status 0 comes without a run.
fn serve<Rt: Files<File = File> + AllocGlobal + Threads + Wait + Sync, R: Source, W: Sink>(
    rt: &Rt,
    words: &[String],
    source: &mut R,
    sink: &mut W,
) -> Ending
    ensures status { result.status ≡ status_of result.fault }

    // Words that aren't served are usage, unless memory was refused, or a folder's files could not be opened.
    // Nothing is read or written then.
    ensures usage { result.fault ≡ Some TopFault.Usage → is_served (map string_bytes words.now) ≡ false }
    ensures unserved { is_served (map string_bytes words.now) ≡ false
        → IsOfWords result.fault ⊎ ((is_in_memory (map string_bytes words.now) ≡ false) × (result.fault ≡ Some TopFault.Disk)) }
    ensures untouched { is_served (map string_bytes words.now) ≡ false → (source.new ≡ source.old) × (sink.new ≡ sink.old) }

    // What was read, made and written, by the fault.
    ensures ran { RanOver R.remaining R.faults R.fails W.written W.faults W.fails (is_in_memory (map string_bytes words.now)) (served_mode (map string_bytes words.now)) source.old source.new sink.old sink.new result.fault
        ⊎ ((is_in_memory (map string_bytes words.now) ≡ false) × IsWithoutFiles source.old source.new sink.old sink.new result.fault) }
{
    let [_, store, words @ ..] = words else {
        return usage();
    };
    if store.as_str() == "-" {
        return serve_in_memory(rt, words, source, sink);
    }
    serve_in_folder(rt, store, words, source, sink)
}

/// Serves the words of a mode over an empty disk in memory.
fn serve_in_memory<Rt: AllocGlobal + Threads + Wait + Sync, R: Source, W: Sink>(
    rt: &Rt,
    words: &[String],
    source: &mut R,
    sink: &mut W,
) -> Ending
    ensures status { result.status ≡ status_of result.fault }
    ensures usage { result.fault ≡ Some TopFault.Usage → mode_of (map string_bytes words.now) ≡ None }
    ensures unserved { mode_of (map string_bytes words.now) ≡ None → IsOfWords result.fault }
    ensures untouched { mode_of (map string_bytes words.now) ≡ None → (source.new ≡ source.old) × (sink.new ≡ sink.old) }
    ensures ran { RanOver R.remaining R.faults R.fails W.written W.faults W.fails true (mode_of (map string_bytes words.now)) source.old source.new sink.old sink.new result.fault }

    // It isn't damaged.
    ensures undamaged { (area : Area) (offset : ℕ) → result.fault ≢ Some (TopFault.Damaged area offset) }
{
    let disk = UnreadDisk::new();
    ended(run(rt, rt.alloc(), words, source, sink, disk, &NowGate))
}

/// Serves the words of a mode over the files of a folder. Where they can't be opened that is told as a fault of the disk.
fn serve_in_folder<
    Rt: Files<File = File> + AllocGlobal + Threads + Wait + Sync,
    R: Source,
    W: Sink,
>(rt: &Rt, folder: &str, words: &[String], source: &mut R, sink: &mut W) -> Ending
    ensures status { result.status ≡ status_of result.fault }
    ensures usage { result.fault ≡ Some TopFault.Usage → mode_of (map string_bytes words.now) ≡ None }
    ensures unserved { mode_of (map string_bytes words.now) ≡ None → IsOfWords result.fault ⊎ (result.fault ≡ Some TopFault.Disk) }
    ensures untouched { mode_of (map string_bytes words.now) ≡ None → (source.new ≡ source.old) × (sink.new ≡ sink.old) }
    ensures ran { RanOver R.remaining R.faults R.fails W.written W.faults W.fails false (mode_of (map string_bytes words.now)) source.old source.new sink.old sink.new result.fault
        ⊎ IsWithoutFiles source.old source.new sink.old sink.new result.fault }
{
    match FileDisk::open(rt, folder) {
        Ok(disk) => ended(run(rt, rt.alloc(), words, source, sink, disk, &NowGate)),
        Err(error) => without_files(error.kind()),
    }
}

/// How the program ends where the files of a folder could not be opened, for a cause of this kind.
fn without_files(kind: ErrorKind) -> Ending
    ensures status { result.status ≡ status_of result.fault }
    ensures memory { kind ≡ ErrorKind.OutOfMemory → result.fault ≡ Some TopFault.Memory }
    ensures disk { kind ≢ ErrorKind.OutOfMemory → result.fault ≡ Some TopFault.Disk }
    ensures other { (result.fault ≡ Some TopFault.Memory) ⊎ (result.fault ≡ Some TopFault.Disk) }
{
    match kind {
        ErrorKind::OutOfMemory => out_of_memory(),
        _ => disk_failed(),
    }
}

/// How the program ends after a run. What is left of its calls isn't given up piece by piece, since the process ends: the system
/// takes its memory back as one.
fn ended<D: Drop>(served: Served<D>) -> Ending
    ensures { result ≡ record { status = served.status; fault = served.fault } }
{
    let Served {
        status,
        fault,
        opened,
        history,
        disk,
    } = served;
    forget(opened);
    forget(history);
    drop(disk);
    Ending { status, fault }
}
