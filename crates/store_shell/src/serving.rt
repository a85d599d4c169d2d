ghost use Rattle.std.specs.Prelude.{◌≡◌, ◌≢◌, Some};
ghost use Rattle.store_shell.specs.Ended.{ended_status};

use crate::ending::{Ending, Fault, disk_failed, out_of_memory, usage};
use crate::words::manner_of;
use outer_world::{Disk, FileDisk, RamDisk, StdinSource, StdoutSink};
use shell_session::{Left, Manner, Notes, ShellFault, serve_shell};
use std::fs::{File, Files};
use std::io::ErrorKind;
use std::mem::drop;

/// Serves the words, the program's name first, over the system's streams. The store `-` is an empty disk in memory, and any
/// other is a folder.
pub(crate) fn serve_system<Rt: Input + Print + Files<File = File> + AllocGlobal, N: Notes>(
    rt: &Rt,
    words: &[String],
    prompts: bool,
    notes: &mut N,
) -> Ending
    ensures status { result.status ≡ ended_status result.fault }
{
    let [_, store, words @ ..] = words else {
        return usage();
    };
    let Some(manner) = manner_of(words, prompts) else {
        return usage();
    };
    if store.as_str() == "-" {
        return serve_in_memory(rt, manner, notes);
    }
    serve_in_folder(rt, store, manner, notes)
}

/// Serves an empty disk in memory.
fn serve_in_memory<Rt: Input + Print + AllocGlobal, N: Notes>(
    rt: &Rt,
    manner: Manner,
    notes: &mut N,
) -> Ending
    ensures status { result.status ≡ ended_status result.fault }
{
    serve(rt, RamDisk::new(rt.alloc()), manner, notes)
}

/// Serves the files of a folder. Where they can't be opened that is told as a fault of the disk.
fn serve_in_folder<Rt: Input + Print + Files<File = File> + AllocGlobal, N: Notes>(
    rt: &Rt,
    folder: &str,
    manner: Manner,
    notes: &mut N,
) -> Ending
    ensures status { result.status ≡ ended_status result.fault }
{
    match FileDisk::open(rt, folder) {
        Ok(disk) => serve(rt, disk, manner, notes),
        Err(error) => without_files(error.kind()),
    }
}

/// How the program ends where the files of a folder could not be opened, for a cause of this kind.
fn without_files(kind: ErrorKind) -> Ending
    ensures status { result.status ≡ ended_status result.fault }
    ensures memory { kind ≡ ErrorKind.OutOfMemory → result.fault ≡ Some (Fault.Shell ShellFault.Memory) }
    ensures disk { kind ≢ ErrorKind.OutOfMemory → result.fault ≡ Some (Fault.Shell ShellFault.Disk) }
{
    match kind {
        ErrorKind::OutOfMemory => out_of_memory(),
        _ => disk_failed(),
    }
}

/// Serves a disk over the system's streams.
fn serve<Rt: Input + Print + AllocGlobal, D: Disk + Drop, N: Notes>(
    rt: &Rt,
    disk: D,
    manner: Manner,
    notes: &mut N,
) -> Ending
    ensures status { result.status ≡ ended_status result.fault }
{
    let mut source = StdinSource::new(rt);
    let mut sink = StdoutSink::new(rt);
    let Left {
        status,
        fault,
        disk,
    } = serve_shell(rt.alloc(), &mut source, &mut sink, notes, disk, manner);
    drop(disk);
    match fault {
        Some(fault) => Ending {
            status,
            fault: Some(Fault::Shell(fault)),
        },
        None => Ending {
            status,
            fault: None,
        },
    }
}
