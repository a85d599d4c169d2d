ghost use Rattle.std.specs.Prelude.{◌≡◌, ◌≢◌, ◌<◌, ◌⊎◌, ℕ, false, true, IsTrue, IfOk, Err, Some, None, OnOk, length};
ghost use Rattle.outer_world.specs.FaultCount.{CountRose};
ghost use Rattle.call_stream.specs.Taken.{IsRead, IsSound};
ghost use Rattle.own_base.specs.declared.number.Area.{Area};
ghost use Rattle.engine_core.specs.Seen.{disk_of};
ghost use Rattle.shell_session.specs.DiskView.{view_of};
ghost use Rattle.shell_session.specs.Kept.{Keeps};
ghost use Rattle.shell_session.specs.OnDisk.{IsCalm, IsClosedOver};
ghost use Rattle.shell_session.specs.Opening.{Opening, opening_of};
ghost use Rattle.shell_session.specs.Served.{HasLived, IsOfServing, IsUnserved, Lives, ServesEnd, ServesPiece, fault_of};
ghost use Rattle.shell_session.specs.Status.{status_of};

use crate::ending::{Left, ShellFault, ended, stopped, unopened};
use crate::manner::Manner;
use crate::marking::{greet, prompt};
use crate::notes::Notes;
use crate::opening::{Opened, disk_left, open, renewed};
use crate::serving::{serve_closed, serve_end};
use call_stream::laws::{calls_are_given, given_calls_stay};
use call_stream::{CallStream, StreamFault};
use outer_world::{Disk, Failed, Sink, Source};
use std::alloc::{AllocError, Global};
use std::mem::drop;

/// The most bytes that one read asks for.
const PIECE: usize = 65_536;

/// Room for what one read gives.
fn new_piece(alloc: Global) -> Result<Vec<u8>, AllocError>
    ensures { IfOk result (λ piece. 0 < length piece.items) }
{
    let mut piece = Vec::new(alloc);
    piece.resize(PIECE, 0)?;
    Ok(piece)
}

/// Reads the next bytes, and serves the calls that they close. It answers whether there may be more.
fn serve_piece<R: Source, W: Sink, N: Notes, D: Disk>(
    piece: &mut [u8],
    stream: &mut CallStream,
    opened: &mut Opened<D>,
    alloc: Global,
    manner: Manner,
    source: &mut R,
    sink: &mut W,
    notes: &mut N,
) -> Result<bool, ShellFault>
    requires sound { IsSound stream.old }
    requires room { 0 < length piece.old }
    requires keeps { Keeps opened.old.book (opening_of opened.old.engine) }
    ensures serves { ServesPiece (view_of D.leaves D.moment D.might_have_left D.honest D.faults) manner.form (opening_of opened.old.engine) (opening_of opened.new.engine) stream.old stream.new result
        (R.remaining source.old) (R.remaining source.new) (W.written sink.old) (W.written sink.new) }
    ensures keeps { Keeps opened.new.book (opening_of opened.new.engine) }
    ensures own { IsOfServing (fault_of result) }
    ensures room { length piece.new ≡ length piece.old }
    ensures sound { IsSound stream.new }
    ensures read { IsRead stream.old → OnOk result (IsRead stream.new) }
    ensures fault { result ≡ Err ShellFault.Write → CountRose (W.faults sink.old) (W.faults sink.new) }
    ensures steady { result ≢ Err ShellFault.Write → W.faults sink.new ≡ W.faults sink.old }
    ensures read_fault { result ≡ Err ShellFault.Read → CountRose (R.faults source.old) (R.faults source.new) }
    ensures read_steady { result ≢ Err ShellFault.Read → R.faults source.new ≡ R.faults source.old }
    ensures refused { result ≡ Err ShellFault.Refused → IsTrue manner.stops }
{
    if manner.prompts {
        prompt(notes, stream.is_open());
    }
    let count = match source.read(piece) {
        Ok(count) => count,
        Err(Failed) => return Err(ShellFault::Read),
    };
    if count == 0 {
        return Ok(false);
    }
    match stream.push(&piece[..count]) {
        Ok(()) => {}
        Err(fault) => return Err(stopped(fault)),
    }
    let served = serve_closed(
        stream,
        &mut opened.engine,
        &mut opened.book,
        alloc,
        manner,
        sink,
        notes,
    );
    match served {
        Ok(()) => Ok(true),
        Err(fault) => Err(fault),
    }
}

/// The end of a shell over a store that is open.
fn closed<D: Disk>(opened: Opened<D>, fault: Option<ShellFault>) -> Left<D>
    requires { IsOfServing fault }
    ensures status { result.status ≡ status_of result.fault }
    ensures same { (result.fault ≡ fault) ⊎ ((result.fault ≡ Some ShellFault.Disk) × ((fault ≡ None) ⊎ (fault ≡ Some ShellFault.Refused))) }
    ensures failed { result.fault ≡ Some ShellFault.Disk → opened.book.failed ≡ true }
    ensures calm { IsCalm result.fault → opened.book.failed ≡ false }
    ensures undamaged { (area : Area) (offset : ℕ) → result.fault ≢ Some (ShellFault.Damaged area offset) }
    ensures disk { result.disk ≡ disk_of opened.engine }
{
    let Opened { engine, book } = opened;
    let fault = match fault {
        None | Some(ShellFault::Refused) if book.failed => Some(ShellFault::Disk),
        fault => fault,
    };
    drop(book);
    ended(fault, disk_left(engine))
}

/// Serves what the end of the input leaves, and ends the shell.
fn finished<W: Sink, N: Notes, D: Disk>(
    stream: CallStream,
    opened: Opened<D>,
    alloc: Global,
    manner: Manner,
    sink: &mut W,
    notes: &mut N,
) -> Left<D>
    requires sound { IsSound stream }
    requires read { IsRead stream }
    requires keeps { Keeps opened.book (opening_of opened.engine) }
    ensures serves { (last : Opening D) × ServesEnd (view_of D.leaves D.moment D.might_have_left D.honest D.faults) manner.form (opening_of opened.engine) last stream result.fault (W.written sink.old) (W.written sink.new)
        × IsClosedOver last result.fault result.disk }
    ensures status { result.status ≡ status_of result.fault }
    ensures unread { result.fault ≢ Some ShellFault.Read }
    ensures write_fault { result.fault ≡ Some ShellFault.Write → CountRose (W.faults sink.old) (W.faults sink.new) }
    ensures write_steady { result.fault ≢ Some ShellFault.Write → W.faults sink.new ≡ W.faults sink.old }
    ensures refused { result.fault ≡ Some ShellFault.Refused → IsTrue manner.stops }
{
    let mut opened = opened;
    let fault = serve_end(
        stream,
        &mut opened.engine,
        &mut opened.book,
        alloc,
        manner,
        sink,
        notes,
    );
    match fault {
        Ok(()) => closed(opened, None),
        Err(fault) => closed(opened, Some(fault)),
    }
}

/// Serves an input over a store that is open, piece by piece.
fn serve_pieces<R: Source, W: Sink, N: Notes, D: Disk>(
    piece: &mut [u8],
    opened: Opened<D>,
    alloc: Global,
    manner: Manner,
    source: &mut R,
    sink: &mut W,
    notes: &mut N,
) -> Left<D>
    requires room { 0 < length piece.old }
    requires keeps { Keeps opened.book (opening_of opened.engine) }
    ensures lives { Lives (view_of D.leaves D.moment D.might_have_left D.honest D.faults) manner.form (opening_of opened.engine) result.fault result.disk (R.remaining source.old) (R.remaining source.new) (W.written sink.old) (W.written sink.new) }
    ensures status { result.status ≡ status_of result.fault }
    ensures read_fault { result.fault ≡ Some ShellFault.Read → CountRose (R.faults source.old) (R.faults source.new) }
    ensures read_steady { result.fault ≢ Some ShellFault.Read → R.faults source.new ≡ R.faults source.old }
    ensures write_fault { result.fault ≡ Some ShellFault.Write → CountRose (W.faults sink.old) (W.faults sink.new) }
    ensures write_steady { result.fault ≢ Some ShellFault.Write → W.faults sink.new ≡ W.faults sink.old }
    ensures refused { result.fault ≡ Some ShellFault.Refused → IsTrue manner.stops }
{
    calls_are_given();
    given_calls_stay();
    let mut opened = opened;
    let mut stream = CallStream::new(alloc);
    for _ in 0..u64::MAX {
        match serve_piece(
            piece,
            &mut stream,
            &mut opened,
            alloc,
            manner,
            source,
            sink,
            notes,
        ) {
            Ok(true) => {}
            Ok(false) => return finished(stream, opened, alloc, manner, sink, notes),
            Err(fault) => return closed(opened, Some(fault)),
        }
        opened = match renewed(alloc, opened) {
            Ok(opened) => opened,
            Err((fault, disk)) => return ended(Some(unopened(fault)), disk),
        };
    }
    closed(opened, Some(ShellFault::Input(StreamFault::TooLong)))
}

/// Serves an input of calls over the store of a disk, as it comes: opens the store, and makes each call as soon as its text is
/// closed, and writes its reply before the next byte is waited for.
pub fn serve_shell<R: Source, W: Sink, N: Notes, D: Disk>(
    alloc: Global,
    source: &mut R,
    sink: &mut W,
    notes: &mut N,
    disk: D,
    manner: Manner,
) -> Left<D>
    // What it read, made and wrote: each call of the input once, in its order, as far as it was served; or no store was opened.
    ensures served { HasLived D.holds (view_of D.leaves D.moment D.might_have_left D.honest D.faults) manner.form result.fault disk result.disk
        (R.remaining source.old) (R.remaining source.new) (W.written sink.old) (W.written sink.new)
        ⊎ IsUnserved D.holds (view_of D.leaves D.moment D.might_have_left D.honest D.faults) result.fault disk result.disk source.old source.new sink.old sink.new }
    ensures status { result.status ≡ status_of result.fault }

    // A fault of the source or the sink comes only where its count of faults rose, and a refusal ends it only where that was asked.
    ensures read_fault { result.fault ≡ Some ShellFault.Read → CountRose (R.faults source.old) (R.faults source.new) }
    ensures read_steady { result.fault ≢ Some ShellFault.Read → R.faults source.new ≡ R.faults source.old }
    ensures write_fault { result.fault ≡ Some ShellFault.Write → CountRose (W.faults sink.old) (W.faults sink.new) }
    ensures write_steady { result.fault ≢ Some ShellFault.Write → W.faults sink.new ≡ W.faults sink.old }
    ensures refused { result.fault ≡ Some ShellFault.Refused → IsTrue manner.stops }
{
    let Ok(mut piece) = new_piece(alloc) else {
        return ended(Some(ShellFault::Memory), disk);
    };
    match open(alloc, disk) {
        Ok(opened) => {
            if manner.prompts {
                greet(notes);
            }
            serve_pieces(&mut piece, opened, alloc, manner, source, sink, notes)
        }
        Err((fault, disk)) => ended(Some(unopened(fault)), disk),
    }
}
