ghost use Rattle.std.specs.Prelude.{◌≡◌, ◌≢◌, [], ◌∷◌, ◌++◌, Err, OnErr, OnOk};
ghost use Rattle.std.specs.Io.KnownBytes.{Appends};
ghost use Rattle.outer_world.specs.FaultCount.{CountRose};
ghost use Rattle.outer_world.specs.LastCall.{EndsInFault};
ghost use Rattle.outer_world.specs.PartOfBytes.{AppendsPart};
ghost use Rattle.session_run.specs.Gathered.{Gathers, GathersLines};
ghost use Rattle.session_run.specs.Written.{WritesLines, lines_by_session, lines_in};

use crate::replies::{SessionReplies, Told};
use arrayvec::ArrayVec;
use outer_world::{Failed, Sink, write_all};
use own_base::List;

/// How many bytes are gathered before they are written.
const PIECE: usize = 32768;

/// Why calls were not all served, or not all told.
#[derive(Clone, Copy, Debug, PartialEq, Eq)]
pub enum RunFault {
    /// The sink met a fault.
    Write,
    /// Memory for what is written was refused.
    Memory,
}

/// Writes the bytes that are pending. Then none are.
fn flush<W: Sink>(pending: &mut ArrayVec<u8, PIECE>, sink: &mut W) -> Result<(), Failed>
    ensures written { OnOk result (Appends (W.written sink.old) (W.written sink.new) pending.old.items) }
    ensures emptied { OnOk result (pending.new.items ≡ []) }
    ensures part { OnErr result (AppendsPart (W.written sink.old) (W.written sink.new) pending.old.items) }
    ensures fault { OnErr result (CountRose (W.faults sink.old) (W.faults sink.new)) }
    ensures last { OnErr result (EndsInFault W.faults W.fails sink.old sink.new) }
    ensures steady { OnOk result (W.faults sink.new ≡ W.faults sink.old) }
{
    write_all(sink, pending.as_slice())?;
    pending.clear();
    Ok(())
}

/// Adds bytes to those that are pending. Where they don't fit, those before them are written first; and bytes that are longer
/// than a piece are then written by themselves.
fn gather<W: Sink>(
    bytes: &[u8],
    pending: &mut ArrayVec<u8, PIECE>,
    sink: &mut W,
) -> Result<(), Failed>
    ensures gathered { OnOk result (Gathers (W.written sink.old) (W.written sink.new) pending.old.items pending.new.items bytes.now) }
    ensures part { OnErr result (AppendsPart (W.written sink.old) (W.written sink.new) (pending.old.items ++ bytes.now)) }
    ensures fault { OnErr result (CountRose (W.faults sink.old) (W.faults sink.new)) }
    ensures last { OnErr result (EndsInFault W.faults W.fails sink.old sink.new) }
    ensures steady { OnOk result (W.faults sink.new ≡ W.faults sink.old) }
{
    if pending.try_extend_from_slice(bytes).is_ok() {
        return Ok(());
    }
    flush(pending, sink)?;
    if pending.try_extend_from_slice(bytes).is_ok() {
        return Ok(());
    }
    write_all(sink, bytes)
}

/// Gathers the lines of a call.
fn gather_call<W: Sink>(
    told: &Told,
    pending: &mut ArrayVec<u8, PIECE>,
    sink: &mut W,
) -> Result<(), RunFault>
    ensures gathered { GathersLines (W.written sink.old) (W.written sink.new) pending.old.items pending.new.items (told.now.lines ∷ []) result }
    ensures fault { result ≡ Err RunFault.Write → CountRose (W.faults sink.old) (W.faults sink.new) }
    ensures last { result ≡ Err RunFault.Write → EndsInFault W.faults W.fails sink.old sink.new }
    ensures steady { result ≢ Err RunFault.Write → W.faults sink.new ≡ W.faults sink.old }
{
    match &told.lines {
        Some(text) => match gather(text.bytes(), pending, sink) {
            Ok(()) => Ok(()),
            Err(_) => Err(RunFault::Write),
        },
        None => Err(RunFault::Memory),
    }
}

/// Gathers the lines of the calls of a session.
fn gather_session<W: Sink>(
    replies: &SessionReplies,
    pending: &mut ArrayVec<u8, PIECE>,
    sink: &mut W,
) -> Result<(), RunFault>
    ensures gathered { GathersLines (W.written sink.old) (W.written sink.new) pending.old.items pending.new.items (lines_in replies.now) result }
    ensures fault { result ≡ Err RunFault.Write → CountRose (W.faults sink.old) (W.faults sink.new) }
    ensures last { result ≡ Err RunFault.Write → EndsInFault W.faults W.fails sink.old sink.new }
    ensures steady { result ≢ Err RunFault.Write → W.faults sink.new ≡ W.faults sink.old }
{
    for told in replies.replies.items() {
        gather_call(told, pending, sink)?;
    }
    Ok(())
}

/// Gathers the lines of the calls of sessions, session by session and call by call.
fn gather_sessions<W: Sink>(
    replies: &List<SessionReplies>,
    pending: &mut ArrayVec<u8, PIECE>,
    sink: &mut W,
) -> Result<(), RunFault>
    ensures gathered { GathersLines (W.written sink.old) (W.written sink.new) pending.old.items pending.new.items (lines_by_session replies.now) result }
    ensures fault { result ≡ Err RunFault.Write → CountRose (W.faults sink.old) (W.faults sink.new) }
    ensures last { result ≡ Err RunFault.Write → EndsInFault W.faults W.fails sink.old sink.new }
    ensures steady { result ≢ Err RunFault.Write → W.faults sink.new ≡ W.faults sink.old }
{
    for own in replies.items() {
        gather_session(own, pending, sink)?;
    }
    Ok(())
}

/// Writes the lines of the calls of sessions, session by session and call by call, in pieces of at most `PIECE` bytes where no
/// call's lines are longer. It ends at the first fault of the sink, and at the first call whose lines are missing.
pub fn print_sessions<W: Sink>(replies: &List<SessionReplies>, sink: &mut W) -> Result<(), RunFault>
    ensures written { WritesLines (W.written sink.old) (W.written sink.new) (lines_by_session replies.now) result }
    ensures fault { result ≡ Err RunFault.Write → CountRose (W.faults sink.old) (W.faults sink.new) }
    ensures last { result ≡ Err RunFault.Write → EndsInFault W.faults W.fails sink.old sink.new }
    ensures steady { result ≢ Err RunFault.Write → W.faults sink.new ≡ W.faults sink.old }
{
    let mut pending = ArrayVec::new();
    match gather_sessions(replies, &mut pending, sink) {
        Err(RunFault::Write) => Err(RunFault::Write),
        gathered => match flush(&mut pending, sink) {
            Ok(()) => gathered,
            Err(_) => Err(RunFault::Write),
        },
    }
}
