ghost use Rattle.std.specs.Prelude.{◌≡◌, ◌<◌, ◌≤◌, ◌^◌, length, take, IfSome, IfNone};
ghost use Rattle.std.specs.Io.KnownBytes.{Appends, Keeps};

use crate::failed::Failed;
use crate::interruption::{INTERRUPTIONS, is_tried_again};
use crate::sink::Sink;
use std::io;
use std::io::Write;

/// Standard output, without a buffer: what a call took was handed to the system. It tells nothing of its bytes.
///
/// Each error of the system makes the call answer `Failed`, and the count of faults rises by one; so does a write that
/// takes none of the bytes. An interrupted write is tried again, at most `INTERRUPTIONS` times in a row: an
/// interruption that a later try makes good is no error, and the one after those is an error like any other.
#[derive(Drop)]
pub struct StdoutSink<'a, R: Print> {
    rt: &'a R,
    faults: u64,
    ghost in_range: { faults < 2 ^ 64 },
}

impl<'a, R: Print> StdoutSink<'a, R> {
    /// The runtime's standard output, with no fault so far.
    pub fn new(rt: &'a R) -> StdoutSink<'a, R>
        ensures { ⟦<StdoutSink<'a, R> as Sink>⟧.faults result ≡ 0 }
    {
        StdoutSink { rt, faults: 0 }
    }

    /// The count of faults. Takes no memory.
    pub fn faults(&self) -> u64
        ensures { result ≡ ⟦<StdoutSink<'a, R> as Sink>⟧.faults self.now }
    {
        self.faults
    }
}

impl<R: Print> Sink for StdoutSink<'_, R> {
    ghost faults = { λ sink. sink.faults };

    fn write(&mut self, piece: &[u8]) -> Result<usize, Failed> {
        match write_unless_interrupted(&mut io::writer(self.rt), piece) {
            Some(count) if count > 0 || piece.is_empty() => Ok(count),
            _ => {
                self.faults = self.faults.saturating_add(1);
                Err(Failed)
            }
        }
    }
}

/// Writes, and writes again where a signal interrupted that, at most `INTERRUPTIONS` times. None tells of an error.
fn write_unless_interrupted<W: Write>(writer: &mut W, piece: &[u8]) -> Option<usize>
    ensures within { IfSome result (λ count. count ≤ length piece.now) }
    ensures taken { IfSome result (λ count.
        Appends (W.contents writer.old) (W.contents writer.new) (take count piece.now)) }
    ensures kept { IfNone result (Keeps (W.contents writer.old) (W.contents writer.new)) }
{
    for _ in 0..=INTERRUPTIONS {
        match writer.write(piece) {
            Ok(count) => return Some(count),
            Err(error) if is_tried_again(error.kind()) => {}
            Err(_) => return None,
        }
    }
    None
}
