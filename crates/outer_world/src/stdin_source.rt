ghost use Rattle.std.specs.Prelude.{◌≡◌, ◌<◌, ◌≤◌, ◌^◌, length, take, IfSome, IfNone};
ghost use Rattle.std.specs.Io.KnownBytes.{Consumes, IsAtEnd, Keeps};

use crate::failed::Failed;
use crate::interruption::{INTERRUPTIONS, is_tried_again};
use crate::source::Source;
use std::io::Read;

/// Standard input. It tells of its bytes what the runtime's reader tells, and the system's tells nothing.
///
/// Each error of the reader makes the call answer `Failed`, and the count of faults rises by one. An interrupted read
/// is tried again, at most `INTERRUPTIONS` times in a row: an interruption that a later try makes good is no error,
/// and the one after those is an error like any other.
#[derive(Drop)]
pub struct StdinSource<R: Input> {
    reader: R::Reader,
    faults: u64,
    ghost in_range: { faults < 2 ^ 64 },
}

impl<R: Input> StdinSource<R> {
    /// The runtime's standard input, with no fault so far.
    pub fn new(rt: &R) -> StdinSource<R>
        ensures { ⟦<StdinSource<R> as Source>⟧.faults result ≡ 0 }
    {
        StdinSource {
            reader: rt.reader(),
            faults: 0,
        }
    }

    /// The count of faults. Takes no memory.
    pub fn faults(&self) -> u64
        ensures { result ≡ ⟦<StdinSource<R> as Source>⟧.faults self.now }
    {
        self.faults
    }
}

impl<R: Input> Source for StdinSource<R> {
    ghost faults = { λ source. source.faults };

    ghost remaining = { λ source. R.Reader.remaining source.reader };

    fn read(&mut self, into: &mut [u8]) -> Result<usize, Failed> {
        match read_unless_interrupted(&mut self.reader, into) {
            Some(count) => Ok(count),
            None => {
                self.faults = self.faults.saturating_add(1);
                Err(Failed)
            }
        }
    }
}

/// Reads, and reads again where a signal interrupted that, at most `INTERRUPTIONS` times. None tells of an error.
fn read_unless_interrupted<R: Read>(reader: &mut R, into: &mut [u8]) -> Option<usize>
    ensures within { IfSome result (λ count. count ≤ length into.new) }
    ensures given { IfSome result (λ count.
        Consumes (R.remaining reader.old) (R.remaining reader.new) (take count into.new)) }
    ensures end { IfSome result (λ count.
        count ≡ 0 → 0 < length into.new → IsAtEnd (R.remaining reader.new)) }
    ensures kept { IfNone result (Keeps (R.remaining reader.old) (R.remaining reader.new)) }
{
    for _ in 0..=INTERRUPTIONS {
        match reader.read(into) {
            Ok(count) => return Some(count),
            Err(error) if is_tried_again(error.kind()) => {}
            Err(_) => return None,
        }
    }
    None
}
