ghost use Rattle.std.specs.Prelude.{◌≡◌, ◌≢◌, ◌<◌, ◌≤◌, take, vec_len, Err, IfOk, OnOk, OnErr};
ghost use Rattle.std.specs.Io.KnownBytes.{Consumes, IsAtEnd};
ghost use Rattle.outer_world.specs.FaultCount.{CountRose};
ghost use Rattle.outer_world.specs.LastCall.{EndsInFault};
ghost use Rattle.outer_world.specs.PartOfBytes.{ConsumesFewer};

use crate::failed::Failed;
use crate::source::Source;
use std::alloc::{AllocError, Global};

/// Why `read_all` gave up.
#[derive(Clone, Copy, Debug, PartialEq, Eq, Hash)]
pub enum ReadAllFault {
    /// The source met a fault.
    Failed,
    /// Memory for the bytes was refused.
    Memory,
}

/// The most bytes that one call of the source is asked for.
const PIECE: usize = 1024 * 1024;

/// Reads to the end, or until `most` bytes were read. Fewer than `most` bytes in the answer tell that the end was
/// met; no call asks for more than are still wanted. After the first fault it makes no further call.
pub fn read_all<R: Source>(
    alloc: Global,
    source: &mut R,
    most: usize,
) -> Result<Vec<u8>, ReadAllFault>
    ensures within { IfOk result (λ bytes. vec_len bytes ≤ most) }
    ensures read { IfOk result (λ bytes.
        Consumes (R.remaining source.old) (R.remaining source.new) bytes.items) }
    ensures end { IfOk result (λ bytes. vec_len bytes < most → IsAtEnd (R.remaining source.new)) }

    // `Memory` comes only where memory was refused.
    ensures fault { result ≡ Err ReadAllFault.Failed
        → CountRose (R.faults source.old) (R.faults source.new) }
    ensures last { result ≡ Err ReadAllFault.Failed → EndsInFault R.faults R.fails source.old source.new }
    ensures steady { result ≢ Err ReadAllFault.Failed → R.faults source.new ≡ R.faults source.old }
    ensures part { OnErr result (ConsumesFewer (R.remaining source.old) (R.remaining source.new) most) }

    ensures counted { R.faults source.old ≤ R.faults source.new }
{
    let mut bytes = Vec::new(alloc);
    let mut filled = 0;
    while filled < most {
        make_room(&mut bytes, filled, most).map_err(|_| ReadAllFault::Memory)?;
        match source.read(&mut bytes[filled..]) {
            Ok(0) => break,
            Ok(count) => filled += count,
            Err(Failed) => return Err(ReadAllFault::Failed),
        }
    }
    bytes.truncate(filled);
    Ok(bytes)
}

/// Makes the vector longer than `filled` where it isn't yet, by a piece, and by no more than are still wanted.
fn make_room(bytes: &mut Vec<u8>, filled: usize, most: usize) -> Result<(), AllocError>
    requires room { filled < most }
    requires full { filled ≤ vec_len bytes.old }
    requires few { vec_len bytes.old ≤ most }
    ensures longer { OnOk result (filled < vec_len bytes.new) }
    ensures full { filled ≤ vec_len bytes.new }
    ensures few { vec_len bytes.new ≤ most }
    ensures kept { take filled bytes.new.items ≡ take filled bytes.old.items }
{
    if filled == bytes.len() {
        let piece = PIECE.min(most - filled);
        bytes.resize(filled + piece, 0)?;
    }
    Ok(())
}
