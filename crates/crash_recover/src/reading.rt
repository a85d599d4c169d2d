ghost use Rattle.std.specs.Prelude.{◌≡◌, ◌≢◌, ◌≤◌, length, Err, IsTrue, IfOk, OnOk, OnErr};
ghost use Rattle.commit_journal.specs.AreaCalls.{AreSynced};
ghost use Rattle.crash_recover.specs.Undisturbed.{IsUndisturbed};
ghost use Rattle.crash_recover.specs.declared.reading.ReadFault.TheVariants as fault;
ghost use Rattle.outer_world.specs.FaultCount.{CountRose};

use outer_world::{Disk, Failed};
use own_base::Area;
use std::alloc::{AllocError, Global};

/// Why an area was not read.
#[derive(Clone, Copy, Debug, PartialEq, Eq)]
pub(crate) enum ReadFault {
    /// The disk met a fault.
    Failed,
    /// Memory was refused.
    Memory,
}

impl From<Failed> for ReadFault {
    ghost from_gives = { λ _ given. given ≡ fault.Failed };

    fn from(_failed: Failed) -> ReadFault {
        ReadFault::Failed
    }
}

impl From<AllocError> for ReadFault {
    ghost from_gives = { λ _ given. given ≡ fault.Memory };

    fn from(_refused: AllocError) -> ReadFault {
        ReadFault::Memory
    }
}

/// Makes both areas durable.
pub(crate) fn sync_both<D: Disk>(disk: &mut D) -> Result<(), Failed>
    ensures synced { OnOk result (IsTrue (D.honest disk.old) → AreSynced D.holds D.leaves disk.new) }
    ensures kept { IsTrue (D.honest disk.old)
        → IsUndisturbed D.holds D.leaves D.moment D.might_have_left disk.old disk.new }
    ensures honesty { D.honest disk.new ≡ D.honest disk.old }
    ensures time { D.moment disk.old ≤ D.moment disk.new }

    ensures fault { OnErr result (CountRose (D.faults disk.old) (D.faults disk.new)) }
    ensures steady { OnOk result (D.faults disk.new ≡ D.faults disk.old) }
    ensures counted { D.faults disk.old ≤ D.faults disk.new }
{
    disk.sync(Area::A)?;
    disk.sync(Area::B)
}

/// All bytes of an area. Over a disk that isn't honest they are of the length that it tells, whatever it gives.
pub(crate) fn read_area<D: Disk>(
    alloc: Global,
    disk: &mut D,
    area: Area,
) -> Result<Vec<u8>, ReadFault>
    ensures read { IfOk result (λ bytes. IsTrue (D.honest disk.old) → bytes.items ≡ D.holds disk.old area) }
    ensures kept { IsTrue (D.honest disk.old)
        → IsUndisturbed D.holds D.leaves D.moment D.might_have_left disk.old disk.new }
    ensures honesty { D.honest disk.new ≡ D.honest disk.old }
    ensures time { D.moment disk.old ≤ D.moment disk.new }

    ensures fault { result ≡ Err fault.Failed → CountRose (D.faults disk.old) (D.faults disk.new) }
    ensures steady { result ≢ Err fault.Failed → D.faults disk.new ≡ D.faults disk.old }
    ensures counted { D.faults disk.old ≤ D.faults disk.new }
{
    let len = disk.len(area)?;
    let mut bytes = vec![in alloc; 0; len as usize]?;
    fill(disk, area, &mut bytes)?;
    Ok(bytes)
}

/// Puts the bytes of an area in place of as many. It ends where the disk gives none, as an honest one doesn't before the
/// end.
fn fill<D: Disk>(disk: &mut D, area: Area, bytes: &mut [u8]) -> Result<(), Failed>
    requires all { IsTrue (D.honest disk.old) → length bytes.old ≡ length (D.holds disk.old area) }

    ensures filled { OnOk result (IsTrue (D.honest disk.old) → bytes.new ≡ D.holds disk.old area) }
    ensures kept { IsTrue (D.honest disk.old)
        → IsUndisturbed D.holds D.leaves D.moment D.might_have_left disk.old disk.new }
    ensures honesty { D.honest disk.new ≡ D.honest disk.old }
    ensures time { D.moment disk.old ≤ D.moment disk.new }

    ensures fault { OnErr result (CountRose (D.faults disk.old) (D.faults disk.new)) }
    ensures steady { OnOk result (D.faults disk.new ≡ D.faults disk.old) }
    ensures counted { D.faults disk.old ≤ D.faults disk.new }
{
    let mut filled = 0;
    while filled < bytes.len() {
        let count = disk.read_at(area, filled as u64, &mut bytes[filled..])?;
        if count == 0 {
            return Ok(());
        }
        filled += count;
    }
    Ok(())
}
