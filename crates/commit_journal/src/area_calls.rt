ghost use Rattle.std.specs.Prelude.{◌≡◌, ◌+◌, ◌<◌, ◌≤◌, ◌^◌, ◌++◌, ◌↔◌, length, take, IsTrue, IfOk, OnOk, OnErr};
ghost use Rattle.commit_journal.specs.AreaCalls.{AreSynced, IsFront, IsMade, OnlyIn};
ghost use Rattle.disk_model.specs.Area.{IsOpened};
ghost use Rattle.outer_world.specs.FaultCount.{CountRose};
ghost use Rattle.outer_world.specs.LeavesOnly.{LeavesOnly};
ghost use Rattle.outer_world.specs.OtherArea.{other_of};
ghost use Rattle.outer_world.specs.Overwritten.{overwritten};
ghost use Rattle.outer_world.specs.Torn.{Torn};
ghost use Rattle.outer_world.specs.TornCut.{TornCut};

use outer_world::{Disk, Failed};
use own_base::Area;

/// The least bytes of an area that is opened: gate, epoch, length of the image, gate of the first record.
const OPENED_BYTES: u64 = 18;

/// The byte that opens a gate. Any other closes it.
pub(crate) const OPEN: u8 = 1;

/// Writes bytes at a place of an area, and makes them durable.
pub(crate) fn write_synced<D: Disk>(
    disk: &mut D,
    area: Area,
    at: u64,
    bytes: &[u8],
) -> Result<(), Failed>
    requires within { IsTrue (D.honest disk.old) → at ≤ length (D.holds disk.old area) }
    requires synced { IsTrue (D.honest disk.old) → AreSynced D.holds D.leaves disk.old }

    ensures made { OnOk result (IsTrue (D.honest disk.old)
        → IsMade D.holds D.leaves area (overwritten (D.holds disk.old area) at bytes.now) disk.old disk.new) }
    ensures moments { IsTrue (D.honest disk.old) → LeavesOnly D.moment D.might_have_left
        (OnlyIn area (Torn at (length bytes.now) (D.holds disk.old area)) (D.holds disk.old (other_of area)))
        disk.old disk.new }
    ensures honesty { D.honest disk.new ≡ D.honest disk.old }
    ensures time { D.moment disk.old ≤ D.moment disk.new }

    ensures fault { OnErr result (CountRose (D.faults disk.old) (D.faults disk.new)) }
    ensures steady { OnOk result (D.faults disk.new ≡ D.faults disk.old) }
    ensures counted { D.faults disk.old ≤ D.faults disk.new }
{
    disk.write_at(area, at, bytes)?;
    disk.sync(area)
}

/// Writes bytes behind the first byte of an area, and others behind those, and makes both durable.
pub(crate) fn write_behind_first<D: Disk>(
    disk: &mut D,
    area: Area,
    header: &[u8; 16],
    bytes: &[u8],
) -> Result<(), Failed>
    requires within { IsTrue (D.honest disk.old) → length (D.holds disk.old area) ≡ 1 }
    requires synced { IsTrue (D.honest disk.old) → AreSynced D.holds D.leaves disk.old }

    ensures made { OnOk result (IsTrue (D.honest disk.old)
        → IsMade D.holds D.leaves area (D.holds disk.old area ++ header.now ++ bytes.now) disk.old disk.new) }
    ensures moments { IsTrue (D.honest disk.old) → LeavesOnly D.moment D.might_have_left
        (OnlyIn area (IsFront 1 (D.holds disk.old area)) (D.holds disk.old (other_of area)))
        disk.old disk.new }
    ensures honesty { D.honest disk.new ≡ D.honest disk.old }
    ensures time { D.moment disk.old ≤ D.moment disk.new }

    ensures fault { OnErr result (CountRose (D.faults disk.old) (D.faults disk.new)) }
    ensures steady { OnOk result (D.faults disk.new ≡ D.faults disk.old) }
    ensures counted { D.faults disk.old ≤ D.faults disk.new }
{
    disk.write_at(area, 1, header)?;
    disk.write_at(area, 17, bytes)?;
    disk.sync(area)
}

/// Cuts an area to a length where it is longer, and makes that durable.
pub(crate) fn cut_synced<D: Disk>(disk: &mut D, area: Area, len: u64) -> Result<(), Failed>
    requires synced { IsTrue (D.honest disk.old) → AreSynced D.holds D.leaves disk.old }

    ensures made { OnOk result (IsTrue (D.honest disk.old)
        → IsMade D.holds D.leaves area (take len (D.holds disk.old area)) disk.old disk.new) }
    ensures moments { IsTrue (D.honest disk.old) → LeavesOnly D.moment D.might_have_left
        (OnlyIn area (TornCut len (D.holds disk.old area)) (D.holds disk.old (other_of area)))
        disk.old disk.new }
    ensures honesty { D.honest disk.new ≡ D.honest disk.old }
    ensures time { D.moment disk.old ≤ D.moment disk.new }

    ensures fault { OnErr result (CountRose (D.faults disk.old) (D.faults disk.new)) }
    ensures steady { OnOk result (D.faults disk.new ≡ D.faults disk.old) }
    ensures counted { D.faults disk.old ≤ D.faults disk.new }
{
    if disk.len(area)? > len {
        disk.cut(area, len)?;
    }
    disk.sync(area)
}

/// Whether an area is opened.
pub(crate) fn is_opened<D: Disk>(disk: &mut D, area: Area) -> Result<bool, Failed>
    requires synced { IsTrue (D.honest disk.old) → AreSynced D.holds D.leaves disk.old }

    ensures told { IfOk result (λ opened. IsTrue (D.honest disk.old)
        → IsTrue opened ↔ IsOpened (D.holds disk.old area)) }
    ensures made { OnOk result (IsTrue (D.honest disk.old)
        → IsMade D.holds D.leaves area (D.holds disk.old area) disk.old disk.new) }
    ensures moments { IsTrue (D.honest disk.old) → LeavesOnly D.moment D.might_have_left
        (OnlyIn area (◌≡◌ (D.holds disk.old area)) (D.holds disk.old (other_of area)))
        disk.old disk.new }
    ensures honesty { D.honest disk.new ≡ D.honest disk.old }
    ensures time { D.moment disk.old ≤ D.moment disk.new }

    ensures fault { OnErr result (CountRose (D.faults disk.old) (D.faults disk.new)) }
    ensures steady { OnOk result (D.faults disk.new ≡ D.faults disk.old) }
    ensures counted { D.faults disk.old ≤ D.faults disk.new }
{
    if disk.len(area)? < OPENED_BYTES {
        return Ok(false);
    }
    let mut gate = [0];
    let count = disk.read_at(area, 0, &mut gate)?;
    Ok(count == 1 && gate[0] == OPEN)
}
