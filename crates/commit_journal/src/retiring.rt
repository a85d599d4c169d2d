ghost use Rattle.std.specs.Prelude.{◌≡◌, [], ◌∷◌, ◌≤◌, IsTrue, OnOk, OnErr};
ghost use Rattle.commit_journal.specs.AreaCalls.{AreSynced, IsMade, OnlyIn};
ghost use Rattle.commit_journal.specs.Retired.{IsRetiring};
ghost use Rattle.disk_model.specs.Area.{IsOpened};
ghost use Rattle.outer_world.specs.FaultCount.{CountRose};
ghost use Rattle.outer_world.specs.LeavesOnly.{LeavesOnly};
ghost use Rattle.outer_world.specs.OtherArea.{other_of};

use crate::area_calls::{cut_synced, is_opened, write_synced};
use outer_world::{Disk, Failed};
use own_base::Area;

/// Makes of an area one closed gate. A crash on the way leaves it as it was, of the same epoch, or not opened.
pub(crate) fn retire<D: Disk>(disk: &mut D, area: Area) -> Result<(), Failed>
    requires synced { IsTrue (D.honest disk.old) → AreSynced D.holds D.leaves disk.old }

    ensures made { OnOk result (IsTrue (D.honest disk.old)
        → IsMade D.holds D.leaves area (0 ∷ []) disk.old disk.new) }
    ensures moments { IsTrue (D.honest disk.old) → LeavesOnly D.moment D.might_have_left
        (OnlyIn area (IsRetiring (D.holds disk.old area)) (D.holds disk.old (other_of area)))
        disk.old disk.new }
    ensures honesty { D.honest disk.new ≡ D.honest disk.old }
    ensures time { D.moment disk.old ≤ D.moment disk.new }

    ensures fault { OnErr result (CountRose (D.faults disk.old) (D.faults disk.new)) }
    ensures steady { OnOk result (D.faults disk.new ≡ D.faults disk.old) }
    ensures counted { D.faults disk.old ≤ D.faults disk.new }
{
    if is_opened(disk, area)? {
        retire_opened(disk, area)
    } else {
        retire_shut(disk, area)
    }
}

/// Makes one closed gate of an area that is opened. Its gate is shut before the rest is cut.
pub(crate) fn retire_opened<D: Disk>(disk: &mut D, area: Area) -> Result<(), Failed>
    requires opened { IsTrue (D.honest disk.old) → IsOpened (D.holds disk.old area) }
    requires synced { IsTrue (D.honest disk.old) → AreSynced D.holds D.leaves disk.old }

    ensures made { OnOk result (IsTrue (D.honest disk.old)
        → IsMade D.holds D.leaves area (0 ∷ []) disk.old disk.new) }
    ensures moments { IsTrue (D.honest disk.old) → LeavesOnly D.moment D.might_have_left
        (OnlyIn area (IsRetiring (D.holds disk.old area)) (D.holds disk.old (other_of area)))
        disk.old disk.new }
    ensures honesty { D.honest disk.new ≡ D.honest disk.old }
    ensures time { D.moment disk.old ≤ D.moment disk.new }

    ensures fault { OnErr result (CountRose (D.faults disk.old) (D.faults disk.new)) }
    ensures steady { OnOk result (D.faults disk.new ≡ D.faults disk.old) }
    ensures counted { D.faults disk.old ≤ D.faults disk.new }
{
    write_synced(disk, area, 0, &[0])?;
    cut_synced(disk, area, 1)
}

/// Makes one closed gate of an area that isn't opened. It is cut before a gate is written, since a crash of that write
/// may leave any byte there, and so open a gate in front of what stands behind it.
pub(crate) fn retire_shut<D: Disk>(disk: &mut D, area: Area) -> Result<(), Failed>
    requires shut { IsTrue (D.honest disk.old) → ¬ IsOpened (D.holds disk.old area) }
    requires synced { IsTrue (D.honest disk.old) → AreSynced D.holds D.leaves disk.old }

    ensures made { OnOk result (IsTrue (D.honest disk.old)
        → IsMade D.holds D.leaves area (0 ∷ []) disk.old disk.new) }
    ensures moments { IsTrue (D.honest disk.old) → LeavesOnly D.moment D.might_have_left
        (OnlyIn area (IsRetiring (D.holds disk.old area)) (D.holds disk.old (other_of area)))
        disk.old disk.new }
    ensures honesty { D.honest disk.new ≡ D.honest disk.old }
    ensures time { D.moment disk.old ≤ D.moment disk.new }

    ensures fault { OnErr result (CountRose (D.faults disk.old) (D.faults disk.new)) }
    ensures steady { OnOk result (D.faults disk.new ≡ D.faults disk.old) }
    ensures counted { D.faults disk.old ≤ D.faults disk.new }
{
    cut_synced(disk, area, 1)?;
    write_synced(disk, area, 0, &[0])
}
