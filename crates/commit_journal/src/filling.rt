ghost use Rattle.std.specs.Prelude.{◌≡◌, [], ◌∷◌, ◌++◌, ◌<◌, ◌≤◌, length, IsTrue, OnOk, OnErr};
ghost use Rattle.std.specs.Int.{bytes_high_first};
ghost use Rattle.commit_journal.specs.AreaCalls.{AreSynced, IsMade, OnlyIn};
ghost use Rattle.commit_journal.specs.Filled.{IsFilling, SaysLess};
ghost use Rattle.commit_journal.specs.JournalState.{RepresentEither};
ghost use Rattle.disk_model.specs.Area.{IsGated, Says, Stored, in_front, laid};
ghost use Rattle.outer_world.specs.FaultCount.{CountRose};
ghost use Rattle.outer_world.specs.LeavesOnly.{LeavesOnly};
ghost use Rattle.outer_world.specs.OtherArea.{other_of};

use crate::area_calls::{OPEN, write_behind_first, write_synced};
use crate::retiring::retire_opened;
use byteorder::{BigEndian, ByteOrder};
use outer_world::{Disk, Failed, other_area};
use own_base::Area;
use own_model::JOURNAL_ROOM;

/// Lays an image, and the closed gate behind it, into an area that is one closed gate, and opens it.
pub(crate) fn fill<D: Disk>(
    disk: &mut D,
    area: Area,
    epoch: u64,
    gated: &[u8],
) -> Result<(), Failed>
    requires gate { IsTrue (D.honest disk.old) → D.holds disk.old area ≡ 0 ∷ [] }
    requires synced { IsTrue (D.honest disk.old) → AreSynced D.holds D.leaves disk.old }
    requires gated { IsGated gated.now }
    requires room { length gated.now ≤ JOURNAL_ROOM }
    requires first { 1 ≤ epoch }
    requires last { epoch ≤ JOURNAL_ROOM }

    ensures made { OnOk result (IsTrue (D.honest disk.old)
        → IsMade D.holds D.leaves area (in_front (laid epoch gated.now) ++ 0 ∷ []) disk.old disk.new) }
    ensures moments { IsTrue (D.honest disk.old) → LeavesOnly D.moment D.might_have_left
        (OnlyIn area (IsFilling (laid epoch gated.now)) (D.holds disk.old (other_of area)))
        disk.old disk.new }
    ensures honesty { D.honest disk.new ≡ D.honest disk.old }
    ensures time { D.moment disk.old ≤ D.moment disk.new }

    ensures fault { OnErr result (CountRose (D.faults disk.old) (D.faults disk.new)) }
    ensures steady { OnOk result (D.faults disk.new ≡ D.faults disk.old) }
    ensures counted { D.faults disk.old ≤ D.faults disk.new }
{
    let header = header_of(epoch, gated.len() as u64 - 1);
    write_behind_first(disk, area, &header, gated)?;
    write_synced(disk, area, 0, &[OPEN])
}

/// Lays an image into the area beside the one that is opened, under a higher epoch, and retires that.
pub(crate) fn move_on<D: Disk>(
    disk: &mut D,
    area: Area,
    epoch: u64,
    gated: &[u8],
) -> Result<(), Failed>
    requires says { IsTrue (D.honest disk.old) → SaysLess (D.holds disk.old area) epoch }
    requires gate { IsTrue (D.honest disk.old) → D.holds disk.old (other_of area) ≡ 0 ∷ [] }
    requires synced { IsTrue (D.honest disk.old) → AreSynced D.holds D.leaves disk.old }
    requires gated { IsGated gated.now }
    requires room { length gated.now ≤ JOURNAL_ROOM }
    requires first { 1 ≤ epoch }
    requires last { epoch ≤ JOURNAL_ROOM }

    ensures there { OnOk result (IsTrue (D.honest disk.old)
        → D.holds disk.new (other_of area) ≡ in_front (laid epoch gated.now) ++ 0 ∷ []) }
    ensures here { OnOk result (IsTrue (D.honest disk.old) → D.holds disk.new area ≡ 0 ∷ []) }
    ensures synced { OnOk result (IsTrue (D.honest disk.old) → AreSynced D.holds D.leaves disk.new) }
    ensures moments { (stored : Stored) → IsTrue (D.honest disk.old) → Says (D.holds disk.old area) stored
        → LeavesOnly D.moment D.might_have_left (RepresentEither stored (laid epoch gated.now)) disk.old disk.new }
    ensures honesty { D.honest disk.new ≡ D.honest disk.old }
    ensures time { D.moment disk.old ≤ D.moment disk.new }

    ensures fault { OnErr result (CountRose (D.faults disk.old) (D.faults disk.new)) }
    ensures steady { OnOk result (D.faults disk.new ≡ D.faults disk.old) }
    ensures counted { D.faults disk.old ≤ D.faults disk.new }
{
    fill(disk, other_area(area), epoch, gated)?;
    retire_opened(disk, area)
}

/// The bytes behind an area's gate: the epoch, and the length of the image.
fn header_of(epoch: u64, len: u64) -> [u8; 16]
    ensures { result ≡ bytes_high_first 8 epoch ++ bytes_high_first 8 len }
{
    let mut header = [0; 16];
    BigEndian::write_u64(&mut header, epoch);
    BigEndian::write_u64(&mut header[8..], len);
    header
}
