ghost use Rattle.std.specs.Prelude.{◌≡◌, ◌≢◌, ◌≤◌, ℕ, false, IsTrue, IfOk, IfErr};
ghost use Rattle.own_base.specs.declared.number.Area.{Area};
ghost use Rattle.own_base.specs.declared.number.Area.TheVariants.{A, B};
ghost use Rattle.outer_world.specs.FaultCount.{CountRose};
ghost use Rattle.outer_world.specs.LeavesOnly.{LeavesOnly};
ghost use Rattle.outer_world.specs.Stays.{Stays};
ghost use Rattle.disk_model.specs.Judged.{IsJudged};
ghost use Rattle.disk_model.specs.JudgedArea as found;
ghost use Rattle.crash_model.specs.StoreIn.{IsStoreIn};
ghost use Rattle.crash_recover.specs.Opening.{IsLeft};
ghost use Rattle.crash_recover.specs.declared.open.OpenFault.TheVariants.{Damaged, DiskFault};
ghost use Rattle.store_disk.specs.Kept.{IsKept};
ghost use Rattle.store_disk.specs.OpensAt.{OpensAt};

use crate::store_disk::StoreDisk;
use commit_replay::Replayed;
use crash_recover::{OpenFault, Opened, open_store};
use outer_world::Disk;
use std::alloc::Global;
use std::mem::drop;

/// Opens the store of a disk, or begins one where the disk has none, as `open_store` does: its disk, and the state that it
/// keeps. Where no store is opened the disk comes back.
pub fn open_disk<D: Disk>(
    alloc: Global,
    disk: D,
) -> Result<(StoreDisk<D>, Replayed), (OpenFault, D)>
    ensures kept { IfOk result (λ opened. IsTrue (D.honest disk)
        → IsKept D.holds D.leaves opened.0.journal opened.1 opened.0.commits) }
    ensures store { IfOk result (λ opened. IsTrue (D.honest disk)
        → IsStoreIn (D.holds disk A) (D.holds disk B) opened.1 opened.0.commits) }
    ensures start { IfOk result (λ opened. IsTrue (D.honest disk)
        → OpensAt (D.holds disk A) (D.holds disk B) opened.0.journal.area opened.0.journal.epoch opened.0.journal.end) }
    ensures sound { IfOk result (λ opened. opened.0.journal.failed ≡ false) }
    ensures damaged { IfErr result (λ back. (area : Area) (offset : ℕ) → back.0 ≡ Damaged area offset
        → IsTrue (D.honest disk) → IsJudged (D.holds disk A) (D.holds disk B) (found.Damaged area offset)) }
    // `Memory` comes only where memory was refused.
    ensures kept_a { IfErr result (λ back. back.0 ≢ DiskFault → IsTrue (D.honest disk)
        → Stays D.holds D.leaves A disk back.1) }
    ensures kept_b { IfErr result (λ back. back.0 ≢ DiskFault → IsTrue (D.honest disk)
        → Stays D.holds D.leaves B disk back.1) }
    ensures moments { IfOk result (λ opened. IsTrue (D.honest disk)
        → LeavesOnly D.moment D.might_have_left (IsLeft D.holds D.leaves disk) disk opened.0.journal.disk) }
    ensures moments_err { IfErr result (λ back. IsTrue (D.honest disk)
        → LeavesOnly D.moment D.might_have_left (IsLeft D.holds D.leaves disk) disk back.1) }
    ensures honesty { IfOk result (λ opened. D.honest opened.0.journal.disk ≡ D.honest disk) }
    ensures honesty_err { IfErr result (λ back. D.honest back.1 ≡ D.honest disk) }
    ensures time { IfOk result (λ opened. D.moment disk ≤ D.moment opened.0.journal.disk) }
    ensures time_err { IfErr result (λ back. D.moment disk ≤ D.moment back.1) }

    ensures fault { IfErr result (λ back. back.0 ≡ DiskFault → CountRose (D.faults disk) (D.faults back.1)) }
    ensures steady { IfOk result (λ opened. D.faults opened.0.journal.disk ≡ D.faults disk) }
    ensures steady_err { IfErr result (λ back. back.0 ≢ DiskFault → D.faults back.1 ≡ D.faults disk) }
    ensures counted { IfErr result (λ back. D.faults disk ≤ D.faults back.1) }
{
    let Opened {
        journal,
        image,
        commits,
        state,
    } = open_store(alloc, disk)?;
    let count = image.commits.saturating_add(commits.items().len() as u64);
    drop(image);
    drop(commits);
    Ok((StoreDisk::new(journal, count), state))
}
