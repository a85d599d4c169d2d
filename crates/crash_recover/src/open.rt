ghost use Rattle.std.specs.Prelude.{◌≡◌, ◌≢◌, ◌≤◌, ℕ, false, Err, IsTrue, IfOk, IfErr, OnOk};
ghost use Rattle.commit_journal.specs.AreaCalls.{AreSynced};
ghost use Rattle.crash_recover.specs.Opening.{IsLeft, IsOpenedOf};
ghost use Rattle.crash_recover.specs.Undisturbed.{IsUndisturbed};
ghost use Rattle.crash_recover.specs.Recovered.{IsFound};
ghost use Rattle.crash_recover.specs.declared.judged.Judged.TheVariants.{Empty};
ghost use Rattle.crash_recover.specs.declared.open.OpenFault.TheVariants.{Damaged, DiskFault};
ghost use Rattle.crash_recover.specs.declared.reading.ReadFault.TheVariants.{Failed};
ghost use Rattle.disk_model.specs.Judged.{IsJudged};
ghost use Rattle.disk_model.specs.JudgedArea as found;
ghost use Rattle.outer_world.specs.FaultCount.{CountRose};
ghost use Rattle.outer_world.specs.LeavesOnly.{LeavesOnly};
ghost use Rattle.outer_world.specs.Stays.{Stays};
ghost use Rattle.own_base.specs.declared.number.Area.{Area};
ghost use Rattle.own_base.specs.declared.number.Area.TheVariants.{A, B};

use crate::judge;
use crate::judged::{Judged, LaidCommit};
use crate::reading::{ReadFault, read_area, sync_both};
use commit_journal::Journal;
use commit_replay::Replayed;
use disk_model::Image;
use outer_world::Disk;
use own_base::{Area, List};
use std::alloc::{AllocError, Global};
use thiserror::Error;

/// The image of the empty store, and a closed gate.
const EMPTY: [u8; 14] = [1, 0, 0, 0, 0, 0, 0, 0, 0, 0, 0, 0, 0, 0];

/// Why a store was not opened.
#[derive(Debug, Drop, Error)]
pub enum OpenFault {
    /// The disk met a fault.
    #[error("the disk failed")]
    DiskFault,
    /// What the disk holds is no store.
    #[error("area {area:?} is damaged at byte {offset}")]
    Damaged { area: Area, offset: u64 },
    /// Memory was refused.
    #[error("out of memory")]
    Memory,
}

/// An opened store.
#[derive(Drop)]
pub struct Opened<D: Disk> {
    pub journal: Journal<D>,
    /// What the journal's area begins with, and the commits behind it.
    pub image: Image,
    pub commits: List<LaidCommit>,
    /// The state that they lead to.
    pub state: Replayed,
}

/// Opens the store of a disk, or begins one where neither area is opened. Both areas are made durable and read whole,
/// and what they hold is judged, before anything is written; of a damaged store nothing is. Where no store is opened the
/// disk comes back.
pub fn open_store<D: Disk>(alloc: Global, disk: D) -> Result<Opened<D>, (OpenFault, D)>
    ensures opened { IfOk result (λ opened. IsTrue (D.honest disk) → IsOpenedOf D.holds D.leaves disk opened) }
    ensures sound { IfOk result (λ opened. opened.journal.failed ≡ false) }
    ensures damaged { IfErr result (λ back. (area : Area) (offset : ℕ) → back.0 ≡ Damaged area offset
        → IsTrue (D.honest disk) → IsJudged (D.holds disk A) (D.holds disk B) (found.Damaged area offset)) }
    // `Memory` comes only where memory was refused.
    ensures kept_a { IfErr result (λ back. back.0 ≢ DiskFault → IsTrue (D.honest disk)
        → Stays D.holds D.leaves A disk back.1) }
    ensures kept_b { IfErr result (λ back. back.0 ≢ DiskFault → IsTrue (D.honest disk)
        → Stays D.holds D.leaves B disk back.1) }
    ensures moments { IfOk result (λ opened. IsTrue (D.honest disk)
        → LeavesOnly D.moment D.might_have_left (IsLeft D.holds D.leaves disk) disk opened.journal.disk) }
    ensures moments_err { IfErr result (λ back. IsTrue (D.honest disk)
        → LeavesOnly D.moment D.might_have_left (IsLeft D.holds D.leaves disk) disk back.1) }
    ensures honesty { IfOk result (λ opened. D.honest opened.journal.disk ≡ D.honest disk) }
    ensures honesty_err { IfErr result (λ back. D.honest back.1 ≡ D.honest disk) }
    ensures time { IfOk result (λ opened. D.moment disk ≤ D.moment opened.journal.disk) }
    ensures time_err { IfErr result (λ back. D.moment disk ≤ D.moment back.1) }

    ensures fault { IfErr result (λ back. back.0 ≡ DiskFault → CountRose (D.faults disk) (D.faults back.1)) }
    ensures steady { IfOk result (λ opened. D.faults opened.journal.disk ≡ D.faults disk) }
    ensures steady_err { IfErr result (λ back. back.0 ≢ DiskFault → D.faults back.1 ≡ D.faults disk) }
    ensures counted { IfErr result (λ back. D.faults disk ≤ D.faults back.1) }
{
    let mut disk = disk;
    match look(alloc, &mut disk) {
        Ok(judged) => open_judged(alloc, disk, judged),
        Err(ReadFault::Failed) => Err((OpenFault::DiskFault, disk)),
        Err(ReadFault::Memory) => Err((OpenFault::Memory, disk)),
    }
}

/// Makes both areas durable, reads them and judges what they hold.
fn look<D: Disk>(alloc: Global, disk: &mut D) -> Result<Judged, ReadFault>
    ensures found { IfOk result (λ judged. IsTrue (D.honest disk.old)
        → IsFound (D.holds disk.old A) (D.holds disk.old B) judged) }
    ensures synced { OnOk result (IsTrue (D.honest disk.old) → AreSynced D.holds D.leaves disk.new) }
    ensures kept { IsTrue (D.honest disk.old)
        → IsUndisturbed D.holds D.leaves D.moment D.might_have_left disk.old disk.new }
    ensures honesty { D.honest disk.new ≡ D.honest disk.old }
    ensures time { D.moment disk.old ≤ D.moment disk.new }

    ensures fault { result ≡ Err Failed → CountRose (D.faults disk.old) (D.faults disk.new) }
    ensures steady { result ≢ Err Failed → D.faults disk.new ≡ D.faults disk.old }
    ensures counted { D.faults disk.old ≤ D.faults disk.new }
{
    sync_both(disk)?;
    let a = read_area(alloc, disk, Area::A)?;
    let b = read_area(alloc, disk, Area::B)?;
    let judged = judge(alloc, &a, &b)?;
    Ok(judged)
}

/// Opens what both areas were judged to be.
fn open_judged<D: Disk>(alloc: Global, disk: D, judged: Judged) -> Result<Opened<D>, (OpenFault, D)>
    requires found { IsTrue (D.honest disk) → IsFound (D.holds disk A) (D.holds disk B) judged }
    requires synced { IsTrue (D.honest disk) → AreSynced D.holds D.leaves disk }

    ensures opened { IfOk result (λ opened. IsTrue (D.honest disk) → IsOpenedOf D.holds D.leaves disk opened) }
    ensures sound { IfOk result (λ opened. opened.journal.failed ≡ false) }
    ensures damaged { IfErr result (λ back. (area : Area) (offset : ℕ) → back.0 ≡ Damaged area offset
        → IsTrue (D.honest disk) → IsJudged (D.holds disk A) (D.holds disk B) (found.Damaged area offset)) }
    ensures kept { IfErr result (λ back. back.0 ≢ DiskFault → back.1 ≡ disk) }
    ensures moments { IfOk result (λ opened. IsTrue (D.honest disk)
        → LeavesOnly D.moment D.might_have_left (IsLeft D.holds D.leaves disk) disk opened.journal.disk) }
    ensures moments_err { IfErr result (λ back. IsTrue (D.honest disk)
        → LeavesOnly D.moment D.might_have_left (IsLeft D.holds D.leaves disk) disk back.1) }
    ensures honesty { IfOk result (λ opened. D.honest opened.journal.disk ≡ D.honest disk) }
    ensures honesty_err { IfErr result (λ back. D.honest back.1 ≡ D.honest disk) }
    ensures time { IfOk result (λ opened. D.moment disk ≤ D.moment opened.journal.disk) }
    ensures time_err { IfErr result (λ back. D.moment disk ≤ D.moment back.1) }

    ensures fault { IfErr result (λ back. back.0 ≡ DiskFault → CountRose (D.faults disk) (D.faults back.1)) }
    ensures steady { IfOk result (λ opened. D.faults opened.journal.disk ≡ D.faults disk) }
    ensures counted { IfErr result (λ back. D.faults disk ≤ D.faults back.1) }
{
    match judged {
        Judged::Empty => begin(alloc, disk),
        Judged::Whole {
            area,
            epoch,
            image,
            commits,
            end,
            state,
        } => match Journal::resume(disk, area, epoch, end) {
            Ok(journal) => Ok(Opened {
                journal,
                image,
                commits,
                state,
            }),
            Err(disk) => Err((OpenFault::DiskFault, disk)),
        },
        Judged::Damaged { area, offset } => Err((OpenFault::Damaged { area, offset }, disk)),
    }
}

/// Begins the store of a disk that has none. All memory is taken before anything is written.
fn begin<D: Disk>(alloc: Global, disk: D) -> Result<Opened<D>, (OpenFault, D)>
    requires found { IsTrue (D.honest disk) → IsFound (D.holds disk A) (D.holds disk B) Empty }
    requires synced { IsTrue (D.honest disk) → AreSynced D.holds D.leaves disk }

    ensures opened { IfOk result (λ opened. IsTrue (D.honest disk) → IsOpenedOf D.holds D.leaves disk opened) }
    ensures sound { IfOk result (λ opened. opened.journal.failed ≡ false) }
    ensures undamaged { IfErr result (λ back. (area : Area) (offset : ℕ) → back.0 ≢ Damaged area offset) }
    ensures kept { IfErr result (λ back. back.0 ≢ DiskFault → back.1 ≡ disk) }
    ensures moments { IfOk result (λ opened. IsTrue (D.honest disk)
        → LeavesOnly D.moment D.might_have_left (IsLeft D.holds D.leaves disk) disk opened.journal.disk) }
    ensures moments_err { IfErr result (λ back. IsTrue (D.honest disk)
        → LeavesOnly D.moment D.might_have_left (IsLeft D.holds D.leaves disk) disk back.1) }
    ensures honesty { IfOk result (λ opened. D.honest opened.journal.disk ≡ D.honest disk) }
    ensures honesty_err { IfErr result (λ back. D.honest back.1 ≡ D.honest disk) }
    ensures time { IfOk result (λ opened. D.moment disk ≤ D.moment opened.journal.disk) }
    ensures time_err { IfErr result (λ back. D.moment disk ≤ D.moment back.1) }

    ensures fault { IfErr result (λ back. back.0 ≡ DiskFault → CountRose (D.faults disk) (D.faults back.1)) }
    ensures steady { IfOk result (λ opened. D.faults opened.journal.disk ≡ D.faults disk) }
    ensures counted { IfErr result (λ back. D.faults disk ≤ D.faults back.1) }
{
    let Ok(state) = Replayed::new(alloc) else {
        return Err((OpenFault::Memory, disk));
    };
    let image = Image {
        commits: 0,
        creates: List::new(alloc),
        tables: List::new(alloc),
    };
    match Journal::first(disk, &EMPTY) {
        Ok(journal) => Ok(Opened {
            journal,
            image,
            commits: List::new(alloc),
            state,
        }),
        Err(disk) => Err((OpenFault::DiskFault, disk)),
    }
}
