ghost use Rattle.std.specs.Prelude.{◌≡◌, [], ◌∷◌, ◌+◌, ◌++◌, ◌<◌, ◌≤◌, ◌⊎◌, ◌↔◌, false, true, length, IsTrue, IfOk, IfErr, OnOk, OnErr};
ghost use Rattle.commit_journal.specs.AreaCalls.{AreSynced, IsAdding, IsMade, OnlyIn};
ghost use Rattle.commit_journal.specs.JournalState.{CanResume, HasRoom, IsAt, IsAtRest, Rests, RepresentAtMost, RepresentEither};
ghost use Rattle.disk_model.specs.Area.{IsGated, IsOpened, Represent, Stored, in_front, laid, with_payload};
ghost use Rattle.disk_model.specs.Records.{IsFramed, payload_of};
ghost use Rattle.outer_world.specs.FaultCount.{CountRose};
ghost use Rattle.outer_world.specs.LeavesOnly.{LeavesOnly};
ghost use Rattle.outer_world.specs.OtherArea.{other_of};
ghost use Rattle.outer_world.specs.Overwritten.{overwritten};
ghost use Rattle.outer_world.specs.Torn.{Torn};
ghost use Rattle.own_base.specs.declared.number.Area.TheVariants.{A, B};

use crate::area_calls::{OPEN, write_synced};
use crate::filling::{fill, move_on};
use crate::retiring::{retire, retire_shut};
use outer_world::{Disk, Failed, other_area};
use own_base::Area;
use own_model::JOURNAL_ROOM;

/// The journal of a store, which owns the disk: the opened area, its epoch, and the place of the closed gate behind its
/// records. Once a call has failed it is used no more, and the store is opened anew.
#[derive(Drop)]
pub struct Journal<D: Disk> {
    disk: D,
    area: Area,
    epoch: u64,
    end: u64,
    failed: bool,
}

impl<D: Disk> Journal<D> {
    /// Begins a journal with an image and its closed gate, on a disk of which neither area is opened. Where the disk
    /// fails it comes back. Takes no memory.
    pub fn first(disk: D, gated: &[u8]) -> Result<Journal<D>, D>
        requires not_a { IsTrue (D.honest disk) → ¬ IsOpened (D.holds disk A) }
        requires not_b { IsTrue (D.honest disk) → ¬ IsOpened (D.holds disk B) }
        requires synced { IsTrue (D.honest disk) → AreSynced D.holds D.leaves disk }
        requires gated { IsGated gated.now }
        requires room { 16 + length gated.now ≤ JOURNAL_ROOM }

        ensures at { IfOk result (λ journal. IsAt journal A 1 (16 + length gated.now)) }
        ensures rests { IfOk result (λ journal. IsTrue (D.honest disk)
            → Rests D.holds D.leaves journal (laid 1 gated.now)) }
        // Nothing stands behind the closed gate.
        ensures alone { IfOk result (λ journal. IsTrue (D.honest disk)
            → D.holds journal.disk A ≡ in_front (laid 1 gated.now) ++ 0 ∷ []) }
        ensures moments { IfOk result (λ journal. IsTrue (D.honest disk)
            → LeavesOnly D.moment D.might_have_left (RepresentAtMost (laid 1 gated.now)) disk journal.disk) }
        ensures moments_err { IfErr result (λ back. IsTrue (D.honest disk)
            → LeavesOnly D.moment D.might_have_left (RepresentAtMost (laid 1 gated.now)) disk back) }
        ensures honesty { IfOk result (λ journal. D.honest journal.disk ≡ D.honest disk) }
        ensures honesty_err { IfErr result (λ back. D.honest back ≡ D.honest disk) }
        ensures time { IfOk result (λ journal. D.moment disk ≤ D.moment journal.disk) }
        ensures time_err { IfErr result (λ back. D.moment disk ≤ D.moment back) }

        ensures fault { IfErr result (λ back. CountRose (D.faults disk) (D.faults back)) }
        ensures steady { IfOk result (λ journal. D.faults journal.disk ≡ D.faults disk) }
        ensures counted { IfErr result (λ back. D.faults disk ≤ D.faults back) }
    {
        let mut disk = disk;
        match begin(&mut disk, gated) {
            Ok(()) => Ok(Journal {
                disk,
                area: Area::A,
                epoch: 1,
                end: 16 + gated.len() as u64,
                failed: false,
            }),
            Err(Failed) => Err(disk),
        }
    }

    /// Goes on with the journal of an area that is opened, under this epoch and with its closed gate at `end`. The
    /// other area becomes one closed gate. Where the disk fails it comes back. Takes no memory.
    pub fn resume(disk: D, area: Area, epoch: u64, end: u64) -> Result<Journal<D>, D>
        requires synced { IsTrue (D.honest disk) → AreSynced D.holds D.leaves disk }

        ensures at { IfOk result (λ journal. IsAt journal area epoch end) }
        ensures rests { IfOk result (λ journal. (stored : Stored) → IsTrue (D.honest disk)
            → CanResume D.holds D.leaves disk area epoch end stored → Rests D.holds D.leaves journal stored) }
        ensures moments { IfOk result (λ journal. (stored : Stored) → IsTrue (D.honest disk)
            → CanResume D.holds D.leaves disk area epoch end stored
            → LeavesOnly D.moment D.might_have_left (λ a b. Represent a b stored) disk journal.disk) }
        ensures moments_err { IfErr result (λ back. (stored : Stored) → IsTrue (D.honest disk)
            → CanResume D.holds D.leaves disk area epoch end stored
            → LeavesOnly D.moment D.might_have_left (λ a b. Represent a b stored) disk back) }
        ensures honesty { IfOk result (λ journal. D.honest journal.disk ≡ D.honest disk) }
        ensures honesty_err { IfErr result (λ back. D.honest back ≡ D.honest disk) }
        ensures time { IfOk result (λ journal. D.moment disk ≤ D.moment journal.disk) }
        ensures time_err { IfErr result (λ back. D.moment disk ≤ D.moment back) }

        ensures fault { IfErr result (λ back. CountRose (D.faults disk) (D.faults back)) }
        ensures steady { IfOk result (λ journal. D.faults journal.disk ≡ D.faults disk) }
        ensures counted { IfErr result (λ back. D.faults disk ≤ D.faults back) }
    {
        let mut disk = disk;
        match retire(&mut disk, other_area(area)) {
            Ok(()) => Ok(Journal {
                disk,
                area,
                epoch,
                end,
                failed: false,
            }),
            Err(Failed) => Err(disk),
        }
    }

    /// The epoch of the area that is opened. Takes no memory.
    pub fn epoch(&self) -> u64
        ensures { result ≡ self.now.epoch }
    {
        self.epoch
    }

    /// Where its records end, which is the place of the closed gate behind them. Takes no memory.
    pub fn end(&self) -> u64
        ensures { result ≡ self.now.end }
    {
        self.end
    }

    /// Whether an epoch more, and so many bytes more, are within the room of a journal. Takes no memory.
    pub fn fits(&self, bytes: u64) -> bool
        ensures { IsTrue result ↔ HasRoom self.now bytes }
    {
        self.epoch < JOURNAL_ROOM && bytes <= JOURNAL_ROOM && self.end <= JOURNAL_ROOM - bytes
    }

    /// Adds a record: a payload behind its length, and a closed gate. After `Ok` a crash leaves it. Takes no memory.
    pub fn append(&mut self, framed: &[u8]) -> Result<(), Failed>
        requires sound { self.old.failed ≡ false }
        requires room { HasRoom self.old (length framed.now) }
        requires framed { IsFramed framed.now }
        requires at_rest { IsTrue (D.honest self.old.disk) → IsAtRest D.holds D.leaves self.old }

        ensures at { OnOk result (IsAt self.new self.old.area self.old.epoch (self.old.end + length framed.now)) }
        ensures failed { OnErr result (self.new.failed ≡ true) }
        ensures rests { OnOk result ((stored : Stored) → IsTrue (D.honest self.old.disk)
            → Rests D.holds D.leaves self.old stored
            → Rests D.holds D.leaves self.new (with_payload stored (payload_of framed.now))) }
        ensures moments { (stored : Stored) → IsTrue (D.honest self.old.disk) → Rests D.holds D.leaves self.old stored
            → LeavesOnly D.moment D.might_have_left
            (RepresentEither stored (with_payload stored (payload_of framed.now))) self.old.disk self.new.disk }
        ensures honesty { D.honest self.new.disk ≡ D.honest self.old.disk }
        ensures time { D.moment self.old.disk ≤ D.moment self.new.disk }

        ensures fault { OnErr result (CountRose (D.faults self.old.disk) (D.faults self.new.disk)) }
        ensures steady { OnOk result (D.faults self.new.disk ≡ D.faults self.old.disk) }
        ensures counted { D.faults self.old.disk ≤ D.faults self.new.disk }
    {
        match add_record(&mut self.disk, self.area, self.end, framed) {
            Ok(()) => {
                self.end += framed.len() as u64;
                Ok(())
            }
            Err(failed) => {
                self.failed = true;
                Err(failed)
            }
        }
    }

    /// Begins anew with an image and its closed gate, in the other area and under the next epoch. After `Ok` the area
    /// that was left is one closed gate. Takes no memory.
    pub fn replace(&mut self, gated: &[u8]) -> Result<(), Failed>
        requires sound { self.old.failed ≡ false }
        requires room { HasRoom self.old (length gated.now) }
        requires gated { IsGated gated.now }
        requires at_rest { IsTrue (D.honest self.old.disk) → IsAtRest D.holds D.leaves self.old }

        ensures at { OnOk result (IsAt self.new (other_of self.old.area) (self.old.epoch + 1) (16 + length gated.now)) }
        ensures failed { OnErr result (self.new.failed ≡ true) }
        ensures rests { OnOk result (IsTrue (D.honest self.old.disk)
            → Rests D.holds D.leaves self.new (laid (self.old.epoch + 1) gated.now)) }
        // Nothing stands behind the closed gate.
        ensures alone { OnOk result (IsTrue (D.honest self.old.disk)
            → D.holds self.new.disk (other_of self.old.area) ≡ in_front (laid (self.old.epoch + 1) gated.now) ++ 0 ∷ []) }
        ensures moments { (stored : Stored) → IsTrue (D.honest self.old.disk) → Rests D.holds D.leaves self.old stored
            → LeavesOnly D.moment D.might_have_left
            (RepresentEither stored (laid (self.old.epoch + 1) gated.now)) self.old.disk self.new.disk }
        ensures honesty { D.honest self.new.disk ≡ D.honest self.old.disk }
        ensures time { D.moment self.old.disk ≤ D.moment self.new.disk }

        ensures fault { OnErr result (CountRose (D.faults self.old.disk) (D.faults self.new.disk)) }
        ensures steady { OnOk result (D.faults self.new.disk ≡ D.faults self.old.disk) }
        ensures counted { D.faults self.old.disk ≤ D.faults self.new.disk }
    {
        match move_on(&mut self.disk, self.area, self.epoch + 1, gated) {
            Ok(()) => {
                self.area = other_area(self.area);
                self.epoch += 1;
                self.end = 16 + gated.len() as u64;
                Ok(())
            }
            Err(failed) => {
                self.failed = true;
                Err(failed)
            }
        }
    }

    /// Lends the disk, for its count of faults and its moment. Takes no memory.
    pub fn disk(&self) -> &D
        ensures { result.now ≡ self.now.disk }
    {
        &self.disk
    }

    /// Whether a call has failed. Takes no memory.
    pub fn failed(&self) -> bool
        ensures { result ≡ self.now.failed }
    {
        self.failed
    }

    /// The disk. Takes no memory.
    pub fn close(self) -> D
        ensures { result ≡ self.disk }
    {
        let Journal { disk, .. } = self;
        disk
    }
}

/// Lays the first image into A, between the retiring of both areas.
fn begin<D: Disk>(disk: &mut D, gated: &[u8]) -> Result<(), Failed>
    requires not_a { IsTrue (D.honest disk.old) → ¬ IsOpened (D.holds disk.old A) }
    requires not_b { IsTrue (D.honest disk.old) → ¬ IsOpened (D.holds disk.old B) }
    requires synced { IsTrue (D.honest disk.old) → AreSynced D.holds D.leaves disk.old }
    requires gated { IsGated gated.now }
    requires room { length gated.now ≤ JOURNAL_ROOM }

    ensures in_a { OnOk result (IsTrue (D.honest disk.old)
        → D.holds disk.new A ≡ in_front (laid 1 gated.now) ++ 0 ∷ []) }
    ensures in_b { OnOk result (IsTrue (D.honest disk.old) → D.holds disk.new B ≡ 0 ∷ []) }
    ensures synced { OnOk result (IsTrue (D.honest disk.old) → AreSynced D.holds D.leaves disk.new) }
    ensures moments { IsTrue (D.honest disk.old)
        → LeavesOnly D.moment D.might_have_left (RepresentAtMost (laid 1 gated.now)) disk.old disk.new }
    ensures honesty { D.honest disk.new ≡ D.honest disk.old }
    ensures time { D.moment disk.old ≤ D.moment disk.new }

    ensures fault { OnErr result (CountRose (D.faults disk.old) (D.faults disk.new)) }
    ensures steady { OnOk result (D.faults disk.new ≡ D.faults disk.old) }
    ensures counted { D.faults disk.old ≤ D.faults disk.new }
{
    retire_shut(disk, Area::A)?;
    fill(disk, Area::A, 1, gated)?;
    retire_shut(disk, Area::B)
}

/// Writes a record behind its closed gate, and opens that. The gate of the next record is closed on the disk before
/// this one is opened.
fn add_record<D: Disk>(disk: &mut D, area: Area, end: u64, framed: &[u8]) -> Result<(), Failed>
    requires within { IsTrue (D.honest disk.old) → end < length (D.holds disk.old area) }
    requires synced { IsTrue (D.honest disk.old) → AreSynced D.holds D.leaves disk.old }
    requires room { end ≤ JOURNAL_ROOM }

    ensures made { OnOk result (IsTrue (D.honest disk.old)
        → IsMade D.holds D.leaves area
        (overwritten (overwritten (D.holds disk.old area) (end + 1) framed.now) end (1 ∷ [])) disk.old disk.new) }
    ensures moments { IsTrue (D.honest disk.old) → LeavesOnly D.moment D.might_have_left
        (OnlyIn area (IsAdding (D.holds disk.old area) end framed.now) (D.holds disk.old (other_of area)))
        disk.old disk.new }
    ensures honesty { D.honest disk.new ≡ D.honest disk.old }
    ensures time { D.moment disk.old ≤ D.moment disk.new }

    ensures fault { OnErr result (CountRose (D.faults disk.old) (D.faults disk.new)) }
    ensures steady { OnOk result (D.faults disk.new ≡ D.faults disk.old) }
    ensures counted { D.faults disk.old ≤ D.faults disk.new }
{
    write_synced(disk, area, end + 1, framed)?;
    write_synced(disk, area, end, &[OPEN])
}
