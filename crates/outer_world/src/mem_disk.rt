ghost use Rattle.std.specs.Prelude.{◌≡◌, [], ◌∷◌, ◌-◌, ◌<◌, ◌≤◌, ◌^◌, ◌++◌, ◌↔◌, length, take, drop, min, if◌then◌else◌, IfOk, IsErr, OnOk, OnErr};
ghost use Rattle.outer_world.specs.FaultCount.{one_higher};
ghost use Rattle.outer_world.specs.FaultPlan.{fresh_plan, IsNextToFail, plan_after_success, plan_after_fault};
ghost use Rattle.outer_world.specs.KeepsArea.{KeepsArea, BeginsWithin};
ghost use Rattle.outer_world.specs.MemArea.{of_area};
ghost use Rattle.outer_world.specs.MemDisk.{area_now, fresh_disk};
ghost use Rattle.own_base.specs.declared.number.Area.TheVariants.{A, B};
ghost use Rattle.outer_world.specs.declared.change.Change.TheVariants.{Write, Cut, Sync};

use crate::change::{Change, DiskCall};
use crate::disk::Disk;
use crate::failed::Failed;
use crate::fault_plan::FaultPlan;
use crate::mem_area::MemArea;
use own_base::{Area, List};
use std::alloc::{AllocError, Global};
use std::marker::Model;

/// A disk in memory, whose calls of given numbers fail. It keeps the bytes that each area had at the start and each
/// call that changed one.
#[derive(Debug, Drop)]
pub struct MemDisk {
    alloc: Global,
    a: MemArea,
    b: MemArea,
    calls: Vec<DiskCall>,
    plan: FaultPlan,
}

impl Model for MemDisk {
    ghost use Rattle.outer_world.specs.MemDisk.{DiskState};
    ghost use Rattle.outer_world.specs.KeepsArea.{KeepsArea};
    ghost use Rattle.own_base.specs.declared.number.Area.TheVariants.{A, B};

    ghost Value = { DiskState };

    ghost view = { λ disk. record {
      start_a = disk.a.start;
      start_b = disk.b.start;
      calls = disk.calls.items;
      plan = disk.plan;
    } };

    ghost invariant = { λ disk. KeepsArea disk.a A disk.calls.items × KeepsArea disk.b B disk.calls.items };
}

impl MemDisk {
    /// A disk of two empty areas. The calls of the numbers in `fails`, counted from 0, are to fail.
    pub fn new(alloc: Global, fails: &[u32]) -> Result<MemDisk, AllocError>
        ensures { IfOk result (λ disk. disk ≡ record (fresh_disk [] []) { plan = fresh_plan fails.now }) }
    {
        let plan = FaultPlan::new(alloc, fails)?;
        Ok(MemDisk {
            alloc,
            a: MemArea::new(alloc),
            b: MemArea::new(alloc),
            calls: Vec::new(alloc),
            plan,
        })
    }

    /// Lends what an area holds. Takes no memory.
    pub fn bytes(&self, area: Area) -> &[u8]
        ensures { result.now ≡ (area_now self.now area).seen }
    {
        match area {
            Area::A => self.a.bytes(),
            Area::B => self.b.bytes(),
        }
    }

    /// The disk after a crash that kept all that wasn't durable, or lost it. Takes no memory.
    pub fn crash(self, kept: bool) -> MemDisk
        ensures { result ≡ fresh_disk
            (if kept then (area_now self A).seen else (area_now self A).synced)
            (if kept then (area_now self B).seen else (area_now self B).synced) }
    {
        let MemDisk {
            alloc,
            a,
            b,
            calls: _,
            plan: _,
        } = self;
        MemDisk {
            alloc,
            a: a.crash(kept),
            b: b.crash(kept),
            calls: Vec::new(alloc),
            plan: FaultPlan::without_faults(alloc),
        }
    }

    /// Makes a change and keeps it, in a call that was counted. Out of memory is a fault.
    fn change(&mut self, area: Area, change: Change) -> Result<(), Failed>
        requires { BeginsWithin change (area_now self.old area).seen }
        ensures changed { OnOk result (self.new ≡ record self.old {
          calls = self.old.calls ++ record { area = area; change = change } ∷ [];
        }) }
        ensures fault { OnErr result (self.new ≡ record self.old {
          plan = record self.old.plan { faults = one_higher self.old.plan.faults };
        }) }
    {
        let done = change_kept(
            self.alloc,
            &mut self.a,
            &mut self.b,
            &mut self.calls,
            area,
            change,
        );
        if done.is_err() {
            return Err(self.plan.fail());
        }
        Ok(())
    }
}

/// Makes a change of one of the areas, and adds it to the calls.
fn change_kept(
    alloc: Global,
    a: &mut MemArea,
    b: &mut MemArea,
    calls: &mut Vec<DiskCall>,
    area: Area,
    change: Change,
) -> Result<(), AllocError>
    requires keeps_a { KeepsArea a.old A calls.old.items }
    requires keeps_b { KeepsArea b.old B calls.old.items }
    requires within { BeginsWithin change (of_area area a.old b.old).seen }
    ensures added { OnOk result (calls.new.items ≡ calls.old.items ++ record { area = area; change = change } ∷ []) }
    ensures not_added { OnErr result (calls.new.items ≡ calls.old.items) }
    ensures start_a { a.new.start ≡ a.old.start }
    ensures start_b { b.new.start ≡ b.old.start }
    ensures keeps_a { KeepsArea a.new A calls.new.items }
    ensures keeps_b { KeepsArea b.new B calls.new.items }
{
    calls.reserve(1)?;
    match area {
        Area::A => a.change(alloc, &change)?,
        Area::B => b.change(alloc, &change)?,
    }
    let _ = calls.push(DiskCall { area, change });
    Ok(())
}

impl Disk for MemDisk {
    ghost use Rattle.std.specs.Prelude.{true, length};
    ghost use Rattle.outer_world.specs.MayLeave.{MayLeave};
    ghost use Rattle.outer_world.specs.MemDisk.{area_now, MightHaveLeft};
    ghost use Rattle.outer_world.specs.MemDiskLaws.{mem_now_counts, mem_only_now, mem_reads_may_stay};

    ghost faults = { λ disk. disk.plan.faults };

    ghost honest = { λ _. true };

    ghost holds = { λ disk area. (area_now disk area).seen };

    ghost leaves = { λ disk area bytes. MayLeave (area_now disk area) bytes };

    ghost moment = { λ disk. length disk.calls };

    ghost might_have_left = { MightHaveLeft };

    ghost now_counts = { mem_now_counts };

    ghost only_now = { mem_only_now };

    ghost reads_may_stay = { λ disk area _. mem_reads_may_stay disk area };

    fn len(&mut self, area: Area) -> Result<u64, Failed>
        ensures due { IsErr result ↔ IsNextToFail self.old.plan }
        ensures told { IfOk result (λ len. len ≡ length (area_now self.old area).seen) }
        ensures ok { OnOk result (self.new ≡ record self.old { plan = plan_after_success self.old.plan }) }
        ensures fault { OnErr result (self.new ≡ record self.old { plan = plan_after_fault self.old.plan }) }
        ensures counted { self.old.plan.faults ≤ self.new.plan.faults }
        ensures in_range { self.new.plan.faults < 2 ^ 64 }
    {
        self.plan.count_call()?;
        Ok(self.bytes(area).len() as u64)
    }

    fn read_at(&mut self, area: Area, at: u64, into: &mut [u8]) -> Result<usize, Failed>
        ensures due { IsErr result ↔ IsNextToFail self.old.plan }
        ensures count { IfOk result (λ count.
            count ≡ min (length into.old) (length (area_now self.old area).seen - at)) }
        ensures piece { IfOk result (λ count.
            into.new ≡ take count (drop at (area_now self.old area).seen) ++ drop count into.old) }
        ensures ok { OnOk result (self.new ≡ record self.old { plan = plan_after_success self.old.plan }) }
        ensures fault { OnErr result (self.new ≡ record self.old { plan = plan_after_fault self.old.plan }) }
        ensures piece_kept { OnErr result (into.new ≡ into.old) }
        ensures counted { self.old.plan.faults ≤ self.new.plan.faults }
        ensures in_range { self.new.plan.faults < 2 ^ 64 }
    {
        self.plan.count_call()?;
        Ok(copy_from(self.bytes(area), at, into))
    }

    fn write_at(&mut self, area: Area, at: u64, bytes: &[u8]) -> Result<(), Failed>
        requires { at ≤ length (area_now self.old area).seen }
        ensures due { IsNextToFail self.old.plan → IsErr result }
        ensures ok { OnOk result (self.new ≡ record self.old {
          calls = self.old.calls ++ record { area = area; change = Write at bytes.now } ∷ [];
          plan = plan_after_success self.old.plan;
        }) }
        ensures fault { OnErr result (self.new ≡ record self.old { plan = plan_after_fault self.old.plan }) }
        ensures counted { self.old.plan.faults ≤ self.new.plan.faults }
        ensures in_range { self.new.plan.faults < 2 ^ 64 }
    {
        self.plan.count_call()?;
        match bytes.to_vec(self.alloc) {
            Ok(kept) => self.change(area, Change::Write(at, List::from_vec(kept))),
            Err(_) => Err(self.plan.fail()),
        }
    }

    fn cut(&mut self, area: Area, len: u64) -> Result<(), Failed>
        requires { len ≤ length (area_now self.old area).seen }
        ensures due { IsNextToFail self.old.plan → IsErr result }
        ensures ok { OnOk result (self.new ≡ record self.old {
          calls = self.old.calls ++ record { area = area; change = Cut len } ∷ [];
          plan = plan_after_success self.old.plan;
        }) }
        ensures fault { OnErr result (self.new ≡ record self.old { plan = plan_after_fault self.old.plan }) }
        ensures counted { self.old.plan.faults ≤ self.new.plan.faults }
        ensures in_range { self.new.plan.faults < 2 ^ 64 }
    {
        self.plan.count_call()?;
        self.change(area, Change::Cut(len))
    }

    fn sync(&mut self, area: Area) -> Result<(), Failed>
        ensures due { IsNextToFail self.old.plan → IsErr result }
        ensures ok { OnOk result (self.new ≡ record self.old {
          calls = self.old.calls ++ record { area = area; change = Sync } ∷ [];
          plan = plan_after_success self.old.plan;
        }) }
        ensures fault { OnErr result (self.new ≡ record self.old { plan = plan_after_fault self.old.plan }) }
        ensures counted { self.old.plan.faults ≤ self.new.plan.faults }
        ensures in_range { self.new.plan.faults < 2 ^ 64 }
    {
        self.plan.count_call()?;
        self.change(area, Change::Sync)
    }

    fn faults(&self) -> u64 {
        self.plan.faults()
    }

    fn moment(&self) -> u64 {
        self.calls.len() as u64
    }
}

/// Copies bytes from a place on to the front of the piece, and tells how many.
pub(crate) fn copy_from(bytes: &[u8], at: u64, into: &mut [u8]) -> usize
    ensures count { result ≡ min (length into.old) (length bytes.now - at) }
    ensures piece { into.new ≡ take result (drop at bytes.now) ++ drop result into.old }
{
    let start = bytes.len().min(at as usize);
    let count = into.len().min(bytes.len() - start);
    into[..count].copy_from_slice(&bytes[start..start + count]);
    count
}
