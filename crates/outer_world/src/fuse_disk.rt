ghost use Rattle.std.specs.Prelude.{◌≡◌, [], ◌∷◌, ◌-◌, ◌<◌, ◌≤◌, ◌^◌, ◌++◌, ◌↔◌, length, take, drop, min, IfOk, IsErr, OnOk, OnErr};
ghost use Rattle.outer_world.specs.FaultCount.{one_higher};
ghost use Rattle.outer_world.specs.FaultPlan.{plan_after_success};
ghost use Rattle.outer_world.specs.FuseDisk.{IsToFail, disk_after_fault};
ghost use Rattle.outer_world.specs.MemDisk.{area_now};
ghost use Rattle.outer_world.specs.declared.change.Change.TheVariants.{Write, Cut, Sync};

use crate::disk::Disk;
use crate::failed::Failed;
use crate::mem_disk::MemDisk;
use own_base::Area;
use std::marker::Model;

/// A disk in memory behind a fuse, which passes some calls and then fails every one. It doesn't count `faults` and
/// `moment`.
#[derive(Debug, Drop)]
pub struct FuseDisk {
    disk: MemDisk,
    left: u32,
    faults: u64,
}

impl Model for FuseDisk {
    ghost use Rattle.std.specs.Prelude.{◌<◌, ◌^◌};
    ghost use Rattle.outer_world.specs.FuseDisk.{FuseState};

    ghost Value = { FuseState };

    ghost view = { λ fuse. record { disk = fuse.disk; left = fuse.left; faults = fuse.faults } };

    ghost invariant = { λ fuse. fuse.faults < 2 ^ 64 };
}

impl FuseDisk {
    /// Passes so many calls of the disk. Takes no memory.
    pub fn new(disk: MemDisk, calls: u32) -> FuseDisk
        ensures disk { result.disk ≡ disk }
        ensures left { result.left ≡ calls }
        ensures faults { result.faults ≡ 0 }
    {
        FuseDisk {
            disk,
            left: calls,
            faults: 0,
        }
    }

    /// The disk behind the fuse. Takes no memory.
    pub fn inner(self) -> MemDisk
        ensures { result ≡ self.disk }
    {
        let FuseDisk { disk, .. } = self;
        disk
    }

    /// Passes a call, or fails it where none is left.
    fn pass(&mut self) -> Result<(), Failed>
        ensures blown { IsErr result ↔ (self.old.left ≡ 0) }
        ensures passed { OnOk result (self.new ≡ record self.old { left = self.old.left - 1 }) }
        ensures failed { OnErr result (self.new ≡ record self.old { faults = one_higher self.old.faults }) }
        ensures counted { self.old.faults ≤ self.new.faults }
    {
        if self.left == 0 {
            return Err(self.fail());
        }
        self.left -= 1;
        Ok(())
    }

    /// Counts a fault.
    fn fail(&mut self) -> Failed
        ensures risen { self.new ≡ record self.old { faults = one_higher self.old.faults } }
        ensures counted { self.old.faults ≤ self.new.faults }
    {
        self.faults = self.faults.saturating_add(1);
        Failed
    }
}

impl Disk for FuseDisk {
    ghost use Rattle.std.specs.Prelude.{true, length};
    ghost use Rattle.outer_world.specs.MayLeave.{MayLeave};
    ghost use Rattle.outer_world.specs.MemDisk.{area_now, MightHaveLeft};
    ghost use Rattle.outer_world.specs.MemDiskLaws.{mem_now_counts, mem_only_now, mem_reads_may_stay};

    ghost faults = { λ fuse. fuse.faults };

    ghost honest = { λ _. true };

    ghost holds = { λ fuse area. (area_now fuse.disk area).seen };

    ghost leaves = { λ fuse area bytes. MayLeave (area_now fuse.disk area) bytes };

    ghost moment = { λ fuse. length fuse.disk.calls };

    ghost might_have_left = { λ fuse since a b. MightHaveLeft fuse.disk since a b };

    ghost now_counts = { λ fuse since a b before in_a in_b. mem_now_counts fuse.disk since a b before in_a in_b };

    ghost only_now = { λ fuse a b might. mem_only_now fuse.disk a b might };

    ghost reads_may_stay = { λ fuse area _. mem_reads_may_stay fuse.disk area };

    fn len(&mut self, area: Area) -> Result<u64, Failed>
        ensures due { IsErr result ↔ IsToFail self.old }
        ensures told { IfOk result (λ len. len ≡ length (area_now self.old.disk area).seen) }
        ensures ok { OnOk result (self.new.disk ≡ record self.old.disk { plan = plan_after_success self.old.disk.plan }) }
        ensures left { self.new.left ≡ self.old.left - 1 }
        ensures fault { OnErr result (self.new.disk ≡ disk_after_fault self.old) }
        ensures risen { OnErr result (self.new.faults ≡ one_higher self.old.faults) }
        ensures steady { OnOk result (self.new.faults ≡ self.old.faults) }
        ensures counted { self.old.faults ≤ self.new.faults }
        ensures in_range { self.new.faults < 2 ^ 64 }
    {
        self.pass()?;
        match self.disk.len(area) {
            Ok(value) => Ok(value),
            Err(Failed) => Err(self.fail()),
        }
    }

    fn read_at(&mut self, area: Area, at: u64, into: &mut [u8]) -> Result<usize, Failed>
        ensures due { IsErr result ↔ IsToFail self.old }
        ensures count { IfOk result (λ count. count ≡ min (length into.old) (length (area_now self.old.disk area).seen - at)) }
        ensures piece { IfOk result (λ count. into.new ≡ take count (drop at (area_now self.old.disk area).seen) ++ drop count into.old) }
        ensures ok { OnOk result (self.new.disk ≡ record self.old.disk { plan = plan_after_success self.old.disk.plan }) }
        ensures left { self.new.left ≡ self.old.left - 1 }
        ensures fault { OnErr result (self.new.disk ≡ disk_after_fault self.old) }
        ensures risen { OnErr result (self.new.faults ≡ one_higher self.old.faults) }
        ensures steady { OnOk result (self.new.faults ≡ self.old.faults) }
        ensures counted { self.old.faults ≤ self.new.faults }
        ensures in_range { self.new.faults < 2 ^ 64 }
    {
        self.pass()?;
        match self.disk.read_at(area, at, into) {
            Ok(value) => Ok(value),
            Err(Failed) => Err(self.fail()),
        }
    }

    fn write_at(&mut self, area: Area, at: u64, bytes: &[u8]) -> Result<(), Failed>
        requires { at ≤ length (area_now self.old.disk area).seen }
        ensures due { IsToFail self.old → IsErr result }
        ensures ok { OnOk result (self.new.disk ≡ record self.old.disk {
          calls = self.old.disk.calls ++ record { area = area; change = Write at bytes.now } ∷ [];
          plan = plan_after_success self.old.disk.plan;
        }) }
        ensures left { self.new.left ≡ self.old.left - 1 }
        ensures fault { OnErr result (self.new.disk ≡ disk_after_fault self.old) }
        ensures risen { OnErr result (self.new.faults ≡ one_higher self.old.faults) }
        ensures steady { OnOk result (self.new.faults ≡ self.old.faults) }
        ensures counted { self.old.faults ≤ self.new.faults }
        ensures in_range { self.new.faults < 2 ^ 64 }
    {
        self.pass()?;
        match self.disk.write_at(area, at, bytes) {
            Ok(value) => Ok(value),
            Err(Failed) => Err(self.fail()),
        }
    }

    fn cut(&mut self, area: Area, len: u64) -> Result<(), Failed>
        requires { len ≤ length (area_now self.old.disk area).seen }
        ensures due { IsToFail self.old → IsErr result }
        ensures ok { OnOk result (self.new.disk ≡ record self.old.disk {
          calls = self.old.disk.calls ++ record { area = area; change = Cut len } ∷ [];
          plan = plan_after_success self.old.disk.plan;
        }) }
        ensures left { self.new.left ≡ self.old.left - 1 }
        ensures fault { OnErr result (self.new.disk ≡ disk_after_fault self.old) }
        ensures risen { OnErr result (self.new.faults ≡ one_higher self.old.faults) }
        ensures steady { OnOk result (self.new.faults ≡ self.old.faults) }
        ensures counted { self.old.faults ≤ self.new.faults }
        ensures in_range { self.new.faults < 2 ^ 64 }
    {
        self.pass()?;
        match self.disk.cut(area, len) {
            Ok(value) => Ok(value),
            Err(Failed) => Err(self.fail()),
        }
    }

    fn sync(&mut self, area: Area) -> Result<(), Failed>
        ensures due { IsToFail self.old → IsErr result }
        ensures ok { OnOk result (self.new.disk ≡ record self.old.disk {
          calls = self.old.disk.calls ++ record { area = area; change = Sync } ∷ [];
          plan = plan_after_success self.old.disk.plan;
        }) }
        ensures left { self.new.left ≡ self.old.left - 1 }
        ensures fault { OnErr result (self.new.disk ≡ disk_after_fault self.old) }
        ensures risen { OnErr result (self.new.faults ≡ one_higher self.old.faults) }
        ensures steady { OnOk result (self.new.faults ≡ self.old.faults) }
        ensures counted { self.old.faults ≤ self.new.faults }
        ensures in_range { self.new.faults < 2 ^ 64 }
    {
        self.pass()?;
        match self.disk.sync(area) {
            Ok(value) => Ok(value),
            Err(Failed) => Err(self.fail()),
        }
    }

    fn faults(&self) -> u64 {
        self.faults
    }

    fn moment(&self) -> u64 {
        self.disk.moment()
    }
}
