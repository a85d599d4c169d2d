ghost use Rattle.std.specs.Prelude.{◌≡◌, [], ◌∷◌, ◌-◌, ◌<◌, ◌≤◌, ◌^◌, ◌++◌, length, take, drop, min, IfOk, IsOk, OnOk, OnErr};
ghost use Rattle.outer_world.specs.FaultCount.{one_higher};
ghost use Rattle.outer_world.specs.Overwritten.{overwritten};
ghost use Rattle.outer_world.specs.RamDisk.{RamState, held, with_area};

use crate::disk::Disk;
use crate::failed::Failed;
use crate::mem_area::overwrite_bytes;
use crate::mem_disk::copy_from;
use crate::past_bytes::PastBytes;
use own_base::Area;
use std::alloc::Global;
use std::marker::Model;

/// A disk in memory that keeps the bytes of its two areas, and nothing of what they were. It fails only where memory is
/// refused, or at its 2^64th change. A crash leaves what reads give.
#[derive(Drop)]
pub struct RamDisk {
    a: Vec<u8>,
    b: Vec<u8>,
    // How many changes were made, and what the areas held before each, which only clauses read.
    moment: u64,
    past: PastBytes,
    faults: u64,
}

impl Model for RamDisk {
    ghost use Rattle.std.specs.Prelude.{◌≡◌, ◌<◌, ◌^◌, length};
    ghost use Rattle.outer_world.specs.RamDisk.{RamState};

    ghost Value = { RamState };

    ghost view = { λ disk. record {
      a = disk.a.items;
      b = disk.b.items;
      past = disk.past.before;
      faults = disk.faults;
    } };

    ghost invariant = { λ disk. (disk.past.now ≡ (disk.a.items, disk.b.items))
        × (disk.moment ≡ length disk.past.before) × (disk.faults < 2 ^ 64) };
}

impl RamDisk {
    /// A disk of two empty areas. Takes no memory.
    pub fn new(alloc: Global) -> RamDisk
        ensures { result ≡ record { a = []; b = []; past = []; faults = 0 } }
    {
        RamDisk {
            a: Vec::new(alloc),
            b: Vec::new(alloc),
            moment: 0,
            past: PastBytes::new(),
            faults: 0,
        }
    }

    fn bytes(&self, area: Area) -> &[u8]
        ensures { result.now ≡ held self.now area }
    {
        match area {
            Area::A => self.a.as_slice(),
            Area::B => self.b.as_slice(),
        }
    }

    /// Does nothing: clauses see by it that the count of faults is a u64.
    fn tell_range(&self)
        ensures { self.now.faults < 2 ^ 64 }
    {
        let _faults = self.faults;
    }

    /// Counts a fault.
    fn fail(&mut self) -> Failed
        ensures risen { self.new ≡ record self.old { faults = one_higher self.old.faults } }
        ensures counted { self.old.faults ≤ self.new.faults }
        ensures in_range { self.new.faults < 2 ^ 64 }
    {
        self.faults = self.faults.saturating_add(1);
        Failed
    }
}

impl Disk for RamDisk {
    ghost use Rattle.std.specs.Prelude.{◌≡◌, ◌∷◌, true, length, refl};
    ghost use Rattle.outer_world.specs.RamDisk.{held, HeldSince};
    ghost use Rattle.outer_world.specs.RamDiskLaws.{ram_now_counts, ram_only_now};

    ghost faults = { λ disk. disk.faults };

    ghost honest = { λ _. true };

    ghost holds = { λ disk area. held disk area };

    ghost leaves = { λ disk area bytes. bytes ≡ held disk area };

    ghost moment = { λ disk. length disk.past };

    ghost might_have_left = { λ disk since a b. HeldSince ((disk.a, disk.b) ∷ disk.past) since a b };

    ghost now_counts = { ram_now_counts };

    ghost only_now = { ram_only_now };

    ghost reads_may_stay = { λ disk area _. refl };

    fn len(&mut self, area: Area) -> Result<u64, Failed>
        ensures ok { IsOk result }
        ensures told { IfOk result (λ len. len ≡ length (held self.old area)) }
        ensures same { self.new ≡ self.old }
        ensures in_range { self.new.faults < 2 ^ 64 }
    {
        self.tell_range();
        Ok(self.bytes(area).len() as u64)
    }

    fn read_at(&mut self, area: Area, at: u64, into: &mut [u8]) -> Result<usize, Failed>
        ensures ok { IsOk result }
        ensures count { IfOk result (λ count.
            count ≡ min (length into.old) (length (held self.old area) - at)) }
        ensures piece { IfOk result (λ count.
            into.new ≡ take count (drop at (held self.old area)) ++ drop count into.old) }
        ensures same { self.new ≡ self.old }
        ensures in_range { self.new.faults < 2 ^ 64 }
    {
        self.tell_range();
        Ok(copy_from(self.bytes(area), at, into))
    }

    fn write_at(&mut self, area: Area, at: u64, bytes: &[u8]) -> Result<(), Failed>
        requires { at ≤ length (held self.old area) }
        ensures ok { OnOk result (self.new ≡ with_area self.old area (overwritten (held self.old area) at bytes.now)) }
        ensures fault { OnErr result (self.new ≡ record self.old { faults = one_higher self.old.faults }) }
        ensures counted { self.old.faults ≤ self.new.faults }
        ensures in_range { self.new.faults < 2 ^ 64 }
    {
        let Some(moment) = self.moment.checked_add(1) else {
            return Err(self.fail());
        };
        let written = match area {
            Area::A => overwrite_bytes(&mut self.a, at as usize, bytes),
            Area::B => overwrite_bytes(&mut self.b, at as usize, bytes),
        };
        if written.is_err() {
            return Err(self.fail());
        }
        self.past.note(&self.a, &self.b);
        self.moment = moment;
        Ok(())
    }

    fn cut(&mut self, area: Area, len: u64) -> Result<(), Failed>
        requires { len ≤ length (held self.old area) }
        ensures ok { OnOk result (self.new ≡ with_area self.old area (take len (held self.old area))) }
        ensures fault { OnErr result (self.new ≡ record self.old { faults = one_higher self.old.faults }) }
        ensures counted { self.old.faults ≤ self.new.faults }
        ensures in_range { self.new.faults < 2 ^ 64 }
    {
        let Some(moment) = self.moment.checked_add(1) else {
            return Err(self.fail());
        };
        match area {
            Area::A => self.a.truncate(len as usize),
            Area::B => self.b.truncate(len as usize),
        }
        self.past.note(&self.a, &self.b);
        self.moment = moment;
        Ok(())
    }

    fn sync(&mut self, _area: Area) -> Result<(), Failed>
        ensures ok { IsOk result }
        ensures same { self.new ≡ self.old }
        ensures in_range { self.new.faults < 2 ^ 64 }
    {
        self.tell_range();
        Ok(())
    }

    fn faults(&self) -> u64 {
        self.faults
    }

    fn moment(&self) -> u64 {
        self.moment
    }
}
