ghost use Rattle.std.specs.Prelude.{◌≡◌, [], ◌∷◌, ◌<◌, ◌≤◌, ◌^◌, ◌+◌, length, take, IfOk, IsOk, OnOk, OnErr};
ghost use Rattle.outer_world.specs.FaultCount.{one_higher};
ghost use Rattle.outer_world.specs.Overwritten.{overwritten};
ghost use Rattle.outer_world.specs.RamDisk.{RamState, held, with_area};

use crate::disk::Disk;
use crate::failed::Failed;
use crate::past_bytes::PastBytes;
use own_base::Area;
use std::marker::Model;

/// A disk in memory for a store that is kept nowhere: it keeps the lengths of its two areas, and none of their bytes, which
/// only clauses see. So it takes no memory, and a read of a byte fails. A crash leaves what the areas hold.
#[derive(Drop)]
pub struct UnreadDisk {
    a: u64,
    b: u64,
    // How many changes were made, and what the areas hold and held before each, which only clauses read.
    moment: u64,
    past: PastBytes,
    faults: u64,
}

impl Model for UnreadDisk {
    ghost use Rattle.std.specs.Prelude.{◌≡◌, ◌<◌, ◌^◌, length};
    ghost use Rattle.outer_world.specs.RamDisk.{RamState};

    ghost Value = { RamState };

    ghost view = { λ disk. record {
      a = disk.past.now.0;
      b = disk.past.now.1;
      past = disk.past.before;
      faults = disk.faults;
    } };

    ghost invariant = { λ disk. (disk.a ≡ length disk.past.now.0) × (disk.b ≡ length disk.past.now.1)
        × (disk.moment ≡ length disk.past.before) × (disk.faults < 2 ^ 64) };
}

impl UnreadDisk {
    /// A disk of two empty areas. Takes no memory.
    pub fn new() -> UnreadDisk
        ensures { result ≡ record { a = []; b = []; past = []; faults = 0 } }
    {
        UnreadDisk {
            a: 0,
            b: 0,
            moment: 0,
            past: PastBytes::new(),
            faults: 0,
        }
    }

    /// How many bytes an area holds.
    fn length_of(&self, area: Area) -> u64
        ensures told { result ≡ length (held self.now area) }
        ensures in_range { self.now.faults < 2 ^ 64 }
    {
        let _faults = self.faults;
        match area {
            Area::A => self.a,
            Area::B => self.b,
        }
    }

    /// Counts a fault.
    fn fail(&mut self) -> Failed
        ensures risen { self.new ≡ record self.old { faults = one_higher self.old.faults } }
        ensures counted { self.old.faults ≤ self.new.faults }
        ensures in_range { self.new.faults < 2 ^ 64 }
    {
        self.faults = self.faults.saturating_add(1);
        Failed
    }

    /// Takes the length that an area has after bytes were written, at that moment.
    fn note_write(&mut self, area: Area, moment: u64, at: u64, bytes: &[u8], end: u64)
        requires { (at ≤ length (held self.old area)) × (end ≡ at + length bytes.now) × (moment ≡ length self.old.past + 1) }
        ensures changed { self.new ≡ with_area self.old area (overwritten (held self.old area) at bytes.now) }
        ensures in_range { self.new.faults < 2 ^ 64 }
    {
        match area {
            Area::A => {
                self.past.note_write(true, at, bytes);
                self.a = self.a.max(end);
            }
            Area::B => {
                self.past.note_write(false, at, bytes);
                self.b = self.b.max(end);
            }
        }
        self.moment = moment;
    }

    /// Takes the length to which an area is cut, at that moment.
    fn note_cut(&mut self, area: Area, moment: u64, len: u64)
        requires { (len ≤ length (held self.old area)) × (moment ≡ length self.old.past + 1) }
        ensures changed { self.new ≡ with_area self.old area (take len (held self.old area)) }
        ensures in_range { self.new.faults < 2 ^ 64 }
    {
        match area {
            Area::A => {
                self.past.note_cut(true, len);
                self.a = len;
            }
            Area::B => {
                self.past.note_cut(false, len);
                self.b = len;
            }
        }
        self.moment = moment;
    }
}

impl Disk for UnreadDisk {
    ghost use Rattle.std.specs.Prelude.{◌≡◌, ◌∷◌, true, length, refl};
    ghost use Rattle.outer_world.specs.RamDisk.{held, HeldSince};
    ghost use Rattle.outer_world.specs.RamDiskLaws.{ram_now_counts, ram_only_now};

    ghost faults = { λ disk. disk.faults };

    ghost honest = { λ _. true };

    ghost holds = { λ disk area. held disk area };

    ghost leaves = { λ disk area bytes. bytes ≡ held disk area };

    ghost moment = { λ disk. length disk.past };

    ghost might_have_left = { λ disk since a b. HeldSince ((disk.a, disk.b) ∷ disk.past) since a b };

    ghost now_counts = { ram_now_counts };

    ghost only_now = { ram_only_now };

    ghost reads_may_stay = { λ disk area _. refl };

    fn len(&mut self, area: Area) -> Result<u64, Failed>
        ensures ok { IsOk result }
        ensures told { IfOk result (λ len. len ≡ length (held self.old area)) }
        ensures same { self.new ≡ self.old }
        ensures in_range { self.new.faults < 2 ^ 64 }
    {
        Ok(self.length_of(area))
    }

    fn read_at(&mut self, area: Area, at: u64, into: &mut [u8]) -> Result<usize, Failed>
        ensures nothing { IfOk result (λ count. count ≡ 0) }
        ensures end { OnOk result (0 < length into.old → length (held self.old area) ≤ at) }
        ensures piece { into.new ≡ into.old }
        ensures same { OnOk result (self.new ≡ self.old) }
        ensures fault { OnErr result (self.new ≡ record self.old { faults = one_higher self.old.faults }) }
        ensures counted { self.old.faults ≤ self.new.faults }
        ensures in_range { self.new.faults < 2 ^ 64 }
    {
        let len = self.length_of(area);
        if into.is_empty() || len <= at {
            return Ok(0);
        }
        Err(self.fail())
    }

    fn write_at(&mut self, area: Area, at: u64, bytes: &[u8]) -> Result<(), Failed>
        requires { at ≤ length (held self.old area) }
        ensures ok { OnOk result (self.new ≡ with_area self.old area (overwritten (held self.old area) at bytes.now)) }
        ensures fault { OnErr result (self.new ≡ record self.old { faults = one_higher self.old.faults }) }
        ensures counted { self.old.faults ≤ self.new.faults }
        ensures in_range { self.new.faults < 2 ^ 64 }
    {
        let moment = self.moment.checked_add(1);
        let end = at.checked_add(bytes.len() as u64);
        let (Some(moment), Some(end)) = (moment, end) else {
            return Err(self.fail());
        };
        self.note_write(area, moment, at, bytes, end);
        Ok(())
    }

    fn cut(&mut self, area: Area, len: u64) -> Result<(), Failed>
        requires { len ≤ length (held self.old area) }
        ensures ok { OnOk result (self.new ≡ with_area self.old area (take len (held self.old area))) }
        ensures fault { OnErr result (self.new ≡ record self.old { faults = one_higher self.old.faults }) }
        ensures counted { self.old.faults ≤ self.new.faults }
        ensures in_range { self.new.faults < 2 ^ 64 }
    {
        let Some(moment) = self.moment.checked_add(1) else {
            return Err(self.fail());
        };
        self.note_cut(area, moment, len);
        Ok(())
    }

    fn sync(&mut self, area: Area) -> Result<(), Failed>
        ensures ok { IsOk result }
        ensures same { self.new ≡ self.old }
        ensures in_range { self.new.faults < 2 ^ 64 }
    {
        let _length = self.length_of(area);
        Ok(())
    }

    fn faults(&self) -> u64 {
        self.faults
    }

    fn moment(&self) -> u64 {
        self.moment
    }
}
