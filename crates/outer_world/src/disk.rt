ghost use Rattle.std.specs.Prelude.{◌≡◌, ℕ, ◌<◌, ◌≤◌, ◌^◌, List, Bool, length, take, drop, IsTrue, IfOk, OnOk, OnErr};
ghost use Rattle.own_base.specs.declared.number.Area.{Area};
ghost use Rattle.own_base.specs.declared.number.Area.TheVariants.{A, B};
ghost use Rattle.outer_world.specs.Elapses.{Elapses};
ghost use Rattle.outer_world.specs.FaultCount.{CountRose};
ghost use Rattle.outer_world.specs.Follows.{Follows};
ghost use Rattle.outer_world.specs.IsSynced.{IsSynced};
ghost use Rattle.outer_world.specs.Overwritten.{overwritten};
ghost use Rattle.outer_world.specs.Stays.{Stays, StaysBeside};
ghost use Rattle.outer_world.specs.Torn.{Torn};
ghost use Rattle.outer_world.specs.TornCut.{TornCut};

use crate::failed::Failed;
use own_base::Area;

/// Where the store keeps its state: two areas of bytes. It keeps a count of its faults, a u64 that never falls.
///
/// Each error makes the call answer `Failed` and raises the count. A call that fails may have done all, part or
/// nothing of its work. An honest disk tells what it holds and what a crash may leave; of any other only the count is
/// known.
pub trait Disk {
    // The count of its faults.
    ghost faults: { Self → ℕ };

    // Whether what the disk tells of its bytes is so.
    ghost honest: { Self → Bool };

    // The bytes that reads of an area give.
    ghost holds: { Self → Area → List ℕ };

    // What a crash now may leave in an area, whatever it leaves in the other.
    ghost leaves: { Self → Area → List ℕ → Type 0 };

    // The moment, which never falls.
    ghost moment: { Self → ℕ };

    // What a crash at some moment, from that one to now, might have left in the two areas.
    ghost might_have_left: { Self → ℕ → List ℕ → List ℕ → Type 0 };

    /// The length of an area.
    fn len(&mut self, area: Area) -> Result<u64, Failed>
        ensures told { IfOk result (λ len. IsTrue (honest self.old) → len ≡ length (holds self.old area)) }

        ensures same_a { IsTrue (honest self.old) → Stays holds leaves A self.old self.new }
        ensures same_b { IsTrue (honest self.old) → Stays holds leaves B self.old self.new }
        ensures honesty { honest self.new ≡ honest self.old }
        ensures time { Elapses leaves moment might_have_left self.old self.new }

        ensures fault { OnErr result (CountRose (faults self.old) (faults self.new)) }
        ensures steady { OnOk result (faults self.new ≡ faults self.old) }
        ensures counted { faults self.old ≤ faults self.new }
        ensures in_range { faults self.new < 2 ^ 64 };

    /// Puts bytes of the area, from a place on, at the front of the piece, and answers how many: at least one, where
    /// there are any and the piece isn't empty. What stands in the piece after those bytes, or after `Failed`, is left
    /// open.
    fn read_at(&mut self, area: Area, at: u64, into: &mut [u8]) -> Result<usize, Failed>
        ensures within { IfOk result (λ count. count ≤ length into.new) }
        ensures given { IfOk result (λ count. IsTrue (honest self.old)
            → take count into.new ≡ take count (drop at (holds self.old area))) }
        ensures there { IfOk result (λ count. IsTrue (honest self.old)
            → count ≤ length (drop at (holds self.old area))) }
        ensures progress { IfOk result (λ count. IsTrue (honest self.old)
            → at < length (holds self.old area) → 0 < length into.new → 0 < count) }

        ensures same_a { IsTrue (honest self.old) → Stays holds leaves A self.old self.new }
        ensures same_b { IsTrue (honest self.old) → Stays holds leaves B self.old self.new }
        ensures honesty { honest self.new ≡ honest self.old }
        ensures time { Elapses leaves moment might_have_left self.old self.new }

        ensures fault { OnErr result (CountRose (faults self.old) (faults self.new)) }
        ensures steady { OnOk result (faults self.new ≡ faults self.old) }
        ensures counted { faults self.old ≤ faults self.new }
        ensures in_range { faults self.new < 2 ^ 64 };

    /// Writes all the bytes at a place, over what stands there and past the end. A crash before the next sync that
    /// succeeds may leave any bytes in their places.
    fn write_at(&mut self, area: Area, at: u64, bytes: &[u8]) -> Result<(), Failed>
        requires { IsTrue (honest self.old) → at ≤ length (holds self.old area) }

        ensures written { OnOk result (IsTrue (honest self.old)
            → holds self.new area ≡ overwritten (holds self.old area) at bytes.now) }
        ensures torn { IsTrue (honest self.old)
            → Follows leaves area (Torn at (length bytes.now)) self.old self.new }
        ensures beside { IsTrue (honest self.old) → StaysBeside holds leaves area self.old self.new }
        ensures honesty { honest self.new ≡ honest self.old }
        ensures time { Elapses leaves moment might_have_left self.old self.new }

        ensures fault { OnErr result (CountRose (faults self.old) (faults self.new)) }
        ensures steady { OnOk result (faults self.new ≡ faults self.old) }
        ensures counted { faults self.old ≤ faults self.new }
        ensures in_range { faults self.new < 2 ^ 64 };

    /// Cuts an area to a length. A crash before the next sync that succeeds may leave any bytes behind that length, up
    /// to the old one.
    fn cut(&mut self, area: Area, len: u64) -> Result<(), Failed>
        requires { IsTrue (honest self.old) → len ≤ length (holds self.old area) }

        ensures cut { OnOk result (IsTrue (honest self.old)
            → holds self.new area ≡ take len (holds self.old area)) }
        ensures torn { IsTrue (honest self.old) → Follows leaves area (TornCut len) self.old self.new }
        ensures beside { IsTrue (honest self.old) → StaysBeside holds leaves area self.old self.new }
        ensures honesty { honest self.new ≡ honest self.old }
        ensures time { Elapses leaves moment might_have_left self.old self.new }

        ensures fault { OnErr result (CountRose (faults self.old) (faults self.new)) }
        ensures steady { OnOk result (faults self.new ≡ faults self.old) }
        ensures counted { faults self.old ≤ faults self.new }
        ensures in_range { faults self.new < 2 ^ 64 };

    /// Makes durable what was written: where it succeeds, a crash leaves what a read gives.
    fn sync(&mut self, area: Area) -> Result<(), Failed>
        ensures durable { OnOk result (IsTrue (honest self.old) → IsSynced holds leaves area self.new) }

        ensures same_a { IsTrue (honest self.old) → Stays holds leaves A self.old self.new }
        ensures same_b { IsTrue (honest self.old) → Stays holds leaves B self.old self.new }
        ensures honesty { honest self.new ≡ honest self.old }
        ensures time { Elapses leaves moment might_have_left self.old self.new }

        ensures fault { OnErr result (CountRose (faults self.old) (faults self.new)) }
        ensures steady { OnOk result (faults self.new ≡ faults self.old) }
        ensures counted { faults self.old ≤ faults self.new }
        ensures in_range { faults self.new < 2 ^ 64 };

    /// The count of faults. Takes no memory.
    fn faults(&self) -> u64
        ensures { result ≡ faults self.now };

    /// The moment. Takes no memory.
    fn moment(&self) -> u64
        ensures { result ≡ moment self.now };

    // What a crash now may leave is among what it might have left since an earlier moment.
    ghost now_counts: { (disk : Self) (since : ℕ) (a b : List ℕ) → since ≤ moment disk
        → leaves disk A a → leaves disk B b → might_have_left disk since a b };

    // Since this very moment there is no other.
    ghost only_now: { (disk : Self) (a b : List ℕ) → might_have_left disk (moment disk) a b
        → leaves disk A a × leaves disk B b };

    // What reads of an honest disk give is among what a crash may leave.
    ghost reads_may_stay: { (disk : Self) (area : Area) → IsTrue (honest disk) → leaves disk area (holds disk area) };
}
