ghost use Rattle.std.specs.Prelude.{◌≡◌, ℕ, ◌<◌, ◌≤◌, ◌^◌, List, Option, None, ⊤, length, take, IfOk, OnOk, OnErr};
ghost use Rattle.std.specs.Io.KnownBytes.{Consumes, IsAtEnd, Keeps};
ghost use Rattle.outer_world.specs.FaultCount.{CountRose};

use crate::failed::Failed;

/// Where input comes from. It keeps a count of its faults, a u64 that never falls.
///
/// Each error makes the call answer `Failed` and raises the count. An interruption of the system that a later try makes
/// good is no error.
pub trait Source {
    // The count of its faults.
    ghost faults: { Self → ℕ };

    // The bytes that are left, where the source tells them.
    ghost remaining: { Self → Option (List ℕ) } = { λ _. None };

    // Holds of the states before and after a call that fails, as far as the source tells.
    ghost fails: { Self → Self → Type 0 } = { λ _ _. ⊤ };

    /// Puts the next bytes at the front of the piece and answers how many. None, for a piece that isn't empty, is
    /// the end. What stands in the piece after those bytes, or after `Failed`, is left open.
    fn read(&mut self, into: &mut [u8]) -> Result<usize, Failed>
        ensures within { IfOk result (λ count. count ≤ length into.new) }
        ensures given { IfOk result (λ count.
            Consumes (remaining self.old) (remaining self.new) (take count into.new)) }
        ensures end { IfOk result (λ count.
            count ≡ 0 → 0 < length into.new → IsAtEnd (remaining self.new)) }

        ensures fault { OnErr result (CountRose (faults self.old) (faults self.new)) }
        ensures failed { OnErr result (fails self.old self.new) }
        ensures steady { OnOk result (faults self.new ≡ faults self.old) }
        ensures kept { OnErr result (Keeps (remaining self.old) (remaining self.new)) }

        ensures counted { faults self.old ≤ faults self.new }
        ensures in_range { faults self.new < 2 ^ 64 };
}
