ghost use Rattle.std.specs.Prelude.{◌≡◌, ℕ, ◌<◌, ◌≤◌, ◌^◌, List, Option, None, ⊤, length, take, IfOk, OnOk, OnErr};
ghost use Rattle.std.specs.Io.KnownBytes.{Appends, Keeps};
ghost use Rattle.outer_world.specs.FaultCount.{CountRose};

use crate::failed::Failed;

/// Where output goes. It keeps a count of its faults, a u64 that never falls.
///
/// Each error makes the call answer `Failed` and raises the count. An interruption of the system that a later try makes
/// good is no error.
pub trait Sink {
    // The count of its faults.
    ghost faults: { Self → ℕ };

    // The bytes written so far, where the sink tells them.
    ghost written: { Self → Option (List ℕ) } = { λ _. None };

    // Holds of the states before and after a call that fails, as far as the sink tells.
    ghost fails: { Self → Self → Type 0 } = { λ _ _. ⊤ };

    /// Takes bytes from the front of the piece and answers how many: at least one, where the piece isn't empty.
    fn write(&mut self, piece: &[u8]) -> Result<usize, Failed>
        ensures within { IfOk result (λ count. count ≤ length piece.now) }
        ensures progress { IfOk result (λ count. 0 < length piece.now → 0 < count) }
        ensures taken { IfOk result (λ count.
            Appends (written self.old) (written self.new) (take count piece.now)) }

        ensures fault { OnErr result (CountRose (faults self.old) (faults self.new)) }
        ensures failed { OnErr result (fails self.old self.new) }
        ensures steady { OnOk result (faults self.new ≡ faults self.old) }
        ensures kept { OnErr result (Keeps (written self.old) (written self.new)) }

        ensures counted { faults self.old ≤ faults self.new }
        ensures in_range { faults self.new < 2 ^ 64 };
}
