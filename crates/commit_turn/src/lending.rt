// Apart from the type, since its clause names the type's row.
ghost use Rattle.std.specs.Prelude.{◌≡◌};
ghost use Rattle.std.specs.Borrow.{Lends, sem};
ghost use Rattle.commit_turn.specs.contracts.held.Held.{the_row};
ghost use Rattle.commit_turn.specs.HeldWith.{held_with};

use crate::held::Held;

impl<T> Held<T> {
    /// Lends the value, to be read and changed. When that ends, the value behind the turn is what was left. Takes no memory.
    pub fn value(&mut self) -> &mut T
        ensures* writes_back { sem 𝓛 (Lends (the_row T.row) T.row self.entry result (held_with self.old)) }
        ensures value { result.now ≡ self.old.value }
    {
        &mut self.value
    }
}
