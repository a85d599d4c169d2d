ghost use Rattle.std.specs.Prelude.{◌≡◌, ℕ, List, [], ◌∷◌};
ghost use Rattle.std.specs.Borrow.{ftrue};
ghost use Rattle.outer_world.specs.PastBytes.{cut_pair, written_pair};

use std::marker::{Model, PhantomData};

/// What the two areas of a disk hold and held, as clauses see it: it has no bytes, and its methods do nothing at run time.
#[derive(Drop)]
pub(crate) struct PastBytes {
    marker: PhantomData<u8>,
    pub(crate) ghost now: { List ℕ × List ℕ },
    // before each change, the latest first
    pub(crate) ghost before: { List (List ℕ × List ℕ) },
}

impl Model for PastBytes {
    ghost also_owns = { λ _. ftrue };
}

// It owns nothing.
unsafe impl Send for PastBytes {}

impl PastBytes {
    /// Two areas without bytes, before any change. Takes no memory.
    pub(crate) fn new() -> PastBytes
        ensures { (result.now ≡ ([], [])) × (result.before ≡ []) }
    {
        PastBytes {
            marker: PhantomData,
        }
    }

    /// What they hold after a change. Takes no memory.
    pub(crate) fn note(&mut self, _a: &[u8], _b: &[u8])
        ensures { (self.new.now ≡ (_a.now, _b.now)) × (self.new.before ≡ self.old.now ∷ self.old.before) }
    {}
    /// What they hold after bytes were written at a place of area A, or else of B. Takes no memory.
    pub(crate) fn note_write(&mut self, _in_a: bool, _at: u64, _piece: &[u8])
        ensures { (self.new.now ≡ written_pair self.old.now _in_a _at _piece.now) × (self.new.before ≡ self.old.now ∷ self.old.before) }
    {}

    /// What they hold after area A, or else B, was cut to a length. Takes no memory.
    pub(crate) fn note_cut(&mut self, _in_a: bool, _len: u64)
        ensures { (self.new.now ≡ cut_pair self.old.now _in_a _len) × (self.new.before ≡ self.old.now ∷ self.old.before) }
    {}
}
