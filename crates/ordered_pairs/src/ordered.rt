ghost use Rattle.std.specs.Prelude.{◌≡◌};
ghost use Rattle.std.specs.Cmp.{IsTotalOrder};
ghost use Rattle.std.specs.declared.cmp.Ordering.{Ordering as Order};
ghost use Rattle.std.specs.declared.cmp.Ordering.TheVariants.{Equal};

use own_base::Key;
use std::cmp::Ordering;
use table_part::{hint_before, hint_behind};

/// A type whose values stand in a total order in which no two of them tie.
pub trait Ordered {
    // The order.
    ghost order: { Self → Self → Order };

    /// How this value stands to another. Takes no memory.
    fn compare(&self, other: &Self) -> Ordering
        ensures { result ≡ order self.now other.now };

    /// A number below 2^32 for a value that stands on the right of a pair, by which the pair is looked for. It is advice alone:
    /// it should rise as values do; where it doesn't, that costs time and never truth.
    fn hint_behind(&self) -> u64;

    /// A number for a pair that has this value on the left, and on the right one of that hint. It is advice, too, and should rise
    /// as pairs do.
    fn hint_before(&self, behind: u64) -> u64;

    // The order is total.
    ghost total: { IsTotalOrder order };

    // Values that tie are one.
    ghost exact: { (one other : Self) → order one other ≡ Equal → one ≡ other };
}

impl Ordered for Key {
    ghost use Rattle.own_base.specs.Key.{key_cmp};
    ghost use Rattle.own_model.proofs.KeyOrder.{key_order};
    ghost use Rattle.ordered_pairs.specs.KeyExact.{key_exact};

    ghost order = { key_cmp };

    fn compare(&self, other: &Key) -> Ordering {
        Key::compare(self, other)
    }

    fn hint_behind(&self) -> u64 {
        hint_behind(self)
    }

    fn hint_before(&self, behind: u64) -> u64 {
        hint_before(self, behind)
    }

    ghost total = { key_order };

    ghost exact = { key_exact };
}
