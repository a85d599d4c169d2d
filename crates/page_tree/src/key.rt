ghost use Rattle.std.specs.Prelude.{◌≡◌, ◌<◌, ◌≤◌, Bool, Option};
ghost use Rattle.std.specs.Cmp.{IsTotalOrder};
ghost use Rattle.std.specs.Option.{option_copied};
ghost use Rattle.std.specs.declared.cmp.Ordering.{Ordering as Order};
ghost use Rattle.page_model.specs.Bound.{IsMonotone};

use page_model::PAGE_ITEMS;
use std::cmp::Ordering;

/// How the key of an item is found, and the order of keys.
pub trait KeyOf<T>: Copy {
    type Key;

    // An item's key.
    ghost key_of: { Self → T → Self.Key };

    // The order of keys.
    ghost key_cmp: { Self.Key → Self.Key → Order };

    /// How the key of an item stands to a key.
    fn compare(self, item: &T, key: &Self::Key) -> Ordering
        ensures { result ≡ key_cmp (key_of self item.now) key.now };

    /// A number for the key of an item, by which it is looked for. It is advice alone: it should rise as keys rise, and
    /// be that of `key_hint` for this key; where it isn't, that costs time and never truth.
    fn item_hint(self, item: &T) -> u64;

    /// The number for a key, as `item_hint` has it for an item of this key.
    fn key_hint(self, key: &Self::Key) -> u64;

    /// How many items a page should have room for. It is advice alone: 2 is the least, and `PAGE_ITEMS` the most. Where items
    /// are large, fewer of them keep a page so small that the allocator has a piece of its size at hand.
    fn page_room(self) -> usize {
        PAGE_ITEMS
    }

    // The order is total.
    ghost total: { IsTotalOrder key_cmp };
}

/// A change of one key: an item is put there, or the key's item is taken away.
pub trait ChangeOf<T, K> {
    // The key.
    ghost changed: { Self → K };

    // The item that is put, None where the key's item is taken away.
    ghost put: { Self → Option T };

    /// Lends the key.
    fn key(&self) -> &K
        ensures { result.now ≡ changed self.now };

    /// Lends the item that is put, None where the key's item is taken away.
    fn item(&self) -> Option<&T>
        ensures { option_copied result ≡ put self.now };
}

/// A bound among items whose keys rise: those of lower keys stand below it, and the others don't. It may be of another type
/// than the key, and say less than a key does.
pub trait BoundOf<T, By: KeyOf<T>> {
    // Whether an item stands below the bound.
    ghost below: { Self → By → T → Bool };

    /// Whether an item stands below the bound.
    fn is_above(&self, by: By, item: &T) -> bool
        ensures { result ≡ below self.now by item.now };

    // What has a lower key than an item below the bound stands below it too.
    ghost monotone: { (bound : Self) (by : By) → IsMonotone (By.key_of by) By.key_cmp (below bound by) };
}

/// How many items a page has room for: what is advised, within its bounds. Takes no memory.
pub(crate) fn room_of<T, By: KeyOf<T>>(by: By) -> usize
    ensures some { 1 < result }
    ensures fits { result ≤ PAGE_ITEMS }
{
    by.page_room().max(2).min(PAGE_ITEMS)
}
