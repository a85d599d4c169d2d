ghost use Rattle.std.specs.Prelude.{◌≡◌};

use crate::ordered::Ordered;
use page_tree::KeyOf;
use std::cmp::Ordering;

/// A pair is its own key, by its left side, then by its right one.
#[derive(Clone, Copy, Debug)]
pub(crate) struct ByPair;

impl<A: Ordered, B: Ordered> KeyOf<(A, B)> for ByPair {
    type Key = (A, B);

    ghost use Rattle.ordered_pairs.specs.PairOrder.{pair_cmp, pair_total};

    ghost key_of = { λ _ pair. pair };

    ghost key_cmp = { pair_cmp A.order B.order };

    fn compare(self, item: &(A, B), key: &(A, B)) -> Ordering {
        match item.0.compare(&key.0) {
            Ordering::Equal => item.1.compare(&key.1),
            apart => apart,
        }
    }

    fn item_hint(self, item: &(A, B)) -> u64 {
        item.0.hint_before(item.1.hint_behind())
    }

    fn key_hint(self, key: &(A, B)) -> u64 {
        key.0.hint_before(key.1.hint_behind())
    }

    ghost total = { pair_total A.order B.order A.total B.total };
}
