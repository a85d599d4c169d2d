//! Hints are numbers that stand beside items, or beside nodes for their first items, and tell where a key may be without
//! a look at an item. They are advice: whatever they say, what a caller does with them has to be right.

ghost use Rattle.std.specs.Prelude.{◌≤◌, length};

use page_model::PAGE_ITEMS;

/// The hints of a page's items, or of the nodes right below a node, in their order. The greatest number stands where there
/// is no item and no node. They lie in one piece with what they belong to, so that a look at one brings the others near.
#[derive(Clone, Copy)]
pub(crate) struct Hints {
    all: [u64; PAGE_ITEMS],
}

impl Hints {
    /// Those of a list, as far as there is room for them. Takes no memory.
    pub(crate) fn of(hints: &[u64]) -> Hints {
        let mut all = [u64::MAX; PAGE_ITEMS];
        let count = hints.len().min(PAGE_ITEMS);
        all[..count].copy_from_slice(&hints[..count]);
        Hints { all }
    }

    /// The hint at a place, 0 where there is room for none. Takes no memory.
    pub(crate) fn at(&self, place: usize) -> u64 {
        self.all.get(place).copied().unwrap_or(0)
    }

    /// The first ones, so many as there is room for at most. Takes no memory.
    pub(crate) fn first(&self, count: usize) -> &[u64] {
        first_hints(&self.all, count)
    }

    /// How many of a page's are below another. Of each eight the last is looked at first, and none of these looks waits for
    /// another. Takes no memory.
    pub(crate) fn below(&self, hint: u64) -> usize {
        let eights = usize::from(self.all[7] < hint)
            + usize::from(self.all[15] < hint)
            + usize::from(self.all[23] < hint);
        8 * eights + count_below(&self.all[8 * eights..8 * eights + 8], hint)
    }

    /// How many of a node's, of which there are 16 at most, aren't above another. Takes no memory.
    pub(crate) fn upto(&self, hint: u64) -> usize {
        let eights = usize::from(self.all[7] <= hint);
        8 * eights + count_upto(&self.all[8 * eights..8 * eights + 8], hint)
    }

    /// Puts one between them; where there is no room, the last one goes. Takes no memory.
    pub(crate) fn insert(&mut self, place: usize, hint: u64) {
        if place < PAGE_ITEMS {
            self.all.copy_within(place..PAGE_ITEMS - 1, place + 1);
            self.all[place] = hint;
        }
    }

    /// Takes one away. Takes no memory.
    pub(crate) fn remove(&mut self, place: usize) {
        if place < PAGE_ITEMS {
            self.all.copy_within(place + 1..PAGE_ITEMS, place);
            self.all[PAGE_ITEMS - 1] = u64::MAX;
        }
    }

    /// These with one more at a place, in two parts: so many, and those behind them. Takes no memory.
    pub(crate) fn cut(&self, place: usize, hint: u64, count: usize) -> (Hints, Hints) {
        let mut front = *self;
        front.insert(place, hint);
        let last = if place < PAGE_ITEMS {
            self.at(PAGE_ITEMS - 1)
        } else {
            hint
        };
        let mut back = Hints::of(hints_behind(&front.all, count));
        back.insert(PAGE_ITEMS.saturating_sub(count), last);
        (Hints::of(front.first(count)), back)
    }
}

/// How many hints are below another. Takes no memory.
pub(crate) fn count_below(hints: &[u64], hint: u64) -> usize
    ensures { result ≤ length hints.now }
{
    hints.partition_point(|each| *each < hint)
}

/// How many hints aren't above another. Takes no memory.
pub(crate) fn count_upto(hints: &[u64], hint: u64) -> usize
    ensures { result ≤ length hints.now }
{
    hints.partition_point(|each| *each <= hint)
}

/// The hints of so many items that stand first. Takes no memory.
pub(crate) fn first_hints(hints: &[u64], count: usize) -> &[u64] {
    &hints[..count.min(hints.len())]
}

/// The hints of the items behind so many. Takes no memory.
pub(crate) fn hints_behind(hints: &[u64], count: usize) -> &[u64] {
    &hints[count.min(hints.len())..]
}
