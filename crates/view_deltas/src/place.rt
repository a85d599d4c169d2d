ghost use Rattle.std.specs.Prelude.{◌≡◌};
ghost use Rattle.view_deltas.specs.Place.{side_cmp};

use own_base::Key;
use page_tree::KeyOf;
use std::cmp::Ordering;
use table_part::{hint_before, hint_behind};

/// Where a row stands in its view. In a view of one table that is the key of the table's row; in a join the keys of both rows;
/// in a grouped view the value of the group, none for NULL.
pub type Place = (Option<Key>, Option<Key>);

/// How a key that may be missing stands to another: a missing one before all others. Takes no memory.
fn compare_sides(one: &Option<Key>, other: &Option<Key>) -> Ordering
    ensures { result ≡ side_cmp one.now other.now }
{
    match (one, other) {
        (None, None) => Ordering::Equal,
        (None, Some(_)) => Ordering::Less,
        (Some(_), None) => Ordering::Greater,
        (Some(one), Some(other)) => one.compare(other),
    }
}

/// The hint of a place: that of its keys.
fn hint_of_place(place: &Place) -> u64 {
    match place {
        (None, _) => 0,
        (Some(first), None) => hint_before(first, 0),
        (Some(first), Some(second)) => hint_before(first, hint_behind(second)),
    }
}

/// How many places a page has room for. With what is kept at each they take some 800 bytes.
const ROOM: usize = 16;

/// What is kept at places is found by its place.
#[derive(Clone, Copy, Debug)]
pub(crate) struct ByPlace;

impl<T> KeyOf<(Place, T)> for ByPlace {
    type Key = Place;

    ghost use Rattle.view_deltas.specs.Place.{place_cmp};
    ghost use Rattle.view_deltas.specs.PlaceOrder.{place_total};

    ghost key_of = { λ _ entry. entry.0 };

    ghost key_cmp = { place_cmp };

    fn compare(self, entry: &(Place, T), place: &Place) -> Ordering {
        match compare_sides(&entry.0.0, &place.0) {
            Ordering::Equal => compare_sides(&entry.0.1, &place.1),
            apart => apart,
        }
    }

    fn item_hint(self, entry: &(Place, T)) -> u64 {
        hint_of_place(&entry.0)
    }

    fn key_hint(self, place: &Place) -> u64 {
        hint_of_place(place)
    }

    fn page_room(self) -> usize {
        ROOM
    }

    ghost total = { place_total };
}
