ghost use Rattle.std.specs.Prelude.{◌≡◌, ◌<◌, ◌≤◌, ◌-◌, ◌^◌, Some, drop, length, slice_get, take};
ghost use Rattle.std.specs.Ordering.{is_eq, is_lt};
ghost use Rattle.own_base.specs.Key.{key_cmp};
ghost use Rattle.own_model.specs.Db.{Row as Values, key_of};
ghost use Rattle.own_model.specs.Stored.{rows_at};
ghost use Rattle.page_model.specs.Changed.{above_key, below_key};
ghost use Rattle.page_model.specs.Place.{IsPlaceOf};
ghost use Rattle.page_model.specs.Rising.{IsRising};

use own_base::{Key, TableNo};
use own_model::{StoreView, TableDef};
use row_reading::compare_key;

/// Whether the row at a place is below a key. Takes no memory.
fn is_below<V: StoreView>(
    base: &V,
    table: TableNo,
    definition: &TableDef,
    key: &Key,
    place: u64,
) -> bool
    requires { table.0 < length (V.db base.now).schema.tables }
    ensures { (row : Values) → slice_get (rows_at (V.db base.now).rows table.0) place ≡ Some row → result ≡ is_lt (key_cmp (key_of definition.now row) key.now) }
{
    match base.row_at(table, place) {
        None => false,
        Some(row) => compare_key(definition, row, key).is_lt(),
    }
}

/// The place of the first row, from a place on, that isn't below a key. Takes no memory.
fn place_from<V: StoreView>(
    base: &V,
    table: TableNo,
    definition: &TableDef,
    key: &Key,
    from: u64,
) -> u64
    requires there { table.0 < length (V.db base.now).schema.tables }
    requires rising { IsRising (key_of definition.now) key_cmp (rows_at (V.db base.now).rows table.0) }
    requires within { from ≤ length (rows_at (V.db base.now).rows table.0) }
    ensures behind { from ≤ result }
    ensures counted { length (rows_at (V.db base.now).rows table.0) < 2 ^ 64 }
    ensures place { IsPlaceOf (key_of definition.now) key_cmp key.now (drop from (rows_at (V.db base.now).rows table.0)) (result - from) }
{
    let mut low = from;
    let mut high = base.count(table);
    while low < high {
        let middle = low + (high - low) / 2;
        if is_below(base, table, definition, key, middle) {
            low = middle + 1;
        } else {
            high = middle;
        }
    }
    low
}

/// Where a key falls among the rows from a place on: behind the rows below it, and before those above it. Takes no memory.
pub(crate) fn spot_from<V: StoreView>(
    base: &V,
    table: TableNo,
    definition: &TableDef,
    key: &Key,
    from: u64,
) -> (u64, u64)
    requires there { table.0 < length (V.db base.now).schema.tables }
    requires rising { IsRising (key_of definition.now) key_cmp (rows_at (V.db base.now).rows table.0) }
    requires within { from ≤ length (rows_at (V.db base.now).rows table.0) }
    ensures behind { from ≤ result.0 }
    ensures order { result.0 ≤ result.1 }
    ensures within { result.1 ≤ length (rows_at (V.db base.now).rows table.0) }
    ensures below { below_key (key_of definition.now) key_cmp key.now (drop from (rows_at (V.db base.now).rows table.0)) ≡ take (result.0 - from) (drop from (rows_at (V.db base.now).rows table.0)) }
    ensures above { above_key (key_of definition.now) key_cmp key.now (drop from (rows_at (V.db base.now).rows table.0)) ≡ drop result.1 (rows_at (V.db base.now).rows table.0) }
{
    let place = place_from(base, table, definition, key, from);
    match base.row_at(table, place) {
        None => (place, place),
        Some(row) => {
            if compare_key(definition, row, key).is_eq() {
                (place, place + 1)
            } else {
                (place, place)
            }
        }
    }
}
