ghost use Rattle.std.specs.Prelude.{◌≡◌, ◌<◌, ◌≤◌, ◌^◌, length, slice_get, take, Some};
ghost use Rattle.own_base.specs.Key.{key_cmp};
ghost use Rattle.own_model.specs.Db.{key_of};
ghost use Rattle.own_model.specs.Stored.{IsRunFrom, rows_at};
ghost use Rattle.page_model.specs.Changed.{AreKeyed};
ghost use Rattle.page_model.specs.Paged.{items};
ghost use Rattle.page_model.specs.Rising.{IsRising};
ghost use Rattle.txn_space.specs.Changed.{rows_with};
ghost use Rattle.txn_space.specs.Entries.{entry_key, entry_row};
ghost use Rattle.txn_space.specs.Passed.{IsPassed};

use crate::entry::{Entries, Entry};
use crate::spot::spot_from;
use own_base::{Row, TableNo};
use own_model::{StoreView, TableDef};
use std::slice;

/// What becomes of a place that is looked for, at an entry.
pub(crate) enum Passed<'a> {
    /// The rows from the place on.
    Within(&'a [Row]),
    /// The place lies behind: from where on the base goes on, and how far from there.
    Behind(u64, u64),
}

/// The entry at a place.
pub(crate) fn entry_at(entries: &Entries, number: usize) -> &Entry
    requires { number < length (items entries.now) }
    ensures { slice_get (items entries.now) number ≡ Some result.now }
{
    match entries.at(number) {
        Some(entry) => entry,
        None => unreachable!(),
    }
}

/// Not more than so many rows.
fn cut(rows: &[Row], most: u64) -> &[Row]
    ensures { result.now ≡ take most rows.now }
{
    if rows.len() as u64 <= most {
        rows
    } else {
        &rows[..most as usize]
    }
}

/// Looks for a place, counted from a row of the base on, up to an entry. Takes no memory.
fn pass<'a, V: StoreView>(
    base: &'a V,
    table: TableNo,
    definition: &TableDef,
    entry: &'a Entry,
    from: u64,
    place: u64,
) -> Passed<'a>
    requires there { table.0 < length (V.db base.now).schema.tables }
    requires rising { IsRising (key_of definition.now) key_cmp (rows_at (V.db base.now).rows table.0) }
    requires within { from ≤ length (rows_at (V.db base.now).rows table.0) }
    ensures { IsPassed definition.now entry.now (rows_at (V.db base.now).rows table.0) from place result }
{
    let (below, behind) = spot_from(base, table, definition, &entry.key, from);
    let count = below - from;
    if place < count {
        return Passed::Within(cut(base.rows_from(table, from + place), count - place));
    }
    match &entry.row {
        None => Passed::Behind(behind, place - count),
        Some(row) => {
            if place == count {
                Passed::Within(slice::from_ref(row))
            } else {
                Passed::Behind(behind, place - count - 1)
            }
        }
    }
}

/// Lends a run of a table's rows, as its entries change them, that begins at a place. Takes no memory.
pub(crate) fn run_from<'a, V: StoreView>(
    base: &'a V,
    table: TableNo,
    definition: &TableDef,
    entries: &'a Entries,
    at: u64,
) -> &'a [Row]
    requires there { table.0 < length (V.db base.now).schema.tables }
    requires rising { IsRising (key_of definition.now) key_cmp (rows_at (V.db base.now).rows table.0) }
    requires keyed { AreKeyed (key_of definition.now) entry_key entry_row (items entries.now) }
    ensures { IsRunFrom (rows_with definition.now (items entries.now) (rows_at (V.db base.now).rows table.0)) at result.now }
{
    let mut from = 0;
    let mut left = at;
    for number in 0..entries.len() {
        let entry = entry_at(entries, number);
        match pass(base, table, definition, entry, from, left) {
            Passed::Within(run) => return run,
            Passed::Behind(next, further) => {
                from = next;
                left = further;
            }
        }
    }
    if left < base.count(table) - from {
        base.rows_from(table, from + left)
    } else {
        &[]
    }
}

/// How many rows a table has, as its entries change them. Takes no memory.
pub(crate) fn count_with<V: StoreView>(
    base: &V,
    table: TableNo,
    definition: &TableDef,
    entries: &Entries,
) -> u64
    requires there { table.0 < length (V.db base.now).schema.tables }
    requires rising { IsRising (key_of definition.now) key_cmp (rows_at (V.db base.now).rows table.0) }
    requires keyed { AreKeyed (key_of definition.now) entry_key entry_row (items entries.now) }
    requires few { length (rows_at (V.db base.now).rows table.0) < 2 ^ 63 }
    requires entries { length (items entries.now) ≤ 2 ^ 62 }
    ensures { result ≡ length (rows_with definition.now (items entries.now) (rows_at (V.db base.now).rows table.0)) }
{
    let mut count = 0;
    let mut from = 0;
    for number in 0..entries.len() {
        let entry = entry_at(entries, number);
        let (below, behind) = spot_from(base, table, definition, &entry.key, from);
        count += below - from;
        if entry.row.is_some() {
            count += 1;
        }
        from = behind;
    }
    count + (base.count(table) - from)
}
