ghost use Rattle.std.specs.Prelude.{◌≡◌};
ghost use Rattle.owner_sets.specs.Sets.{set_at};

use own_base::{List, Subject, TableNo};

/// The set of the row at a place of a table; empty where there is none. Takes no memory.
pub(crate) fn set_at(sets: &[List<List<Subject>>], table: TableNo, at: u64) -> &[Subject]
    ensures { result.now ≡ set_at sets.now table.0 at }
{
    match sets.get(table.0 as usize) {
        Some(sets) => match sets.items().get(at as usize) {
            Some(set) => set.items(),
            None => &[],
        },
        None => &[],
    }
}
