ghost use Rattle.std.specs.Prelude.{◌≡◌, [], false, slice_index_or};
ghost use Rattle.subject_erase.specs.Flags.{flag_at};

use own_base::{List, TableNo};

/// For each row of each table, by number and place, whether something is true of it.
pub(crate) type Flags = List<List<bool>>;

/// The flag at a place; false where there is none. Takes no memory.
pub(crate) fn flag(flags: &[bool], at: u64) -> bool
    ensures { result ≡ slice_index_or flags.now at false }
{
    match flags.get(at as usize) {
        Some(flag) => *flag,
        None => false,
    }
}

/// The flags of the rows of a table. Takes no memory.
pub(crate) fn flags_of(flags: &[List<bool>], table: TableNo) -> &[bool]
    ensures { result.now ≡ slice_index_or flags.now table.0 [] }
{
    match flags.get(table.0 as usize) {
        Some(flags) => flags.items(),
        None => &[],
    }
}

/// The flag of the row at a place of a table; false where there is none. Takes no memory.
pub(crate) fn flag_at(flags: &[List<bool>], table: TableNo, at: u64) -> bool
    ensures { result ≡ flag_at flags.now table.0 at }
{
    flag(flags_of(flags, table), at)
}
