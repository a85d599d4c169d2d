ghost use Rattle.std.specs.Prelude.{◌≡◌, true, false, IfOk, OnOk};
ghost use Rattle.ref_index.specs.Entries.{Follows, held_in, Moves, SetsEntry};

use ordered_pairs::Pairs;
use own_base::{Change, ColNo, Key, MakeCopy, Row, TableNo};
use row_reading::{cell, literal_key};
use std::alloc::{AllocError, Global};

/// The value that a row holds in a column, where it is there and its value isn't NULL.
fn held(alloc: Global, row: &Option<Row>, column: ColNo) -> Result<Option<Key>, AllocError>
    ensures { IfOk result (λ key. key ≡ held_in column.0 row.now) }
{
    match row {
        None => Ok(None),
        Some(row) => literal_key(alloc, cell(row, column)),
    }
}

/// Whether two rows hold the same, a value or none. Takes no memory.
fn is_same(before: &Option<Key>, after: &Option<Key>) -> bool
    ensures { result ≡ true → before.now ≡ after.now }
{
    match (before, after) {
        (None, None) => true,
        (Some(before), Some(after)) => before.compare(after).is_eq(),
        _ => false,
    }
}

/// Takes the entry of a row away, where it has one.
fn take_entry(
    alloc: Global,
    pairs: &mut Pairs<Key, Key>,
    value: Option<Key>,
    key: &Key,
) -> Result<(), AllocError>
    ensures { OnOk result (SetsEntry value key.now false pairs.old pairs.new) }
{
    match value {
        None => Ok(()),
        Some(value) => {
            let key = key.copy(alloc)?;
            pairs.take_away(alloc, &(value, key))
        }
    }
}

/// Puts the entry of a row, where it has one.
fn put_entry(
    alloc: Global,
    pairs: &mut Pairs<Key, Key>,
    value: Option<Key>,
    key: &Key,
) -> Result<(), AllocError>
    ensures { OnOk result (SetsEntry value key.now true pairs.old pairs.new) }
{
    match value {
        None => Ok(()),
        Some(value) => {
            let key = key.copy(alloc)?;
            pairs.set(alloc, &(value, key))
        }
    }
}

/// Puts the entry of the row after a change in the place of that of the row before it. Where both hold the same, nothing is
/// done.
fn move_entry(
    alloc: Global,
    pairs: &mut Pairs<Key, Key>,
    column: ColNo,
    change: &Change,
) -> Result<(), AllocError>
    ensures { OnOk result (Moves column.0 change.now pairs.old pairs.new) }
{
    let before = held(alloc, &change.before, column)?;
    let after = held(alloc, &change.after, column)?;
    if is_same(&before, &after) {
        return Ok(());
    }
    take_entry(alloc, pairs, before, &change.name.key)?;
    put_entry(alloc, pairs, after, &change.name.key)
}

/// Makes of the index of a column what it is after a change, which may be of another table.
pub(crate) fn follow(
    alloc: Global,
    pairs: &mut Pairs<Key, Key>,
    table: TableNo,
    column: ColNo,
    change: &Change,
) -> Result<(), AllocError>
    ensures { OnOk result (Follows table.0 column.0 change.now pairs.old pairs.new) }
{
    if change.name.table.0 == table.0 {
        move_entry(alloc, pairs, column, change)
    } else {
        Ok(())
    }
}
