ghost use Rattle.std.specs.Prelude.{◌≡◌, ◌++◌, true, false, IfOk, OnOk, map};
ghost use Rattle.own_base.specs.Key.{key_cmp};
ghost use Rattle.ordered_pairs.specs.RightsOf.{rights_of};
ghost use Rattle.view_deltas.specs.Keys.{held_in, MovesKey, SetsKey};

use ordered_pairs::Pairs;
use own_base::{Change, ColNo, Key, List, MakeCopy, Row};
use row_reading::{cell, literal_key};
use std::alloc::{AllocError, Global};

/// The value that a row holds in a column, where it is there and its value isn't NULL.
pub(crate) fn held(
    alloc: Global,
    row: &Option<Row>,
    column: ColNo,
) -> Result<Option<Key>, AllocError>
    ensures { IfOk result (λ key. key ≡ held_in column.0 row.now) }
{
    match row {
        None => Ok(None),
        Some(row) => literal_key(alloc, cell(row, column)),
    }
}

/// Adds the keys behind a value.
fn add_keys(alloc: Global, pairs: &[(Key, Key)], keys: &mut List<Key>) -> Result<(), AllocError>
    ensures { OnOk result (keys.new ≡ keys.old ++ map (λ pair. pair.1) pairs.now) }
{
    for pair in pairs {
        keys.add(pair.1.copy(alloc)?)?;
    }
    Ok(())
}

/// The keys of the rows that hold a value.
pub(crate) fn keys_of(
    alloc: Global,
    pairs: &Pairs<Key, Key>,
    value: &Key,
) -> Result<List<Key>, AllocError>
    ensures { IfOk result (λ keys. keys ≡ rights_of key_cmp pairs.now value.now) }
{
    let count = pairs.count(value);
    let mut keys = List::new(alloc);
    let mut at = 0;
    while at < count {
        let run = pairs.run_from(value, at);
        add_keys(alloc, run, &mut keys)?;
        at += run.len();
    }
    Ok(keys)
}

/// Takes the key of a row away from under its value, where it holds one.
fn take_key(
    alloc: Global,
    pairs: &mut Pairs<Key, Key>,
    value: Option<Key>,
    key: &Key,
) -> Result<(), AllocError>
    ensures { OnOk result (SetsKey value key.now false pairs.old pairs.new) }
{
    match value {
        None => Ok(()),
        Some(value) => {
            let key = key.copy(alloc)?;
            pairs.take_away(alloc, &(value, key))
        }
    }
}

/// Puts the key of a row under its value, where it holds one.
fn put_key(
    alloc: Global,
    pairs: &mut Pairs<Key, Key>,
    value: Option<Key>,
    key: &Key,
) -> Result<(), AllocError>
    ensures { OnOk result (SetsKey value key.now true pairs.old pairs.new) }
{
    match value {
        None => Ok(()),
        Some(value) => {
            let key = key.copy(alloc)?;
            pairs.set(alloc, &(value, key))
        }
    }
}

/// Puts the key of a row under what it holds after a change, and no longer under what it held before.
pub(crate) fn move_key(
    alloc: Global,
    pairs: &mut Pairs<Key, Key>,
    column: ColNo,
    change: &Change,
) -> Result<(), AllocError>
    ensures { OnOk result (MovesKey column.0 change.now.name.key change.now.before change.now.after pairs.old pairs.new) }
{
    let before = held(alloc, &change.before, column)?;
    let after = held(alloc, &change.after, column)?;
    take_key(alloc, pairs, before, &change.name.key)?;
    put_key(alloc, pairs, after, &change.name.key)
}
