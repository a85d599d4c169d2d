ghost use Rattle.std.specs.Prelude.{◌≡◌, ◌||◌, ◌&&◌, ℕ, Bool, Option, Some, true, OnOk};
ghost use Rattle.own_base.specs.declared.value.Key.{Key as RowKey};
ghost use Rattle.run_model.specs.Agree.{keys_meet};
ghost use Rattle.row_locks.specs.Locks.{AreRising, has_row, row_items, rows_meet};

use crate::hold::Hold;
use own_base::{Key, MakeCopy};
use std::alloc::{AllocError, Global};
use std::collections::BTreeMap;

/// Whether the row of a key is held against who would write, or only read it. Takes no memory.
pub(crate) fn blocks_row(rows: &BTreeMap<Key, Hold>, key: &Key, write: bool) -> bool
    requires { AreRising rows.now.entries }
    ensures { result ≡ rows_meet rows.now.entries (Some key.now) write }
{
    match rows.get(key) {
        None => false,
        Some(hold) => hold.blocks(write),
    }
}

/// Makes a place for the row of a key, which isn't held by that.
pub(crate) fn add_place(
    alloc: Global,
    rows: &mut BTreeMap<Key, Hold>,
    key: &Key,
) -> Result<(), AllocError>
    requires { AreRising rows.old.entries }
    ensures rising { AreRising rows.new.entries }
    ensures place { OnOk result (has_row rows.new.entries key.now ≡ true) }
    ensures places { (other : RowKey) → has_row rows.old.entries other ≡ true → has_row rows.new.entries other ≡ true }
    ensures same { (table : ℕ) → row_items table rows.new.entries ≡ row_items table rows.old.entries }
    ensures meet { (asked : Option RowKey) (write : Bool) → rows_meet rows.new.entries asked write ≡ rows_meet rows.old.entries asked write }
{
    if !rows.contains_key(key) {
        let key = key.copy(alloc)?;
        rows.insert(key, Hold::Free)?;
    }
    Ok(())
}

/// Holds the row of a key besides, for writing or reading. It has a place. Takes no memory.
pub(crate) fn hold_row(rows: &mut BTreeMap<Key, Hold>, key: &Key, write: bool)
    requires rising { AreRising rows.old.entries }
    requires place { has_row rows.old.entries key.now ≡ true }
    ensures rising { AreRising rows.new.entries }
    ensures places { (other : RowKey) → has_row rows.new.entries other ≡ has_row rows.old.entries other }
    ensures meet { (asked : Option RowKey) (asked_write : Bool) → rows_meet rows.new.entries asked asked_write
        ≡ (rows_meet rows.old.entries asked asked_write || (keys_meet asked (Some key.now) && (asked_write || write))) }
{
    if let Some(hold) = rows.get_mut(key) {
        *hold = hold.and(write);
    }
}
