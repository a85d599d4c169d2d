ghost use Rattle.std.specs.Prelude.{◌≡◌, ◌||◌, ◌&&◌, ℕ, [], Bool, Option, None, Some, true, OnOk};
ghost use Rattle.std.proofs.Props.{props};
ghost use Rattle.own_base.specs.declared.value.Key.{Key as RowKey};
ghost use Rattle.run_model.specs.Agree.{keys_meet};
ghost use Rattle.row_locks.specs.Hold.{blocks};
ghost use Rattle.row_locks.specs.Locks.{AreRising, has_place, meet, rows_meet, table_items};

use crate::hold::Hold;
use crate::row_holds::{add_place, blocks_row, hold_row};
use own_base::Key;
use own_model::FootItem;
use std::alloc::{AllocError, Global};
use std::collections::BTreeMap;

/// What a session holds of a table.
#[derive(Drop)]
pub(crate) struct TableLocks {
    /// How it holds the whole table.
    pub(crate) whole: Hold,
    /// How it holds the row of a key.
    pub(crate) rows: BTreeMap<Key, Hold>,
    /// How it holds the whole table or any row of it: the strongest of these.
    pub(crate) any: Hold,
    ghost rising: { AreRising rows.entries } by { Prim.hlevel props },
    ghost strongest: { (write : Bool) → blocks any write ≡ meet whole rows.entries None write },
}

impl TableLocks {
    /// Nothing of it. Takes no memory.
    pub(crate) fn new(alloc: Global) -> TableLocks
        ensures nothing { (table : ℕ) → table_items table result.whole result.rows.entries ≡ [] }
    {
        TableLocks {
            whole: Hold::Free,
            rows: BTreeMap::new(alloc),
            any: Hold::Free,
        }
    }

    /// Whether they stand in the way of who would write, or only read, the row of a key. Takes no memory.
    pub(crate) fn block_row(&self, key: &Key, write: bool) -> bool
        ensures { result ≡ meet self.now.whole self.now.rows.entries (Some key.now) write }
    {
        self.whole.blocks(write) || blocks_row(&self.rows, key, write)
    }

    /// Whether they stand in the way of an item of the table. Takes no memory.
    pub(crate) fn block(&self, item: &FootItem) -> bool
        ensures { result ≡ meet self.now.whole self.now.rows.entries item.now.key item.now.write }
    {
        match &item.key {
            None => self.any.blocks(item.write),
            Some(key) => self.block_row(key, item.write),
        }
    }

    /// Makes a place for an item of the table, which isn't held by that.
    pub(crate) fn add_place(&mut self, alloc: Global, item: &FootItem) -> Result<(), AllocError>
        ensures place { OnOk result (has_place self.new.rows.entries item.now.key ≡ true) }
        ensures places { (other : Option RowKey) → has_place self.old.rows.entries other ≡ true → has_place self.new.rows.entries other ≡ true }
        ensures same { (table : ℕ) → table_items table self.new.whole self.new.rows.entries ≡ table_items table self.old.whole self.old.rows.entries }
    {
        match &item.key {
            None => Ok(()),
            Some(key) => add_place(alloc, &mut self.rows, key),
        }
    }

    /// Holds an item of the table besides. It has a place. Takes no memory.
    pub(crate) fn hold(&mut self, item: &FootItem)
        requires { has_place self.old.rows.entries item.now.key ≡ true }
        ensures places { (other : Option RowKey) → has_place self.new.rows.entries other ≡ has_place self.old.rows.entries other }
        ensures meet { (asked : Option RowKey) (write : Bool) → meet self.new.whole self.new.rows.entries asked write
            ≡ (meet self.old.whole self.old.rows.entries asked write || (keys_meet asked item.now.key && (write || item.now.write))) }
    {
        self.any = self.any.and(item.write);
        match &item.key {
            None => self.whole = self.whole.and(item.write),
            Some(key) => hold_row(&mut self.rows, key, item.write),
        }
    }
}
