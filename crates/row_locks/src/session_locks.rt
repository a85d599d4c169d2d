ghost use Rattle.std.specs.Prelude.{◌≡◌, ◌≤◌, ◌||◌, [], length, slice_get, true, OnErr, OnOk};
ghost use Rattle.std.specs.List.{list_all, list_any};
ghost use Rattle.std.specs.Option.{option_copied};
ghost use Rattle.own_model.specs.declared.footprint.FootItem.{FootItem as Item};
ghost use Rattle.run_model.specs.Agree.{lies_on, overlaps};
ghost use Rattle.history_model.specs.Held.{first_overlap};
ghost use Rattle.history_model.specs.History.{lie_on};
ghost use Rattle.row_locks.specs.SessionItems.{has_place_in, items_of};

use crate::table_locks::TableLocks;
use own_base::{RowName, TableNo};
use own_model::FootItem;
use std::alloc::{AllocError, Global};

/// What a session holds, by the number of the table.
#[derive(Drop)]
pub(crate) struct SessionLocks {
    pub(crate) tables: Vec<TableLocks>,
}

impl SessionLocks {
    /// Nothing. Takes no memory.
    pub(crate) fn new(alloc: Global) -> SessionLocks
        ensures { items_of result ≡ [] }
    {
        SessionLocks {
            tables: Vec::new(alloc),
        }
    }

    /// The locks of a table, where there are any. Takes no memory.
    fn locks(&self, table: TableNo) -> Option<&TableLocks>
        ensures { option_copied result ≡ slice_get self.now.tables.items table.0 }
    {
        self.tables.get(table.0 as usize)
    }

    /// Whether an item that is held overlaps an item. Takes no memory.
    fn overlap(&self, item: &FootItem) -> bool
        ensures { result ≡ list_any (overlaps item.now) (items_of self.now) }
    {
        match self.locks(item.table) {
            None => false,
            Some(locks) => locks.block(item),
        }
    }

    /// Whether a name lies on an item that is held. Takes no memory.
    fn hold_name(&self, name: &RowName) -> bool
        ensures { result ≡ list_any (lies_on name.now) (items_of self.now) }
    {
        match self.locks(name.table) {
            None => false,
            Some(locks) => locks.block_row(&name.key, true),
        }
    }

    /// The first item that one of those held overlaps. Takes no memory.
    pub(crate) fn first_overlap<'f>(&self, items: &'f [FootItem]) -> Option<&'f FootItem>
        ensures { option_copied result ≡ first_overlap (items_of self.now) items.now }
    {
        for item in items {
            if self.overlap(item) {
                return Some(item);
            }
        }
        None
    }

    /// Whether one of the names lies on an item that is held. Takes no memory.
    pub(crate) fn hold_some(&self, names: &[RowName]) -> bool
        ensures { result ≡ lie_on names.now (items_of self.now) }
    {
        for name in names {
            if self.hold_name(name) {
                return true;
            }
        }
        false
    }

    /// Makes room for so many tables.
    fn grow(&mut self, alloc: Global, count: usize) -> Result<(), AllocError>
        ensures enough { OnOk result (count ≤ length self.new.tables.items) }
        ensures same { items_of self.new ≡ items_of self.old }
        ensures places { (item : Item) → has_place_in self.old.tables.items item ≡ true → has_place_in self.new.tables.items item ≡ true }
    {
        while self.tables.len() < count {
            self.tables.push(TableLocks::new(alloc))?;
        }
        Ok(())
    }

    /// Makes a place for an item, which isn't held by that.
    fn add_place(&mut self, alloc: Global, item: &FootItem) -> Result<(), AllocError>
        ensures place { OnOk result (has_place_in self.new.tables.items item.now ≡ true) }
        ensures same { items_of self.new ≡ items_of self.old }
        ensures places { (other : Item) → has_place_in self.old.tables.items other ≡ true → has_place_in self.new.tables.items other ≡ true }
    {
        let number = item.table.0 as usize;
        self.grow(alloc, number + 1)?;
        self.tables[number].add_place(alloc, item)
    }

    /// Makes a place for each of some items, which aren't held by that.
    fn add_places(&mut self, alloc: Global, items: &[FootItem]) -> Result<(), AllocError>
        ensures places { OnOk result (list_all (has_place_in self.new.tables.items) items.now ≡ true) }
        ensures same { items_of self.new ≡ items_of self.old }
    {
        for item in items {
            self.add_place(alloc, item)?;
        }
        Ok(())
    }

    /// Holds an item besides. It has a place. Takes no memory.
    fn hold(&mut self, item: &FootItem)
        requires { has_place_in self.old.tables.items item.now ≡ true }
        ensures places { (other : Item) → has_place_in self.new.tables.items other ≡ has_place_in self.old.tables.items other }
        ensures more { (asked : Item) → list_any (overlaps asked) (items_of self.new) ≡ (list_any (overlaps asked) (items_of self.old) || overlaps asked item.now) }
    {
        self.tables[item.table.0 as usize].hold(item);
    }

    /// Holds some items besides. Each has a place. Takes no memory.
    fn hold_all(&mut self, items: &[FootItem])
        requires { list_all (has_place_in self.old.tables.items) items.now ≡ true }
        ensures { (asked : Item) → list_any (overlaps asked) (items_of self.new) ≡ (list_any (overlaps asked) (items_of self.old) || list_any (overlaps asked) items.now) }
    {
        for item in items {
            self.hold(item);
        }
    }

    /// Holds some items besides: all of them, or none where memory is refused.
    pub(crate) fn grant(&mut self, alloc: Global, items: &[FootItem]) -> Result<(), AllocError>
        ensures more { OnOk result ((asked : Item) → list_any (overlaps asked) (items_of self.new) ≡ (list_any (overlaps asked) (items_of self.old) || list_any (overlaps asked) items.now)) }
        ensures unchanged { OnErr result (items_of self.new ≡ items_of self.old) }
    {
        self.add_places(alloc, items)?;
        self.hold_all(items);
        Ok(())
    }

    /// Holds nothing. Takes no memory.
    #[tactic(auto, using(crate::proofs::TableItems::items_none))]
    pub(crate) fn clear(&mut self)
        ensures { items_of self.new ≡ [] }
    {
        self.tables.clear();
    }
}
