ghost use Rattle.std.specs.Prelude.{ℕ, List, ◌≡◌, ◌≢◌, ◌<◌, [], IfOk, MatchBool, MatchOption, OnErr, OnOk, length, slice_get};
ghost use Rattle.std.specs.List.{AllByRecursion};
ghost use Rattle.std.specs.Option.{option_copied};
ghost use Rattle.own_model.specs.Db.{Row as Values};
ghost use Rattle.own_model.specs.Stored.{IsRunFrom, row_named, rows_at};
ghost use Rattle.page_model.specs.Paged.{items};
ghost use Rattle.state_model.specs.MayBePut.{IsPutIn};
ghost use Rattle.state_model.specs.Net.{net};
ghost use Rattle.state_model.specs.Put.{put_rows};
ghost use Rattle.txn_space.specs.Changed.{changed_db, changed_rows};
ghost use Rattle.txn_space.specs.Entries.{entries_at};
ghost use Rattle.txn_space.specs.HasPut.{entries_put};
ghost use Rattle.txn_space.specs.Merged.{AreMerged};
ghost use Rattle.txn_space.specs.Sound.{IsBase, IsSpaceOf};

use crate::entry::{ByKey, Entries, Entry};
use crate::merged::{Merged, MergedTable};
use crate::merging::merged_rows;
use crate::net::add_changes;
use crate::over::Over;
use crate::put::put_all;
use crate::walk::{count_with, run_from};
use own_base::{Change, List, MakeCopy, Row, RowName, TableNo};
use own_model::{FootItem, Footprint, StoreView};
use page_tree::Pages;
use row_reading::definition_of;
use std::alloc::{AllocError, Global};
use std::marker::Model;

/// So few changes of a table are looked for again at each run of a walk over it, at less cost than all of its rows are merged
/// with them. What is looked up by a range of keys is found among them at once.
const FEW_CHANGES: usize = 4;

/// What a transaction changes, which contracts see as the list of its entries for each table, by number: each the key of a
/// row, and the row that stands there now.
#[derive(Drop)]
pub struct Space {
    tables: List<Pages<Entry, ByKey>>,
}

impl Model for Space {
    ghost use Rattle.std.specs.Prelude.{List as Seq};
    ghost use Rattle.txn_space.specs.declared.entry.Entry.{Entry as Seen};
    ghost use Rattle.txn_space.specs.Entries.{seen};

    ghost Value = { Seq (Seq Seen) };

    ghost view = { λ space. seen space.tables };
}

/// A copy shares all pages: it takes memory for a list of the tables alone.
impl MakeCopy for Space {
    fn copy(&self, alloc: Global) -> Result<Space, AllocError> {
        let tables = self.tables.copy(alloc)?;
        Ok(Space { tables })
    }
}

impl Space {
    /// No change. Takes no memory.
    pub fn new(alloc: Global) -> Space
        ensures nothing { result ≡ [] }
        ensures sound { (tables : _) → IsSpaceOf tables result }
    {
        Space {
            tables: List::new(alloc),
        }
    }

    /// The base's rows, as changed. Takes no memory.
    pub fn over<'a, V: StoreView>(&'a self, base: &'a V) -> Over<'a, V>
        requires base { IsBase (V.db base.now).schema.tables (V.db base.now).rows }
        requires space { IsSpaceOf (V.db base.now).schema.tables self.now }
        ensures { ⟦<Over<'a, V> as StoreView>⟧.db result ≡ changed_db (V.db base.now) self.now }
    {
        Over::new(self, base)
    }

    /// Merges the rows of a table with its entries, where it has more than a few and the item names it as a whole, behind the
    /// tables that are merged.
    fn merge<'a, V: StoreView>(
        &'a self,
        alloc: Global,
        base: &'a V,
        item: &FootItem,
        merged: &mut Vec<MergedTable<'a>>,
    ) -> Result<(), AllocError>
        requires base { IsBase (V.db base.now).schema.tables (V.db base.now).rows }
        requires space { IsSpaceOf (V.db base.now).schema.tables self.now }
        ensures { OnOk result (AreMerged (changed_db (V.db base.now) self.now).rows merged.old.items → AreMerged (changed_db (V.db base.now) self.now).rows merged.new.items) }
    {
        let table = item.table;
        if item.key.is_some() || table.0 as usize >= base.schema().tables.items().len() {
            return Ok(());
        }
        match self.entries(table) {
            Some(entries) if entries.len() > FEW_CHANGES => {
                let rows = merged_rows(alloc, base, table, definition_of(base, table), entries)?;
                merged.push(MergedTable { table, rows })?;
                Ok(())
            }
            _ => Ok(()),
        }
    }

    /// The base's rows, as changed, where the tables that a footprint names as a whole are merged with their changes, if these
    /// are more than a few: a walk over such a table goes over each row once.
    pub fn merged<'a, V: StoreView>(
        &'a self,
        alloc: Global,
        base: &'a V,
        footprint: &Footprint,
    ) -> Result<Merged<'a, V>, AllocError>
        requires base { IsBase (V.db base.now).schema.tables (V.db base.now).rows }
        requires space { IsSpaceOf (V.db base.now).schema.tables self.now }
        ensures { IfOk result (λ merged. ⟦<Merged<'a, V> as StoreView>⟧.db merged ≡ changed_db (V.db base.now) self.now) }
    {
        let mut tables = Vec::new(alloc);
        for item in footprint.items() {
            self.merge(alloc, base, item, &mut tables)?;
        }
        Ok(Merged::new(self.over(base), tables))
    }

    /// Makes changes, one after another: all of them, or none where memory is refused. The base is that of the tables; what
    /// is said of its rows is true of those of each base.
    pub fn put<V: StoreView>(
        &mut self,
        alloc: Global,
        base: &V,
        changes: &[Change],
    ) -> Result<(), AllocError>
        requires space { IsSpaceOf (V.db base.now).schema.tables self.old }
        requires changes { AllByRecursion (IsPutIn (V.db base.now).schema.tables) changes.now }
        ensures sound { IsSpaceOf (V.db base.now).schema.tables self.new }
        ensures put { OnOk result ((rows : List (List Values)) → IsBase (V.db base.now).schema.tables rows
            → changed_rows (V.db base.now).schema.tables rows self.new ≡ put_rows (V.db base.now).schema.tables changes.now (changed_rows (V.db base.now).schema.tables rows self.old)) }
        ensures entries { OnOk result ((number : ℕ) → entries_at self.new number ≡ entries_put number changes.now (entries_at self.old number)) }
        ensures unchanged { OnErr result (self.new ≡ self.old) }
    {
        let _ = base;
        let mut tables = self.tables.copy(alloc)?.into_vec();
        put_all(alloc, &mut tables, changes)?;
        self.tables = List::from_vec(tables);
        Ok(())
    }

    /// The rows that differ between the base and its rows as changed: by table, then key, each with what it was and what
    /// it is.
    pub fn changes<V: StoreView>(&self, alloc: Global, base: &V) -> Result<List<Change>, AllocError>
        requires base { IsBase (V.db base.now).schema.tables (V.db base.now).rows }
        requires space { IsSpaceOf (V.db base.now).schema.tables self.now }
        ensures { IfOk result (λ changes. changes ≡ net (V.db base.now) (changed_db (V.db base.now) self.now)) }
    {
        let mut changes = List::new(alloc);
        let tables = self.tables.items();
        for number in 0..tables.len() {
            add_changes(
                alloc,
                base,
                TableNo(number as u32),
                &tables[number],
                &mut changes,
            )?;
        }
        Ok(changes)
    }

    /// The entries of a table, where there are any. Takes no memory.
    fn entries(&self, table: TableNo) -> Option<&Entries>
        ensures { MatchOption result (entries_at self.now table.0 ≡ []) (λ entries. items entries.now ≡ entries_at self.now table.0) }
    {
        self.tables.items().get(table.0 as usize)
    }

    /// Whether a transaction leaves the rows of a table as they are: it has put none and taken none away. Takes no memory.
    pub fn leaves(&self, table: TableNo) -> bool
        ensures { MatchBool result (entries_at self.now table.0 ≡ []) (entries_at self.now table.0 ≢ []) }
    {
        match self.entries(table) {
            None => true,
            Some(entries) => entries.len() == 0,
        }
    }

    /// How many rows a table has. Takes no memory.
    pub(crate) fn count<V: StoreView>(&self, base: &V, table: TableNo) -> u64
        requires base { IsBase (V.db base.now).schema.tables (V.db base.now).rows }
        requires space { IsSpaceOf (V.db base.now).schema.tables self.now }
        requires there { table.0 < length (V.db base.now).schema.tables }
        ensures { result ≡ length (rows_at (changed_db (V.db base.now) self.now).rows table.0) }
    {
        match self.entries(table) {
            None => base.count(table),
            Some(entries) => count_with(base, table, definition_of(base, table), entries),
        }
    }

    /// A run of a table's rows that begins at a place. Takes no memory.
    pub(crate) fn rows_from<'a, V: StoreView>(
        &'a self,
        base: &'a V,
        table: TableNo,
        at: u64,
    ) -> &'a [Row]
        requires base { IsBase (V.db base.now).schema.tables (V.db base.now).rows }
        requires space { IsSpaceOf (V.db base.now).schema.tables self.now }
        requires there { table.0 < length (V.db base.now).schema.tables }
        ensures { IsRunFrom (rows_at (changed_db (V.db base.now) self.now).rows table.0) at result.now }
    {
        match self.entries(table) {
            None => base.rows_from(table, at),
            Some(entries) => run_from(base, table, definition_of(base, table), entries, at),
        }
    }

    /// The row at a place of a table. Takes no memory.
    pub(crate) fn row_at<'a, V: StoreView>(
        &'a self,
        base: &'a V,
        table: TableNo,
        at: u64,
    ) -> Option<&'a Row>
        requires base { IsBase (V.db base.now).schema.tables (V.db base.now).rows }
        requires space { IsSpaceOf (V.db base.now).schema.tables self.now }
        requires there { table.0 < length (V.db base.now).schema.tables }
        ensures { option_copied result ≡ slice_get (rows_at (changed_db (V.db base.now) self.now).rows table.0) at }
    {
        self.rows_from(base, table, at).first()
    }

    /// The row of a name. Takes no memory.
    pub(crate) fn row<'a, V: StoreView>(&'a self, base: &'a V, name: &RowName) -> Option<&'a Row>
        requires base { IsBase (V.db base.now).schema.tables (V.db base.now).rows }
        requires space { IsSpaceOf (V.db base.now).schema.tables self.now }
        requires there { name.now.table.0 < length (V.db base.now).schema.tables }
        ensures { option_copied result ≡ row_named (V.db base.now).schema (changed_db (V.db base.now) self.now).rows name.now }
    {
        match self.entries(name.table) {
            None => base.row(name),
            Some(entries) => match entries.get(&name.key) {
                None => base.row(name),
                Some(entry) => entry.row.as_ref(),
            },
        }
    }
}
