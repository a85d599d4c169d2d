ghost use Rattle.std.specs.Prelude.{◌≡◌, [], ◌∷◌, IfOk, IfSome, OnErr, OnOk, length, map, slice_get};
ghost use Rattle.std.specs.Option.{option_copied};
ghost use Rattle.own_base.specs.Key.{key_cmp};
ghost use Rattle.own_model.specs.Stored.{IsRunFrom};
ghost use Rattle.page_model.specs.Changed.{AreKeyed, with_change, with_changes};
ghost use Rattle.page_model.specs.Found.{found};
ghost use Rattle.page_model.specs.Kept.{KeepsPages};
ghost use Rattle.page_model.specs.Page.{ArePages, IsPage};
ghost use Rattle.page_model.specs.Rising.{IsRising};
ghost use Rattle.state_model.specs.MayBePut.{KeysDiffer};
ghost use Rattle.state_model.specs.Put.{changed_key, row_after};
ghost use Rattle.table_part.specs.KeyIn.{key_in};
ghost use Rattle.table_part.specs.Lent.{lent};
ghost use Rattle.table_part.specs.Part.{rows_of};

use crate::key_column::KeyColumn;
use crate::keyed_change::{KeyedChange, by_key};
use crate::rows::Rows;
use own_base::{Change, ColNo, Key, MakeCopy, Row};
use page_tree::Pages;
use std::alloc::{AllocError, Global};
use std::marker::Model;

/// The rows of one table by their key. Contracts see the column that is the key, and the pages in which the rows lie.
#[derive(Drop)]
pub struct TablePart {
    pages: Pages<Row, KeyColumn>,
}

impl Model for TablePart {
    ghost use Rattle.table_part.specs.Part.{Part};

    ghost Value = { Part };

    ghost view = { λ part. record { key = part.pages.by.0; pages = part.pages.pages } };
}

impl TablePart {
    /// No row. A row doesn't know which of its columns is the key, so the part is told. Takes no memory.
    pub fn new(key: ColNo) -> TablePart
        ensures key { result.key ≡ key }
        ensures pages { result.pages ≡ [] }
    {
        TablePart {
            pages: Pages::new(KeyColumn(key)),
        }
    }

    /// How many rows there are. Takes no memory.
    pub fn len(&self) -> u64
        ensures count { result ≡ length (rows_of self.now) }
        ensures pages { ArePages self.now.pages }
        ensures rising { IsRising (key_in self.now.key) key_cmp (rows_of self.now) }
    {
        self.pages.len() as u64
    }

    /// The row of a key. Takes no memory.
    pub fn get(&self, key: &Key) -> Option<&Row>
        ensures { option_copied result ≡ found (key_in self.now.key) key_cmp key.now (rows_of self.now) }
    {
        self.pages.get(key)
    }

    /// The row at a place by rising key, counted from 0. Takes no memory.
    pub fn at(&self, at: u64) -> Option<&Row>
        ensures { option_copied result ≡ slice_get (rows_of self.now) at }
    {
        self.pages.at(at as usize)
    }

    /// The rows by rising key, one by one. Takes no memory.
    pub fn rows(&self) -> Rows<'_>
        ensures { result ≡ rows_of self.now }
    {
        Rows::new(&self.pages)
    }

    /// The page of a number, counted from 0. Takes no memory.
    pub fn page(&self, at: u64) -> Option<&[Row]>
        ensures page { IfSome result (λ page. IsPage page.now) }
        ensures lookup { option_copied result ≡ slice_get self.now.pages at }
    {
        self.pages.page(at as usize)
    }

    /// Lends the rows from a place on, up to the end of the page that has the row there. There is none past the end.
    /// Called again behind each run, it goes over all rows. Takes no memory.
    pub fn rows_from(&self, at: u64) -> &[Row]
        ensures { IsRunFrom (rows_of self.now) at result.now }
    {
        self.pages.run_from(at as usize)
    }

    /// The rows with changes, which stand by rising key.
    fn changed(&self, alloc: Global, sorted: &[KeyedChange]) -> Result<TablePart, AllocError>
        requires rising { IsRising (λ one. changed_key (lent one)) key_cmp sorted.now }
        requires keyed { AreKeyed (key_in self.now.key) changed_key row_after (map lent sorted.now) }
        ensures key { IfOk result (λ after. after.key ≡ self.now.key) }
        ensures rows { IfOk result (λ after. rows_of after ≡ with_changes (key_in self.now.key) key_cmp changed_key row_after (map lent sorted.now) (rows_of self.now)) }
        ensures kept { IfOk result (λ after. KeepsPages (key_in self.now.key) key_cmp changed_key self.now.pages (map lent sorted.now) after.pages) }
    {
        let pages = self.pages.with_changes(alloc, sorted)?;
        Ok(TablePart { pages })
    }

    /// The rows with changes, which may come in any order. Only the key of a change and the row `after` it are looked
    /// at: not the table of its name, nor the row `before`. This part stays as it is. `AllocError` comes where memory is
    /// refused, or there are more rows than can be counted.
    #[tactic(auto, using(page_model::proofs::InOrder::few_rise))]
    pub fn with_changes(&self, alloc: Global, changes: &[Change]) -> Result<TablePart, AllocError>
        requires differ { KeysDiffer changes.now }
        requires keyed { AreKeyed (key_in self.now.key) changed_key row_after changes.now }
        ensures key { IfOk result (λ after. after.key ≡ self.now.key) }
        ensures rows { IfOk result (λ after. rows_of after ≡ with_changes (key_in self.now.key) key_cmp changed_key row_after changes.now (rows_of self.now)) }
        ensures kept { IfOk result (λ after. KeepsPages (key_in self.now.key) key_cmp changed_key self.now.pages changes.now after.pages) }
    {
        if let [change] = changes {
            return self.changed(alloc, &[KeyedChange(change)]);
        }
        // By the clauses of `len` the keys of this part rise.
        let _rows = self.len();
        let sorted = by_key(alloc, changes)?;
        self.changed(alloc, sorted.as_slice())
    }

    /// Makes one change in this part itself: in place, where no other part shares the page into which the key falls and
    /// it fits there. Only the key of the change and the row `after` it are looked at. After `AllocError`, which comes
    /// where it does in `with_changes`, the part is as it was.
    pub fn change(&mut self, alloc: Global, change: &Change) -> Result<(), AllocError>
        requires { IfSome (row_after change.now) (λ row. key_in self.old.key row ≡ changed_key change.now) }
        ensures key { self.new.key ≡ self.old.key }
        ensures rows { OnOk result (rows_of self.new ≡ with_change (key_in self.old.key) key_cmp (changed_key change.now) (row_after change.now) (rows_of self.old)) }
        ensures kept { OnOk result (KeepsPages (key_in self.old.key) key_cmp changed_key self.old.pages (change.now ∷ []) self.new.pages) }
        ensures unchanged { OnErr result (self.new ≡ self.old) }
    {
        self.pages.change(alloc, &KeyedChange(change))
    }
}

impl MakeCopy for TablePart {
    /// The same rows, in pages that both share. Takes no memory; `AllocError` comes only where the count of those that
    /// share is full.
    fn copy(&self, alloc: Global) -> Result<TablePart, AllocError> {
        Ok(TablePart {
            pages: self.pages.copy(alloc)?,
        })
    }
}
