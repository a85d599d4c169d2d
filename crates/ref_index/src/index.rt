ghost use Rattle.std.specs.Prelude.{◌≡◌, ◌<◌, ◌^◌, ℕ, IfOk, IsTrue, List, Option, OnOk, find, length, map};
ghost use Rattle.std.specs.List.{AllByRecursion};
ghost use Rattle.std.specs.Option.{option_copied};
ghost use Rattle.own_base.specs.declared.value.Key.{Key as Seen};
ghost use Rattle.own_base.specs.declared.value.Value.{Value as SeenValue};
ghost use Rattle.own_model.specs.Db.{Db, empty, IsOrdered};
ghost use Rattle.page_model.specs.Run.{IsRunFrom};
ghost use Rattle.state_model.specs.Put.{put};
ghost use Rattle.link_model.specs.Holds.{holders_at};
ghost use Rattle.link_model.specs.Indexed.{is_indexed, is_indexed_at};
ghost use Rattle.ref_index.specs.AddsColumns.{AddsColumns};
ghost use Rattle.ref_index.specs.AddsTable.{AddsTable};
ghost use Rattle.ref_index.specs.Moved.{AreMoved};
ghost use Rattle.ref_index.specs.Stands.{is_of, Stands};
ghost use Rattle.ref_index.specs.Tells.{Tell};

use crate::column_index::ColumnIndex;
use own_base::{Change, ColNo, Key, MakeCopy, TableNo};
use own_model::{Column, TableDef};
use std::alloc::{AllocError, Global};
use std::marker::Model;

/// The index of a store: for each column that is UNIQUE or refers to a table, which rows hold a value there. Contracts see the
/// indexes of the columns.
#[derive(Drop)]
pub struct RefIndex {
    columns: Vec<ColumnIndex>,
}

impl Model for RefIndex {
    ghost use Rattle.std.specs.Prelude.{List};
    ghost use Rattle.ref_index.specs.declared.column_index.ColumnIndex.{ColumnIndex as Seen};

    ghost Value = { List Seen };

    ghost view = { λ index. index.columns.items };
}

/// Whether a column is indexed: it is UNIQUE, or refers to a table. Takes no memory.
fn is_indexed(column: &Column) -> bool
    ensures { result ≡ is_indexed column.now }
{
    column.unique || column.refers.is_some()
}

/// The indexes of columns after changes, one after another.
fn moved(
    alloc: Global,
    columns: &[ColumnIndex],
    changes: &[Change],
) -> Result<Vec<ColumnIndex>, AllocError>
    ensures { IfOk result (λ after. AreMoved changes.now columns.now after.items) }
{
    let mut after = Vec::new(alloc);
    after.reserve_exact(columns.len())?;
    for column in columns {
        after.push(column.with_changes(alloc, changes)?)?;
    }
    Ok(after)
}

/// Copies of the indexes of columns, each of which shares its pages.
fn copied(alloc: Global, columns: &[ColumnIndex]) -> Result<Vec<ColumnIndex>, AllocError>
    ensures { IfOk result (λ copy. copy.items ≡ columns.now) }
{
    let mut copy = Vec::new(alloc);
    copy.reserve_exact(columns.len())?;
    for column in columns {
        copy.push(column.copy(alloc)?)?;
    }
    Ok(copy)
}

/// Puts an index without entries last for each indexed column of a table.
fn push_columns(
    made: &mut Vec<ColumnIndex>,
    table: TableNo,
    columns: &[Column],
) -> Result<(), AllocError>
    requires { length columns.now < 2 ^ 32 }
    ensures { OnOk result (AddsColumns table columns.now (length columns.now) made.old.items made.new.items) }
{
    for (number, column) in columns.iter().enumerate() {
        if is_indexed(column) {
            made.push(ColumnIndex::new(table, ColNo(number as u32)))?;
        }
    }
    Ok(())
}

impl RefIndex {
    /// The index of a store without tables. Takes no memory.
    pub fn new(alloc: Global) -> RefIndex
        ensures { Stands empty result }
    {
        RefIndex {
            columns: Vec::new(alloc),
        }
    }

    /// The index after changes; it stays as it is. Where it is that of a database, whose rows the changes tell, the new one
    /// is that of the database into which they are put. `AllocError` comes where memory is refused, or there are more entries
    /// than can be counted.
    pub fn with_changes(&self, alloc: Global, changes: &[Change]) -> Result<RefIndex, AllocError>
        ensures { IfOk result (λ after. (db : Db) → IsOrdered db → Stands db self.now → Tell db changes.now → Stands (put db changes.now) after) }
    {
        let columns = moved(alloc, self.columns.as_slice(), changes)?;
        Ok(RefIndex { columns })
    }

    /// The index with a table more, which has no rows. This one stays as it is.
    pub fn with_table(
        &self,
        alloc: Global,
        table: TableNo,
        definition: &TableDef,
    ) -> Result<RefIndex, AllocError>
        requires { length definition.now.columns < 2 ^ 32 }
        ensures { IfOk result (λ after. (old new : Db) → IsOrdered old → Stands old self.now → AddsTable old definition.now new → table.0 ≡ length old.schema.tables → Stands new after) }
    {
        let mut columns = copied(alloc, self.columns.as_slice())?;
        push_columns(&mut columns, table, definition.columns.items())?;
        Ok(RefIndex { columns })
    }

    /// The index of a column, where it has one. Takes no memory.
    fn column(&self, table: TableNo, column: ColNo) -> Option<&ColumnIndex>
        ensures { option_copied result ≡ find (is_of table.0 column.0) self.now }
    {
        self.columns.iter().find(|one| one.is_of(table, column))
    }

    /// How many rows of a table hold a value in an indexed column, where this is the index of a database. Takes no memory.
    pub fn holder_count(&self, table: TableNo, column: ColNo, value: &Key) -> u64
        ensures { (db : Db) → IsOrdered db → Stands db self.now → IsTrue (is_indexed_at db.schema table.0 column.0) → result ≡ length (holders_at db table.0 column.0 value.now) }
    {
        match self.column(table, column) {
            Some(one) => one.pairs.count(value) as u64,
            None => 0,
        }
    }

    /// A run of the entries of those rows, each the value and a row's key, from a place of the list of their rising keys on:
    /// at least one where there is one. Takes no memory.
    pub fn holders_from(&self, table: TableNo, column: ColNo, value: &Key, at: u64) -> &[(Key, Key)]
        ensures values { AllByRecursion (λ entry. entry.0 ≡ value.now) result.now }
        ensures run { (db : Db) → IsOrdered db → Stands db self.now → IsTrue (is_indexed_at db.schema table.0 column.0) → IsRunFrom (holders_at db table.0 column.0 value.now) at (map (λ entry. entry.1) result.now) }
    {
        match self.column(table, column) {
            Some(one) => one.pairs.run_from(value, at as usize),
            None => &[],
        }
    }
}

impl MakeCopy for RefIndex {
    /// The same index, in pages that both share. `AllocError` comes where memory for the list of columns is refused, or the
    /// count of those that share is full.
    fn copy(&self, alloc: Global) -> Result<RefIndex, AllocError> {
        let columns = copied(alloc, self.columns.as_slice())?;
        Ok(RefIndex { columns })
    }
}
