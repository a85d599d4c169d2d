ghost use Rattle.std.specs.Prelude.{◌≡◌, ◌<◌, ◌∷◌, [], IsTrue, length, map, slice_get, IfOk, OnErr, OnOk};
ghost use Rattle.std.specs.Option.{option_copied};
ghost use Rattle.own_model.specs.declared.limit.TheConstants.{VIEWS};
ghost use Rattle.own_model.specs.Db.{IsOrdered, empty};
ghost use Rattle.own_model.specs.Stored.{IsRunFrom, row_named, rows_at};
ghost use Rattle.page_model.specs.Run.{IsRunFrom as RunsFrom};
ghost use Rattle.owner_graph.specs.Graph.{IsGraphOf};
ghost use Rattle.link_model.specs.Holds.{holders_at};
ghost use Rattle.link_model.specs.Indexed.{is_indexed_at};
ghost use Rattle.state_model.specs.Put.{put};
ghost use Rattle.annot_schema.specs.Created.{IsAdmissible, IsSound};
ghost use Rattle.ref_index.specs.Stands.{Stands};
ghost use Rattle.ref_index.specs.Tells.{Tell};
ghost use Rattle.store_version.specs.Added.{db_viewed, db_with};
ghost use Rattle.store_version.specs.AreFew.{AreFew};

use crate::after::{parts_after, parts_copied};
use annot_schema::{Admitted, Catalog};
use own_base::{Change, ColNo, Key, MakeCopy, Row, RowName, TableNo, Text};
use own_model::{Schema, ViewDef};
use owner_graph::Graph;
use ref_index::RefIndex;
use std::alloc::{AllocError, Global};
use std::marker::Model;
use std::mem::drop;
use std::slice;
use std::sync::Arc;
use table_part::TablePart;

/// So many rows of a table may be too many to count them with those of a transaction.
const MANY_ROWS: u64 = 9_223_372_036_854_775_808;

/// The rows of a store, which contracts see as the database: a catalog, for each table by its number its rows, and the index
/// of who holds what in its UNIQUE and referring columns.
#[derive(Drop)]
pub(crate) struct Rows {
    catalog: Arc<Catalog, Global>,
    parts: Vec<TablePart>,
    index: RefIndex,
}

impl Model for Rows {
    ghost use Rattle.own_model.specs.Db.{Db};
    ghost use Rattle.own_model.specs.contracts.bound.BoundCond as cond;
    ghost use Rattle.std.specs.Coded.{codes};

    ghost Value = { Db };

    ghost coded = { Prim.hlevel (codes, cond.the_row.coded) };

    ghost use Rattle.store_version.specs.Parts.{AreTheirParts, db_of};

    ghost view = { λ rows. db_of rows.catalog.value rows.parts.items };

    ghost use Rattle.ref_index.specs.Stands.{Stands};

    ghost invariant = { λ rows. AreTheirParts rows.catalog.value.schema.tables rows.parts.items × Stands (db_of rows.catalog.value rows.parts.items) rows.index };
}

impl Rows {
    /// No table.
    pub(crate) fn new(alloc: Global) -> Result<Rows, AllocError>
        ensures { IfOk result (λ rows. rows ≡ empty) }
    {
        let catalog = Arc::new(alloc, Catalog::new(alloc))?;
        Ok(Rows {
            catalog,
            parts: Vec::new(alloc),
            index: RefIndex::new(alloc),
        })
    }

    /// Those with changes.
    pub(crate) fn after(&self, alloc: Global, changes: &[Change]) -> Result<Rows, AllocError>
        requires tells { Tell self.now changes.now }
        requires ordered { IsOrdered self.now }
        ensures { IfOk result (λ rows. rows ≡ put self.now changes.now) }
    {
        let parts = parts_after(alloc, &self.catalog, &self.parts, changes)?;
        let index = self.index.with_changes(alloc, changes)?;
        let catalog = Arc::try_clone(&self.catalog)?;
        Ok(Rows {
            catalog,
            parts,
            index,
        })
    }

    /// Those with a table at the end that was admitted, which has no rows.
    pub(crate) fn with_table(
        &self,
        alloc: Global,
        admitted: Admitted,
        text: Text,
    ) -> Result<Rows, AllocError>
        requires admissible { IsAdmissible self.now.schema admitted }
        requires ordered { IsOrdered self.now }
        ensures rows { IfOk result (λ rows. rows ≡ db_with self.now admitted text) }
        ensures sound { IfOk result (λ _. IsSound self.now.schema) }
    {
        let number = TableNo(self.catalog.schema().tables.items().len() as u32);
        let index = self.index.with_table(alloc, number, &admitted.table)?;
        let part = TablePart::new(admitted.table.key);
        let catalog = self.catalog.with_table(alloc, admitted, text)?;
        let catalog = Arc::new(alloc, catalog)?;
        let mut parts = parts_copied(alloc, &self.parts)?;
        parts.push(part)?;
        Ok(Rows {
            catalog,
            parts,
            index,
        })
    }

    /// Those with a view at the end. There is room for one more.
    pub(crate) fn with_view(
        &self,
        alloc: Global,
        definition: ViewDef,
        text: Text,
    ) -> Result<Rows, AllocError>
        requires { length self.now.schema.views < VIEWS }
        ensures { IfOk result (λ rows. rows ≡ db_viewed self.now definition text) }
    {
        let catalog = self.catalog.with_view(alloc, definition, text)?;
        let catalog = Arc::new(alloc, catalog)?;
        let parts = parts_copied(alloc, &self.parts)?;
        let index = self.index.copy(alloc)?;
        Ok(Rows {
            catalog,
            parts,
            index,
        })
    }

    /// The rows themselves, whose parts both share.
    pub(crate) fn copied(&self, alloc: Global) -> Result<Rows, AllocError>
        ensures { IfOk result (λ rows. rows ≡ self.now) }
    {
        let parts = parts_copied(alloc, &self.parts)?;
        let index = self.index.copy(alloc)?;
        let catalog = Arc::try_clone(&self.catalog)?;
        Ok(Rows {
            catalog,
            parts,
            index,
        })
    }

    /// Makes one change here. After `AllocError` all is as it was.
    pub(crate) fn change(&mut self, alloc: Global, change: &Change) -> Result<(), AllocError>
        requires tells { Tell self.old (change.now ∷ []) }
        requires ordered { IsOrdered self.old }
        ensures changed { OnOk result (self.new ≡ put self.old (change.now ∷ [])) }
        ensures unchanged { OnErr result (self.new ≡ self.old) }
    {
        let index = self.index.with_changes(alloc, slice::from_ref(change))?;
        match self.parts[change.name.table.0 as usize].change(alloc, change) {
            Ok(()) => {
                self.index = index;
                Ok(())
            }
            Err(refused) => {
                drop(index);
                Err(refused)
            }
        }
    }
}

impl Rows {
    /// Lends the catalog. Takes no memory.
    pub(crate) fn catalog(&self) -> &Catalog
        ensures schema { result.now.schema ≡ self.now.schema }
        ensures creates { result.now.creates ≡ self.now.creates }
    {
        &self.catalog
    }

    /// Lends the graph of the schema's edges. Takes no memory.
    pub(crate) fn graph(&self) -> &Graph
        ensures { IsGraphOf (length self.now.schema.tables) self.now.schema.edges result.now }
    {
        self.catalog.graph()
    }

    /// Lends the schema. Takes no memory.
    pub(crate) fn schema(&self) -> &Schema
        ensures { result.now ≡ self.now.schema }
    {
        self.catalog.schema()
    }

    /// Whether each table has so few rows that those of a transaction can be counted with them. Takes no memory.
    pub(crate) fn are_few(&self) -> bool
        ensures { IsTrue result → AreFew self.now.rows }
    {
        for part in self.parts.iter() {
            if part.len() >= MANY_ROWS {
                return false;
            }
        }
        true
    }

    /// How many rows a table has. Takes no memory.
    pub(crate) fn count(&self, table: TableNo) -> u64
        requires { table.0 < length self.now.schema.tables }
        ensures { result ≡ length (rows_at self.now.rows table.0) }
    {
        self.parts[table.0 as usize].len()
    }

    /// The row at a place of a table. Takes no memory.
    pub(crate) fn row_at(&self, table: TableNo, at: u64) -> Option<&Row>
        requires { table.0 < length self.now.schema.tables }
        ensures { option_copied result ≡ slice_get (rows_at self.now.rows table.0) at }
    {
        self.parts[table.0 as usize].at(at)
    }

    /// The row of a name. Takes no memory.
    pub(crate) fn row(&self, name: &RowName) -> Option<&Row>
        requires { name.now.table.0 < length self.now.schema.tables }
        ensures { option_copied result ≡ row_named self.now.schema self.now.rows name.now }
    {
        self.parts[name.table.0 as usize].get(&name.key)
    }

    /// A run of a table's rows that begins at a place. Takes no memory.
    pub(crate) fn rows_from(&self, table: TableNo, at: u64) -> &[Row]
        requires { table.0 < length self.now.schema.tables }
        ensures { IsRunFrom (rows_at self.now.rows table.0) at result.now }
    {
        self.parts[table.0 as usize].rows_from(at)
    }

    /// How many rows of a table hold a value in an indexed column. Takes no memory.
    pub(crate) fn holder_count(&self, table: TableNo, column: ColNo, value: &Key) -> u64
        requires ordered { IsOrdered self.now }
        requires indexed { IsTrue (is_indexed_at self.now.schema table.0 column.0) }
        ensures { result ≡ length (holders_at self.now table.0 column.0 value.now) }
    {
        self.index.holder_count(table, column, value)
    }

    /// A run of the entries of those rows that begins at a place. Takes no memory.
    pub(crate) fn holders_from(
        &self,
        table: TableNo,
        column: ColNo,
        value: &Key,
        at: u64,
    ) -> &[(Key, Key)]
        requires ordered { IsOrdered self.now }
        requires indexed { IsTrue (is_indexed_at self.now.schema table.0 column.0) }
        ensures { RunsFrom (holders_at self.now table.0 column.0 value.now) at (map (λ entry. entry.1) result.now) }
    {
        self.index.holders_from(table, column, value, at)
    }
}
