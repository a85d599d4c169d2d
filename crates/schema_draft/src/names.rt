ghost use Rattle.std.specs.Prelude.{◌≡◌, ◌<◌, ◌^◌, ◌∷◌, [], length, IfOk, OnOk};
ghost use Rattle.own_model.specs.Db.{empty};
ghost use Rattle.schema_draft.specs.Names.{AddsNames, AreNamesOf, has_name, named_at, table_at, table_named, view_named};

use indexmap::IndexMap;
use own_base::{MakeCopy, Name, TableNo, ViewNo};
use own_model::{Schema, TableDef, ViewDef};
use std::alloc::{AllocError, Global};
use std::marker::Model;

/// What a name of a schema is.
#[derive(Clone, Copy, Debug, PartialEq, Eq)]
pub enum Named {
    Table(TableNo),
    View(ViewNo),
}

/// The names of a schema's tables and views. Contracts see them in a list, each with what it is.
#[derive(Drop)]
pub struct Names {
    numbers: IndexMap<Name, Named>,
}

impl Model for Names {
    ghost use Rattle.std.specs.Prelude.{List, ℕ};
    ghost use Rattle.schema_draft.specs.declared.names.Named.{Named as Seen};

    ghost Value = { List (List ℕ × Seen) };

    ghost view = { λ names. names.numbers.entries };
}

impl Names {
    /// No names. Takes no memory.
    pub fn new(alloc: Global) -> Names
        ensures { AreNamesOf result empty.schema }
    {
        Names {
            numbers: IndexMap::new(alloc),
        }
    }

    /// The names of a schema. Where one represents more than one table or view, it represents the first table, or else
    /// for the first view.
    pub fn of(alloc: Global, schema: &Schema) -> Result<Names, AllocError>
        requires tables { length schema.now.tables < 2 ^ 32 }
        requires views { length schema.now.views < 2 ^ 32 }
        ensures { IfOk result (λ names. AreNamesOf names schema.now) }
    {
        let mut names = Names::new(alloc);
        names.add_tables(alloc, schema.tables.items())?;
        names.add_views(alloc, schema.views.items())?;
        Ok(names)
    }

    /// What a name is.
    pub fn named(&self, name: &Name) -> Option<Named>
        ensures { result ≡ named_at self.now name.now }
    {
        self.numbers.get(name).copied()
    }

    /// The table of this name.
    pub fn table(&self, name: &Name) -> Option<TableNo>
        ensures { result ≡ table_at self.now name.now }
    {
        match self.named(name) {
            Some(Named::Table(number)) => Some(number),
            Some(Named::View(_)) | None => None,
        }
    }

    /// Whether a table or a view has this name.
    pub fn is_taken(&self, name: &Name) -> bool
        ensures { result ≡ has_name self.now name.now }
    {
        self.named(name).is_some()
    }

    /// Adds a name, unless it is there.
    fn add(&mut self, alloc: Global, name: &Name, named: Named) -> Result<(), AllocError>
        ensures { OnOk result (AddsNames self.old self.new (named_at ((name.now, named) ∷ []))) }
    {
        if !self.is_taken(name) {
            self.numbers.insert(name.copy(alloc)?, named)?;
        }
        Ok(())
    }

    /// Adds the names of tables, numbered from 0, unless they are there.
    fn add_tables(&mut self, alloc: Global, tables: &[TableDef]) -> Result<(), AllocError>
        requires { length tables.now < 2 ^ 32 }
        ensures { OnOk result (AddsNames self.old self.new (table_named tables.now)) }
    {
        for (number, table) in tables.iter().enumerate() {
            self.add(alloc, &table.name, Named::Table(TableNo(number as u32)))?;
        }
        Ok(())
    }

    /// Adds the names of views, numbered from 0, unless they are there.
    fn add_views(&mut self, alloc: Global, views: &[ViewDef]) -> Result<(), AllocError>
        requires { length views.now < 2 ^ 32 }
        ensures { OnOk result (AddsNames self.old self.new (view_named views.now)) }
    {
        for (number, view) in views.iter().enumerate() {
            self.add(alloc, &view.name, Named::View(ViewNo(number as u32)))?;
        }
        Ok(())
    }
}
