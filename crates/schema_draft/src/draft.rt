ghost use Rattle.std.specs.Prelude.{◌≡◌, [], IfOk, map, option_map, slice_get, unwrap_or};
ghost use Rattle.std.specs.Option.{option_copied};
ghost use Rattle.schema_draft.specs.Lent.{reference_seen, rule_seen};
ghost use Rattle.schema_model.specs.Columns as spec;
ghost use Rattle.schema_model.specs.Columns.{column_names, columns_of, is_named, key_columns};
ghost use Rattle.schema_model.specs.OnRules.{edge_on, rules_of};
ghost use Rattle.schema_model.specs.References.{reference_on, references_of};

use crate::kinds::gives_edge;
use crate::part;
use own_base::Name;
use own_model::{ColumnDef, CreateTable, RefDef};
use row_reading::is_same_name;
use std::alloc::{AllocError, Global};
use std::marker::Model;

/// A reference of a CREATE TABLE, lent: the column that has it, and what it refers to.
#[derive(Clone, Copy, Debug)]
pub struct Reference<'a> {
    pub column: &'a Name,
    pub refers: &'a RefDef,
}

/// What an ON rule does, to the columns that it names or to the row: ON GET hides, ON DEL makes NULL or removes.
#[derive(Clone, Copy, Debug, PartialEq, Eq)]
pub enum Effect {
    Hide,
    Blank,
    Strike,
}

/// An ON rule of a CREATE TABLE, lent: the column that it stands on, what it does, and the columns that it names.
#[derive(Clone, Copy, Debug)]
pub struct OnRule<'a> {
    pub column: &'a Name,
    pub effect: Effect,
    pub ruled: &'a [Name],
}

/// A CREATE TABLE taken apart: its parts by what they are, each kind in the text's order. Contracts see the CREATE.
#[derive(Debug, Drop)]
pub struct Draft<'a> {
    create: &'a CreateTable,
    columns: Vec<&'a ColumnDef>,
    keys: Vec<&'a Name>,
    references: Vec<Reference<'a>>,
    rules: Vec<OnRule<'a>>,
}

impl<'a> Model for Draft<'a> {
    ghost use Rattle.own_model.specs.declared.create.CreateTable.{CreateTable as Seen};
    ghost use Rattle.schema_draft.specs.Parts.{IsTakenApart};

    ghost Value = { Seen };

    ghost view = { λ draft. draft.create.now };

    ghost invariant = { λ draft. IsTakenApart draft.create.now draft.columns.items draft.keys.items draft.references.items draft.rules.items };
}

impl<'a> Draft<'a> {
    /// Takes the CREATE apart.
    pub fn of(alloc: Global, create: &'a CreateTable) -> Result<Draft<'a>, AllocError>
        ensures { IfOk result (λ draft. draft ≡ create.now) }
    {
        let parts = create.parts.items();
        let columns = part::columns(alloc, parts)?;
        let keys = part::keys(alloc, parts)?;
        let references = part::references(alloc, parts)?;
        let rules = part::rules(alloc, parts)?;
        Ok(Draft {
            create,
            columns,
            keys,
            references,
            rules,
        })
    }

    /// The CREATE itself.
    pub fn create(&self) -> &'a CreateTable
        ensures { result.now ≡ self.now }
    {
        self.create
    }

    /// The columns.
    pub fn columns(&self) -> &[&'a ColumnDef]
        ensures { map (λ column. column.now) result.now ≡ columns_of self.now }
    {
        self.columns.as_slice()
    }

    /// The columns that PRIMARY KEY is given to, each as often as it is.
    pub fn keys(&self) -> &[&'a Name]
        ensures { map (λ key. key.now) result.now ≡ key_columns self.now }
    {
        self.keys.as_slice()
    }

    /// The references.
    pub fn references(&self) -> &[Reference<'a>]
        ensures { map reference_seen result.now ≡ references_of self.now }
    {
        self.references.as_slice()
    }

    /// The ON rules.
    pub fn rules(&self) -> &[OnRule<'a>]
        ensures { map rule_seen result.now ≡ rules_of self.now }
    {
        self.rules.as_slice()
    }

    /// The column that is the primary key: the first that PRIMARY KEY is given to.
    pub fn key_name(&self) -> Option<&'a Name>
        ensures first { option_copied result ≡ slice_get (key_columns self.now) 0 }
        ensures named { unwrap_or (option_copied result) [] ≡ spec.key_name self.now }
    {
        self.keys.first().copied()
    }

    /// The reference of a column; the first, where it has more.
    pub fn reference_on(&self, column: &Name) -> Option<Reference<'a>>
        ensures { option_map reference_seen result ≡ reference_on self.now column.now }
    {
        self.references
            .iter()
            .find(|reference| is_same_name(reference.column, column))
            .copied()
    }

    /// The first of a column's references that gives an edge.
    pub fn edge_on(&self, column: &Name) -> Option<Reference<'a>>
        ensures { option_map reference_seen result ≡ edge_on self.now column.now }
    {
        self.references
            .iter()
            .find(|reference| gives_edge(reference.refers.kind)
                && is_same_name(reference.column, column))
            .copied()
    }

    /// Whether there is a column of this name.
    pub fn has_column(&self, name: &Name) -> bool
        ensures { result ≡ is_named (column_names self.now) name.now }
    {
        self.columns
            .iter()
            .any(|column| is_same_name(&column.name, name))
    }
}
