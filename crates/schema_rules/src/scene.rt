//! What a CREATE TABLE is judged by.
ghost use Rattle.std.specs.Prelude.{◌≡◌};
ghost use Rattle.std.specs.Option.{option_copied};
ghost use Rattle.schema_draft.specs.Lent.{reference_seen};
ghost use Rattle.schema_draft.specs.Names.{AreNamesOf};
ghost use Rattle.schema_model.specs.NewTable.{new_table, target_of};
ghost use Rattle.schema_model.specs.Tables.{is_public, number_of};
ghost use Rattle.schema_model.specs.rules.OwnedSubjects.{names_subjects};

use own_base::Name;
use own_model::{RefDef, Schema, TableDef};
use row_reading::is_public;
use schema_draft::{Draft, Names, Reference, target};

/// A CREATE TABLE over the schema that it is to change: the schema, the names of its tables and views, the CREATE
/// taken apart, and the table that it adds.
#[derive(Clone, Copy)]
pub(crate) struct Scene<'s, 'a> {
    pub schema: &'s Schema,
    pub names: &'s Names,
    pub draft: &'s Draft<'a>,
    pub table: &'s TableDef,
    ghost named: { AreNamesOf names.now schema.now },
    ghost made: { table.now ≡ new_table schema.now draft.now },
}

impl<'s, 'a> Scene<'s, 'a> {
    /// The table that a reference names, of the schema or the new one.
    pub fn target(&self, refers: &RefDef) -> Option<&'s TableDef>
        ensures { option_copied result ≡ target_of self.now.schema.now self.now.draft.now refers.now }
    {
        target(self.schema, self.names, self.table, refers)
    }

    /// Whether a reference names a table of data subjects.
    pub fn names_subjects(&self, reference: &Reference) -> bool
        ensures { result ≡ names_subjects self.now.schema.now self.now.draft.now (reference_seen reference.now) }
    {
        self.target(reference.refers)
            .is_some_and(|table| table.subject)
    }

    /// Whether the schema's table of this name is public. A name that none has is judged by the number of the table
    /// that comes next.
    pub fn is_public(&self, name: &Name) -> bool
        ensures { result ≡ is_public self.now.schema.now (number_of self.now.schema.now name.now) }
    {
        let number = match self.names.table(name) {
            Some(number) => number.0 as usize,
            None => self.schema.tables.items().len(),
        };
        is_public(self.schema, number)
    }
}
