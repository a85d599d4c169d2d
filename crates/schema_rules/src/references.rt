//! The rules of references: a column has one at most, and it names a table by its primary key, of that key's kind.
ghost use Rattle.std.specs.Prelude.{◌≡◌, bytes_eq, find, map, slice_get};
ghost use Rattle.std.specs.Option.{option_copied};
ghost use Rattle.schema_draft.specs.Lent.{reference_seen};
ghost use Rattle.schema_model.specs.Columns.{columns_of, is_named};
ghost use Rattle.schema_model.specs.rules.MissingTables.{missing_tables};
ghost use Rattle.schema_model.specs.rules.PastTheKey as key_spec;
ghost use Rattle.schema_model.specs.rules.PastTheKey.{past_the_key};
ghost use Rattle.schema_model.specs.rules.SecondReferences.{second_references};
ghost use Rattle.schema_model.specs.rules.UnequalKinds as kind_spec;
ghost use Rattle.schema_model.specs.rules.UnequalKinds.{unequal_kinds};

use crate::scene::Scene;
use own_base::Name;
use own_model::{Column, ColumnDef, TableDef};
use row_reading::is_same_name;
use schema_draft::{Draft, Reference, is_same_kind};

/// Whether one of these references is that of this column.
fn has_reference(references: &[Reference], column: &Name) -> bool
    ensures { result ≡ is_named (map (λ reference. reference.column.now) references.now) column.now }
{
    references
        .iter()
        .any(|reference| is_same_name(reference.column, column))
}

/// Rule 4: a column has one reference at most.
pub(crate) fn second_references<'a>(draft: &Draft<'a>) -> Option<&'a Name>
    ensures { option_copied result ≡ slice_get (second_references draft.now) 0 }
{
    let references = draft.references();
    for (index, reference) in references.iter().enumerate() {
        if has_reference(&references[..index], reference.column) {
            return Some(reference.column);
        }
    }
    None
}

/// Rule 5: a reference names a table of the schema, or the new one.
pub(crate) fn missing_tables<'a>(scene: &Scene<'_, 'a>) -> Option<&'a Name>
    ensures { option_copied result ≡ slice_get (missing_tables scene.now.schema.now scene.now.draft.now) 0 }
{
    scene
        .draft
        .references()
        .iter()
        .find(|reference| scene.target(reference.refers).is_none())
        .map(|reference| &reference.refers.table)
}

/// The primary key of a table.
fn key_of(table: &TableDef) -> Option<&Column>
    ensures { option_copied result ≡ slice_get table.now.columns table.now.key.0 }
{
    table.columns.items().get(table.key.0 as usize)
}

/// Whether a table's primary key has this name.
fn is_key_of(name: &Name, table: &TableDef) -> bool
    ensures { result ≡ key_spec.is_key_of name.now table.now }
{
    key_of(table).is_some_and(|column| is_same_name(&column.name, name))
}

/// Whether a reference names the primary key of the table that it names, where that is there.
fn names_the_key(scene: &Scene, reference: &Reference) -> bool
    ensures { result ≡ key_spec.names_the_key scene.now.schema.now scene.now.draft.now (reference_seen reference.now) }
{
    match scene.target(reference.refers) {
        Some(table) => is_key_of(&reference.refers.column, table),
        None => true,
    }
}

/// Rule 6: a reference names the primary key of its table.
pub(crate) fn past_the_key<'a>(scene: &Scene<'_, 'a>) -> Option<&'a Name>
    ensures { option_copied result ≡ slice_get (past_the_key scene.now.schema.now scene.now.draft.now) 0 }
{
    scene
        .draft
        .references()
        .iter()
        .find(|reference| !names_the_key(scene, reference))
        .map(|reference| &reference.refers.column)
}

/// The first column of this name.
fn column_named<'a>(draft: &Draft<'a>, name: &Name) -> Option<&'a ColumnDef>
    ensures { option_copied result ≡ find (λ column. bytes_eq column.name name.now) (columns_of draft.now) }
{
    draft
        .columns()
        .iter()
        .find(|column| is_same_name(&column.name, name))
        .copied()
}

/// Whether a column is of the kind of a table's key.
fn is_of_key_kind(table: &TableDef, column: &ColumnDef) -> bool
    ensures { result ≡ kind_spec.is_of_key_kind table.now column.now }
{
    match key_of(table) {
        Some(key) => is_same_kind(key.kind, column.kind),
        None => true,
    }
}

/// Whether a reference's column is of the kind of the key that it names, where both are there.
fn is_of_its_kind(scene: &Scene, reference: &Reference) -> bool
    ensures { result ≡ kind_spec.is_of_its_kind scene.now.schema.now scene.now.draft.now (reference_seen reference.now) }
{
    let table = scene.target(reference.refers);
    let column = column_named(scene.draft, reference.column);
    match (table, column) {
        (Some(table), Some(column)) => is_of_key_kind(table, column),
        _ => true,
    }
}

/// Rule 7: a reference is of the kind of the key that it names.
pub(crate) fn unequal_kinds<'a>(scene: &Scene<'_, 'a>) -> Option<&'a Name>
    ensures { option_copied result ≡ slice_get (unequal_kinds scene.now.schema.now scene.now.draft.now) 0 }
{
    scene
        .draft
        .references()
        .iter()
        .find(|reference| !is_of_its_kind(scene, reference))
        .map(|reference| reference.column)
}
