//! The table that a CREATE TABLE adds.
ghost use Rattle.std.specs.Prelude.{◌≡◌, ◌<◌, ◌≤◌, ◌^◌, bytes_eq, length, map, option_map, position, unwrap_or, IfOk, IfSome};
ghost use Rattle.std.specs.List.{list_any};
ghost use Rattle.schema_draft.specs.Lent.{reference_seen};
ghost use Rattle.schema_draft.specs.Names.{AreNamesOf};
ghost use Rattle.schema_model.specs.Columns.{columns_of, is_not_null, is_unique, key_name, makes_unique};
ghost use Rattle.schema_model.specs.NewTable as spec;
ghost use Rattle.schema_model.specs.References.{reference_on};

use crate::draft::{Draft, Reference};
use crate::named_table::number_of;
use crate::names::Names;
use own_base::{ColNo, List, MakeCopy, Name, TableNo};
use own_model::{Attr, Column, ColumnDef, CreateTable, Part, RefKind, Schema, TableDef};
use row_reading::is_same_name;
use std::alloc::{AllocError, Global};

/// Whether this part makes a column UNIQUE.
fn makes_unique(name: &Name, part: &Part) -> bool
    ensures { result ≡ makes_unique name.now part.now }
{
    match part {
        Part::Unique(column) => is_same_name(column, name),
        _ => false,
    }
}

/// Whether a part makes this column UNIQUE.
fn has_unique_part(create: &CreateTable, name: &Name) -> bool
    ensures { result ≡ list_any (makes_unique name.now) create.now.parts }
{
    create
        .parts
        .items()
        .iter()
        .any(|part| makes_unique(name, part))
}

/// Whether UNIQUE stands after a column's kind.
fn is_unique(column: &ColumnDef) -> bool
    ensures { result ≡ list_any is_unique column.now.attrs }
{
    column
        .attrs
        .items()
        .iter()
        .any(|attr| matches!(attr, Attr::Unique))
}

/// Whether NOT NULL stands after a column's kind.
fn is_not_null(column: &ColumnDef) -> bool
    ensures { result ≡ list_any is_not_null column.now.attrs }
{
    column
        .attrs
        .items()
        .iter()
        .any(|attr| matches!(attr, Attr::NotNull))
}

/// What a reference is to a column: its kind, and the number of the table that it names.
fn link(schema: &Schema, names: &Names, reference: Reference) -> (RefKind, TableNo)
    requires named { AreNamesOf names.now schema.now }
    requires tables { length schema.now.tables < 2 ^ 32 }
    ensures { result ≡ spec.link_of schema.now (reference_seen reference.entry) }
{
    let refers = reference.refers;
    (refers.kind, number_of(schema, names, &refers.table))
}

/// What a column of this name refers to.
fn refers_of(
    schema: &Schema,
    names: &Names,
    draft: &Draft,
    column: &Name,
) -> Option<(RefKind, TableNo)>
    requires named { AreNamesOf names.now schema.now }
    requires tables { length schema.now.tables < 2 ^ 32 }
    ensures { result ≡ option_map (spec.link_of schema.now) (reference_on draft.now column.now) }
{
    match draft.reference_on(column) {
        Some(reference) => Some(link(schema, names, reference)),
        None => None,
    }
}

/// A column of the new table.
#[tactic(auto, unfolding(schema_model::specs::NewTable::new_column))]
fn new_column(
    alloc: Global,
    schema: &Schema,
    names: &Names,
    draft: &Draft,
    column: &ColumnDef,
) -> Result<Column, AllocError>
    requires named { AreNamesOf names.now schema.now }
    requires tables { length schema.now.tables < 2 ^ 32 }
    ensures { IfOk result (λ made. made ≡ spec.new_column schema.now draft.now column.now) }
{
    let name = column.name.copy(alloc)?;
    Ok(Column {
        name,
        kind: column.kind,
        not_null: is_not_null(column),
        unique: is_unique(column) || has_unique_part(draft.create(), &column.name),
        refers: refers_of(schema, names, draft, &column.name),
    })
}

/// The columns of the new table.
fn new_columns(
    alloc: Global,
    schema: &Schema,
    names: &Names,
    draft: &Draft,
) -> Result<List<Column>, AllocError>
    requires named { AreNamesOf names.now schema.now }
    requires tables { length schema.now.tables < 2 ^ 32 }
    ensures { IfOk result (λ made. made ≡ map (spec.new_column schema.now draft.now) (columns_of draft.now)) }
{
    let mut columns = List::new(alloc);
    for column in draft.columns() {
        columns.add(new_column(alloc, schema, names, draft, column)?)?;
    }
    Ok(columns)
}

/// The name of the primary key; where there is none, no bytes.
fn key_bytes<'a>(draft: &Draft<'a>) -> &'a [u8]
    ensures { result.now ≡ key_name draft.now }
{
    match draft.key_name() {
        Some(name) => name.bytes(),
        None => &[],
    }
}

/// The number of the first column of this name.
fn column_number(draft: &Draft, name: &[u8]) -> Option<usize>
    ensures number { result ≡ position (λ column. bytes_eq column.name name.now) (columns_of draft.now) }
    ensures within { IfSome result (λ number. number < length (columns_of draft.now)) }
{
    draft
        .columns()
        .iter()
        .position(|column| column.name.bytes() == name)
}

/// The number of the column that is the primary key. Where no column is, it is 0.
fn key_number(draft: &Draft) -> ColNo
    requires { length (columns_of draft.now) ≤ 2 ^ 32 }
    ensures { result.0 ≡ unwrap_or (position (λ column. bytes_eq column.name (key_name draft.now)) (columns_of draft.now)) 0 }
{
    match column_number(draft, key_bytes(draft)) {
        Some(number) => ColNo(number as u32),
        None => ColNo(0),
    }
}

/// The table that the CREATE adds to a schema.
#[tactic(auto, unfolding(schema_model::specs::NewTable::new_table))]
pub fn new_table(
    alloc: Global,
    schema: &Schema,
    names: &Names,
    draft: &Draft,
) -> Result<TableDef, AllocError>
    requires named { AreNamesOf names.now schema.now }
    requires tables { length schema.now.tables < 2 ^ 32 }
    requires columns { length (columns_of draft.now) ≤ 2 ^ 32 }
    ensures { IfOk result (λ made. made ≡ spec.new_table schema.now draft.now) }
{
    let create = draft.create();
    let name = create.name.copy(alloc)?;
    let columns = new_columns(alloc, schema, names, draft)?;
    Ok(TableDef {
        name,
        subject: create.subject,
        key: key_number(draft),
        columns,
    })
}
