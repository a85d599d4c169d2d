use own_base::{ColNo, List, MakeCopy};
use own_model::{Attr, Column, ColumnDef, CreateTable, Part, TableDef};
use std::process::Abort;

/// Whether a column is NOT NULL.
fn is_not_null(column: &ColumnDef) -> bool {
    column
        .attrs
        .items()
        .iter()
        .any(|attr| matches!(attr, Attr::NotNull))
}

/// A column, without its references.
fn column_of(rt: &(impl Abort + AllocGlobal), column: &ColumnDef) -> Column {
    Column {
        name: column.name.copy(rt.alloc()).expect(rt, "memory"),
        kind: column.kind,
        not_null: is_not_null(column),
        unique: false,
        refers: None,
    }
}

/// A table whose primary key is its first column.
pub fn table_of(rt: &(impl Abort + AllocGlobal), create: &CreateTable) -> TableDef {
    let mut columns = List::new(rt.alloc());
    for part in create.parts.items() {
        if let Part::Column(column) = part {
            columns.add(column_of(rt, column)).expect(rt, "memory");
        }
    }
    TableDef {
        name: create.name.copy(rt.alloc()).expect(rt, "memory"),
        subject: create.subject,
        key: ColNo(0),
        columns,
    }
}
