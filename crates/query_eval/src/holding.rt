ghost use Rattle.std.specs.Prelude.{◌≡◌, ◌<◌, ◌++◌, filter, length, map, unwrap_or, IfOk, IsTrue, OnOk};
ghost use Rattle.std.specs.Option.{option_copied};
ghost use Rattle.own_model.specs.Stored.{rows_at};
ghost use Rattle.link_model.specs.Holds.{holds};
ghost use Rattle.link_model.specs.Indexed.{is_indexed_at};
ghost use Rattle.query_model.specs.Footprints.{key_column};
ghost use Rattle.query_model.specs.Stored.{IsStored};
ghost use Rattle.query_eval.specs.LookedUp.{is_found_by};
ghost use Rattle.query_eval.specs.Meetings.{meeting};
ghost use Rattle.query_eval.specs.NamedRows.{rows_named};
ghost use Rattle.query_eval.specs.Tables.{AreTables};

use crate::kept::key_column;
use crate::meeting::meeting_row;
use crate::row_list::RowList;
use link_model::Referring;
use own_base::{ColNo, Key, MakeCopy, RowName, TableNo, Value};
use own_model::StoreView;
use row_reading::{definition_of, literal_key};
use std::alloc::{AllocError, Global};

/// Whether a column is indexed: it is UNIQUE, or refers to a table. Takes no memory.
pub(crate) fn is_indexed<V: StoreView>(view: &V, table: TableNo, column: ColNo) -> bool
    requires { table.0 < length (V.db view.now).schema.tables }
    ensures { result ≡ is_indexed_at (V.db view.now).schema table.0 column.0 }
{
    match definition_of(view, table)
        .columns
        .items()
        .get(column.0 as usize)
    {
        None => false,
        Some(column) => column.unique || column.refers.is_some(),
    }
}

/// Whether a column is the primary key of its table, or indexed. Takes no memory.
pub(crate) fn is_found_by<V: StoreView>(view: &V, table: TableNo, column: ColNo) -> bool
    requires { table.0 < length (V.db view.now).schema.tables }
    ensures { result ≡ is_found_by (V.db view.now).schema table column.0 }
{
    key_column(view, table) == column || is_indexed(view, table, column)
}

/// The rows of a table whose keys stand behind a value, behind the rows so far.
fn add_rows<'a, V: StoreView>(
    alloc: Global,
    view: &'a V,
    table: TableNo,
    entries: &[(Key, Key)],
    rows: &mut RowList<'a>,
) -> Result<(), AllocError>
    requires { table.0 < length (V.db view.now).schema.tables }
    ensures { OnOk result (rows.new ≡ rows.old ++ rows_named (V.db view.now).schema (V.db view.now).rows table (map (λ entry. entry.1) entries.now)) }
{
    for entry in entries {
        let key = entry.1.copy(alloc)?;
        if let Some(row) = view.row(&RowName { table, key }) {
            rows.push(row)?;
        }
    }
    Ok(())
}

/// The rows of a table that hold a value in a column that is indexed.
pub(crate) fn rows_holding<'a, V: StoreView + Referring>(
    alloc: Global,
    view: &'a V,
    table: TableNo,
    column: ColNo,
    value: &Key,
) -> Result<RowList<'a>, AllocError>
    requires there { table.0 < length (V.db view.now).schema.tables }
    requires tables { AreTables (V.db view.now).schema (V.db view.now).rows }
    requires one { V.linked view.now ≡ V.db view.now }
    requires indexed { IsTrue (is_indexed_at (V.linked view.now).schema table.0 column.0) }
    ensures { IfOk result (λ rows. rows ≡ filter (holds column.0 value.now) (rows_at (V.db view.now).rows table.0)) }
{
    let count = view.holder_count(table, column, value);
    let mut rows = RowList::new(alloc);
    let mut at = 0;
    while at < count {
        let run = view.holders_from(table, column, value, at);
        add_rows(alloc, view, table, run, &mut rows)?;
        at += run.len() as u64;
    }
    Ok(rows)
}

/// The rows of a table that meet a value in a join, by a column that is indexed; none is NULL.
fn meeting_holders<'a, V: StoreView + Referring>(
    alloc: Global,
    view: &'a V,
    table: TableNo,
    column: ColNo,
    value: Option<&Value>,
) -> Result<RowList<'a>, AllocError>
    requires there { table.0 < length (V.db view.now).schema.tables }
    requires tables { AreTables (V.db view.now).schema (V.db view.now).rows }
    requires one { V.linked view.now ≡ V.db view.now }
    requires indexed { IsTrue (is_indexed_at (V.linked view.now).schema table.0 column.0) }
    requires stored { IsStored (unwrap_or (option_copied value) Value.Null) }
    ensures { IfOk result (λ rows. rows ≡ meeting (unwrap_or (option_copied value.entry) Value.Null) column.0 (rows_at (V.db view.now).rows table.0)) }
{
    match literal_key(alloc, value)? {
        Some(key) => rows_holding(alloc, view, table, column, &key),
        None => Ok(RowList::new(alloc)),
    }
}

/// The row of a table that meets a value in a join, by its primary key, where there is one; none is NULL.
fn meeting_key<'a, V: StoreView>(
    alloc: Global,
    view: &'a V,
    table: TableNo,
    column: ColNo,
    value: Option<&Value>,
) -> Result<RowList<'a>, AllocError>
    requires there { table.0 < length (V.db view.now).schema.tables }
    requires tables { AreTables (V.db view.now).schema (V.db view.now).rows }
    requires key { column.0 ≡ key_column (V.db view.now).schema table }
    requires stored { IsStored (unwrap_or (option_copied value) Value.Null) }
    ensures { IfOk result (λ rows. rows ≡ meeting (unwrap_or (option_copied value.entry) Value.Null) column.0 (rows_at (V.db view.now).rows table.0)) }
{
    let mut rows = RowList::new(alloc);
    if let Some(row) = meeting_row(alloc, view, table, column, value)? {
        rows.push(row)?;
    }
    Ok(rows)
}

/// The rows of a table that meet a value in a join, by its primary key or by a column that is indexed; none is NULL.
pub(crate) fn meeting_rows<'a, V: StoreView + Referring>(
    alloc: Global,
    view: &'a V,
    table: TableNo,
    column: ColNo,
    value: Option<&Value>,
) -> Result<RowList<'a>, AllocError>
    requires there { table.0 < length (V.db view.now).schema.tables }
    requires tables { AreTables (V.db view.now).schema (V.db view.now).rows }
    requires one { V.linked view.now ≡ V.db view.now }
    requires found { IsTrue (is_found_by (V.db view.now).schema table column.0) }
    requires stored { IsStored (unwrap_or (option_copied value) Value.Null) }
    ensures { IfOk result (λ rows. rows ≡ meeting (unwrap_or (option_copied value.entry) Value.Null) column.0 (rows_at (V.db view.now).rows table.0)) }
{
    if key_column(view, table) == column {
        meeting_key(alloc, view, table, column, value)
    } else {
        meeting_holders(alloc, view, table, column, value)
    }
}
