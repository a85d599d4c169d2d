ghost use Rattle.std.specs.Prelude.{◌≡◌, ◌↔◌, ◌++◌, IfOk, IsTrue, map};
ghost use Rattle.std.specs.Option.{option_copied, option_map};
ghost use Rattle.own_model.specs.Db.{key_of};
ghost use Rattle.schema_model.specs.WithinLimits.{IsWithinLimits};
ghost use Rattle.commit_replay.specs.RowChanges.{AreNextRows, ArePutRows, IsBehind, IsNextRow, IsPutBehind, row_change};

use crate::keyed_row::may_stand;
use own_base::{Change, Key, List, MakeCopy, Row, RowName, TableNo};
use own_model::{Schema, TableDef};
use row_reading::{compare_key, row_name};
use std::alloc::{AllocError, Global};

/// Whether a key stands behind that of the last row, where there is one. Takes no memory.
fn is_behind(table: &TableDef, last: Option<&Row>, key: &Key) -> bool
    ensures { IsTrue result ↔ IsBehind (option_map (key_of table.now) (option_copied last.entry)) key.now }
{
    match last {
        Some(last) => compare_key(table, last, key).is_lt(),
        None => true,
    }
}

/// The change that puts a row behind the last one, if it may stand there.
fn change_behind(
    alloc: Global,
    number: TableNo,
    table: &TableDef,
    last: Option<&Row>,
    row: &Row,
) -> Result<Option<Change>, AllocError>
    ensures { IfOk result (IsPutBehind number.0 table.now (option_map (key_of table.now) (option_copied last.entry)) row.now) }
{
    if !may_stand(table, row) {
        return Ok(None);
    }
    let name = row_name(alloc, number, table, row)?;
    if !is_behind(table, last, &name.key) {
        return Ok(None);
    }
    let after = row.copy(alloc)?;
    Ok(Some(Change {
        name,
        before: None,
        after: Some(after),
    }))
}

/// Adds the changes that put the rows of a table, and answers whether they may stand there and rise. Where they don't, some
/// of the changes are added.
fn add_rows(
    alloc: Global,
    number: TableNo,
    table: &TableDef,
    rows: &[Row],
    changes: &mut List<Change>,
) -> Result<bool, AllocError>
    ensures added { IfOk result (λ all. IsTrue all → changes.new ≡ changes.old ++ map (row_change number.0 table.now) rows.now) }
    ensures next { IfOk result (λ all. IsTrue all ↔ AreNextRows table.now None rows.now) }
{
    let mut last: Option<&Row> = None;
    for row in rows {
        let Some(change) = change_behind(alloc, number, table, last, row)? else {
            return Ok(false);
        };
        changes.add(change)?;
        last = Some(row);
    }
    Ok(true)
}

/// The changes that put the rows of all tables, where they may stand there and rise.
pub(crate) fn changes_of_rows(
    alloc: Global,
    schema: &Schema,
    tables: &[List<Row>],
) -> Result<Option<List<Change>>, AllocError>
    requires { IsWithinLimits schema.now }
    ensures { IfOk result (ArePutRows schema.now.tables tables.now) }
{
    let definitions = schema.tables.items();
    if definitions.len() != tables.len() {
        return Ok(None);
    }
    let mut changes = List::new(alloc);
    for (number, definition) in definitions.iter().enumerate() {
        let table = TableNo(number as u32);
        let rows = tables[number].items();
        if !add_rows(alloc, table, definition, rows, &mut changes)? {
            return Ok(None);
        }
    }
    Ok(Some(changes))
}
