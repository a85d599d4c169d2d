//! The parts of the tables of a next version.
ghost use Rattle.std.specs.Prelude.{◌≡◌, filter, map, IfOk};
ghost use Rattle.std.specs.List.{list_all, list_any};
ghost use Rattle.own_model.specs.Db.{key_of};
ghost use Rattle.page_model.specs.Changed.{AreKeyed};
ghost use Rattle.state_model.specs.MayBePut.{KeysDiffer, MayBePut};
ghost use Rattle.state_model.specs.Put.{changed_key, is_of_table, put_rows, row_after, rows_put};
ghost use Rattle.table_part.specs.Part.{rows_of};
ghost use Rattle.store_version.specs.Parts.{AreTheirParts};

use annot_schema::Catalog;
use own_base::{Change, List, MakeCopy, TableNo};
use own_model::TableDef;
use std::alloc::{AllocError, Global};
use table_part::TablePart;

/// The changes of the rows of one table.
fn changes_of(alloc: Global, changes: &[Change], number: u32) -> Result<List<Change>, AllocError>
    ensures { IfOk result (λ own. own ≡ filter (is_of_table number) changes.now) }
{
    let mut own = List::new(alloc);
    for change in changes {
        if change.name.table.0 == number {
            own.add(change.copy(alloc)?)?;
        }
    }
    Ok(own)
}

/// Whether all changes are of one table.
fn are_of(changes: &[Change], number: u32) -> bool
    ensures { result ≡ list_all (is_of_table number) changes.now }
{
    changes.iter().all(|change| change.name.table.0 == number)
}

/// Whether one of the changes is of a table.
fn has_any_of(changes: &[Change], number: u32) -> bool
    ensures { result ≡ list_any (is_of_table number) changes.now }
{
    changes.iter().any(|change| change.name.table.0 == number)
}

/// The part of a table with the changes of its rows. A part without any is shared.
fn part_after(
    alloc: Global,
    part: &TablePart,
    table: &TableDef,
    number: u32,
    changes: &[Change],
) -> Result<TablePart, AllocError>
    requires key { part.now.key ≡ table.now.key }
    requires keyed { AreKeyed (key_of table.now) changed_key row_after (filter (is_of_table number) changes.now) }
    requires once { KeysDiffer (filter (is_of_table number) changes.now) }
    ensures key { IfOk result (λ after. after.key ≡ table.now.key) }
    ensures rows { IfOk result (λ after. rows_of after ≡ rows_put number table.now changes.now (rows_of part.now)) }
{
    if !has_any_of(changes, number) {
        return part.copy(alloc);
    }
    if are_of(changes, number) {
        return part.with_changes(alloc, changes);
    }
    let own = changes_of(alloc, changes, number)?;
    part.with_changes(alloc, own.items())
}

/// The parts of all tables with the changes of their rows.
pub(crate) fn parts_after(
    alloc: Global,
    catalog: &Catalog,
    parts: &[TablePart],
    changes: &[Change],
) -> Result<Vec<TablePart>, AllocError>
    requires parts { AreTheirParts catalog.now.schema.tables parts.now }
    requires may { MayBePut catalog.now.schema.tables changes.now }
    ensures parts { IfOk result (λ after. AreTheirParts catalog.now.schema.tables after.items) }
    ensures rows { IfOk result (λ after. map rows_of after.items ≡ put_rows catalog.now.schema.tables changes.now (map rows_of parts.now)) }
{
    let tables = catalog.schema().tables.items();
    let mut after = Vec::with_capacity(alloc, parts.len())?;
    for number in 0..tables.len() {
        let part = part_after(
            alloc,
            &parts[number],
            &tables[number],
            number as u32,
            changes,
        )?;
        after.push(part)?;
    }
    Ok(after)
}

/// The parts themselves, which share their pages with these.
pub(crate) fn parts_copied(alloc: Global, parts: &[TablePart]) -> Result<Vec<TablePart>, AllocError>
    ensures { IfOk result (λ copies. copies.items ≡ parts.now) }
{
    let mut copies = Vec::with_capacity(alloc, parts.len() + 1)?;
    for part in parts {
        copies.push(part.copy(alloc)?)?;
    }
    Ok(copies)
}
