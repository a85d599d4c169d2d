ghost use Rattle.std.specs.Prelude.{◌≡◌, ◌≤◌, ◌<◌, ◌++◌, OnOk, length};
ghost use Rattle.std.specs.List.{AllByRecursion, flat_map};
ghost use Rattle.own_model.specs.Stored.{rows_at};
ghost use Rattle.own_model.specs.declared.limit.TheConstants.{TABLES};
ghost use Rattle.disk_model.specs.Bounds.{AreShortRows, IsTypedRow, IsShortRow};
ghost use Rattle.disk_model.specs.Spelling.{list_spelling, row_spelling};

use disk_fields::{write_items, write_u32};
use own_base::TableNo;
use own_model::StoreView;
use std::alloc::AllocError;

/// Writes the rows of a table at the end, run by run.
fn write_rows<V: StoreView>(view: &V, table: TableNo, out: &mut Vec<u8>) -> Result<(), AllocError>
    requires there { table.0 < length (V.db view.now).schema.tables }
    requires rows { AllByRecursion IsShortRow (rows_at (V.db view.now).rows table.0) }
    ensures written { OnOk result (out.new.items ≡ out.old.items ++ flat_map row_spelling (rows_at (V.db view.now).rows table.0)) }
    ensures typed { OnOk result (AllByRecursion IsTypedRow (rows_at (V.db view.now).rows table.0)) }
{
    let count = view.count(table);
    let mut at = 0;
    while at < count {
        let run = view.rows_from(table, at);
        write_items(run, out)?;
        at += run.len() as u64;
    }
    Ok(())
}

/// Writes a table at the end: four bytes for the number of its rows, and then one behind another.
fn write_table<V: StoreView>(view: &V, table: TableNo, out: &mut Vec<u8>) -> Result<(), AllocError>
    requires there { table.0 < length (V.db view.now).schema.tables }
    requires rows { AreShortRows (rows_at (V.db view.now).rows table.0) }
    ensures written { OnOk result (out.new.items ≡ out.old.items ++ list_spelling row_spelling (rows_at (V.db view.now).rows table.0)) }
    ensures typed { OnOk result (AllByRecursion IsTypedRow (rows_at (V.db view.now).rows table.0)) }
{
    write_u32(view.count(table) as u32, out)?;
    write_rows(view, table, out)
}

/// Writes all tables at the end, one behind another.
pub(crate) fn write_tables<V: StoreView>(view: &V, out: &mut Vec<u8>) -> Result<(), AllocError>
    requires few { length (V.db view.now).schema.tables ≤ TABLES }
    requires each { length (V.db view.now).rows ≡ length (V.db view.now).schema.tables }
    requires rows { AllByRecursion AreShortRows (V.db view.now).rows }
    ensures written { OnOk result (out.new.items ≡ out.old.items ++ flat_map (list_spelling row_spelling) (V.db view.now).rows) }
    ensures typed { OnOk result (AllByRecursion (AllByRecursion IsTypedRow) (V.db view.now).rows) }
{
    let count = view.schema().tables.items().len() as u32;
    for number in 0..count {
        write_table(view, TableNo(number), out)?;
    }
    Ok(())
}
