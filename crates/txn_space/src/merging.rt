ghost use Rattle.std.specs.Prelude.{◌≡◌, ◌<◌, ◌++◌, IfOk, OnOk, length};
ghost use Rattle.own_base.specs.Key.{key_cmp};
ghost use Rattle.own_model.specs.Db.{key_of};
ghost use Rattle.own_model.specs.Stored.{rows_at};
ghost use Rattle.page_model.specs.Changed.{AreKeyed, above_key, below_key};
ghost use Rattle.page_model.specs.Paged.{items};
ghost use Rattle.page_model.specs.Rising.{IsRising};
ghost use Rattle.txn_space.specs.Changed.{rows_with};
ghost use Rattle.txn_space.specs.Entries.{entry_key, entry_row};
ghost use Rattle.txn_space.specs.Passed.{upto_entry};

use crate::base_rows::BaseRows;
use crate::entry::{Entries, Entry};
use crate::row_refs::RowRefs;
use own_base::{Key, TableNo};
use own_model::{StoreView, TableDef};
use std::alloc::{AllocError, Global};

/// Adds the rows of a base that are below a key, and passes the row of that key.
fn add_below<'a, V: StoreView>(
    left: &mut BaseRows<'a, V>,
    definition: &TableDef,
    key: &Key,
    rows: &mut RowRefs<'a>,
) -> Result<(), AllocError>
    requires { IsRising (key_of definition.now) key_cmp left.old }
    ensures rows { OnOk result (rows.new ≡ rows.old ++ below_key (key_of definition.now) key_cmp key.now left.old) }
    ensures left { OnOk result (left.new ≡ above_key (key_of definition.now) key_cmp key.now left.old) }
    ensures rising { OnOk result (IsRising (key_of definition.now) key_cmp left.new) }
{
    while let Some(row) = left.next_below(definition, key) {
        rows.push(row)?;
    }
    Ok(())
}

/// Adds the rows of a base up to the key of an entry, and the row that the entry puts there.
fn add_up_to<'a, V: StoreView>(
    left: &mut BaseRows<'a, V>,
    definition: &TableDef,
    entry: &'a Entry,
    rows: &mut RowRefs<'a>,
) -> Result<(), AllocError>
    requires { IsRising (key_of definition.now) key_cmp left.old }
    ensures rows { OnOk result (rows.new ≡ rows.old ++ upto_entry definition.now entry.now left.old) }
    ensures left { OnOk result (left.new ≡ above_key (key_of definition.now) key_cmp (entry_key entry.now) left.old) }
    ensures rising { OnOk result (IsRising (key_of definition.now) key_cmp left.new) }
{
    add_below(left, definition, &entry.key, rows)?;
    if let Some(row) = &entry.row {
        rows.push(row)?;
    }
    Ok(())
}

/// The rows of a table, as its entries change them, in one pass over both.
pub(crate) fn merged_rows<'a, V: StoreView>(
    alloc: Global,
    base: &'a V,
    table: TableNo,
    definition: &TableDef,
    entries: &'a Entries,
) -> Result<RowRefs<'a>, AllocError>
    requires there { table.0 < length (V.db base.now).schema.tables }
    requires rising { IsRising (key_of definition.now) key_cmp (rows_at (V.db base.now).rows table.0) }
    requires entries { IsRising entry_key key_cmp (items entries.now) }
    requires keyed { AreKeyed (key_of definition.now) entry_key entry_row (items entries.now) }
    ensures { IfOk result (λ rows. rows ≡ rows_with definition.now (items entries.now) (rows_at (V.db base.now).rows table.0)) }
{
    let mut rows = RowRefs::new(alloc);
    let mut left = BaseRows::new(base, table);
    for entry in entries.iter() {
        add_up_to(&mut left, definition, entry, &mut rows)?;
    }
    for row in left {
        rows.push(row)?;
    }
    Ok(rows)
}
