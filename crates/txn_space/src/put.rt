ghost use Rattle.std.specs.Prelude.{OnOk};
ghost use Rattle.txn_space.specs.HasPut.{HasPut, HasRoom, HavePut};

use crate::entry::{ByKey, Entry, Putting};
use own_base::{Change, MakeCopy};
use page_tree::Pages;
use std::alloc::{AllocError, Global};

/// The most entries of a table.
const MOST_ENTRIES: usize = 4_611_686_018_427_387_904;

/// Makes room for the entries of so many tables.
fn grow(tables: &mut Vec<Pages<Entry, ByKey>>, count: usize) -> Result<(), AllocError>
    ensures { OnOk result (HasRoom count tables.old.items tables.new.items) }
{
    while tables.len() < count {
        tables.push(Pages::new(ByKey))?;
    }
    Ok(())
}

/// Makes a change in the entries of its table.
fn put_one(
    alloc: Global,
    tables: &mut Vec<Pages<Entry, ByKey>>,
    change: &Change,
) -> Result<(), AllocError>
    ensures { OnOk result (HasPut change.now tables.old.items tables.new.items) }
{
    let number = change.name.table.0 as usize;
    grow(tables, number + 1)?;
    let entries = &mut tables[number];
    if entries.len() >= MOST_ENTRIES {
        return Err(AllocError);
    }
    let key = change.name.key.copy(alloc)?;
    let row = change.after.copy(alloc)?;
    entries.change(alloc, &Putting(Entry { key, row }))?;
    Ok(())
}

/// Makes changes in the entries of their tables, one after another.
pub(crate) fn put_all(
    alloc: Global,
    tables: &mut Vec<Pages<Entry, ByKey>>,
    changes: &[Change],
) -> Result<(), AllocError>
    ensures { OnOk result (HavePut changes.now tables.old.items tables.new.items) }
{
    for change in changes {
        put_one(alloc, tables, change)?;
    }
    Ok(())
}
