ghost use Rattle.std.specs.Prelude.{◌≡◌, ◌++◌, IfOk, IsTrue, OnOk, map};
ghost use Rattle.link_model.specs.Holds.{holders_at};
ghost use Rattle.link_model.specs.Indexed.{is_indexed_at};
ghost use Rattle.owner_index.specs.Referrers.{entry_name, named};

use link_model::Linked;
use own_base::{ColNo, Key, List, MakeCopy, RowName, TableNo};
use std::alloc::{AllocError, Global};

/// Adds the names of rows of a table, each the key behind a value.
fn add_names(
    alloc: Global,
    table: TableNo,
    entries: &[(Key, Key)],
    names: &mut List<RowName>,
) -> Result<(), AllocError>
    ensures { OnOk result (names.new ≡ names.old ++ map (entry_name table) entries.now) }
{
    for entry in entries {
        let key = entry.1.copy(alloc)?;
        names.add(RowName { table, key })?;
    }
    Ok(())
}

/// The names of the rows of a table that hold a key in a column.
pub(crate) fn referrers<N: Linked>(
    alloc: Global,
    after: &N,
    table: TableNo,
    column: ColNo,
    key: &Key,
) -> Result<List<RowName>, AllocError>
    requires { IsTrue (is_indexed_at (N.linked after.now).schema table.0 column.0) }
    ensures { IfOk result (λ names. names ≡ map (named table) (holders_at (N.linked after.now) table.0 column.0 key.now)) }
{
    let count = after.holder_count(table, column, key);
    let mut names = List::new(alloc);
    let mut at = 0;
    while at < count {
        let run = after.holders_from(table, column, key, at);
        add_names(alloc, table, run, &mut names)?;
        at += run.len() as u64;
    }
    Ok(names)
}
