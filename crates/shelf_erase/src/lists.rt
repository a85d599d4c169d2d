ghost use Rattle.std.specs.Prelude.{◌≡◌, ◌++◌, IfOk, IsTrue, OnOk, map};
ghost use Rattle.link_model.specs.Holds.{holders_at};
ghost use Rattle.link_model.specs.Indexed.{is_indexed_at};
ghost use Rattle.shelf_erase.specs.Upper.{named};
ghost use Rattle.shelf_model.specs.Seen.{seen};
ghost use Rattle.shelf_model.specs.Shelf.{shelf};

use link_model::Referring;
use own_base::{ColNo, Key, List, MakeCopy, RowName, Subject, TableNo};
use shelf_model::{Shelved, Shelves};
use std::alloc::{AllocError, Global};

/// Adds copies of the right sides of pairs.
fn add_rights<A, B: MakeCopy + Drop>(
    alloc: Global,
    pairs: &[(A, B)],
    items: &mut List<B>,
) -> Result<(), AllocError>
    ensures { OnOk result (items.new ≡ items.old ++ map (λ pair. pair.1) pairs.now) }
{
    for pair in pairs {
        items.add(pair.1.copy(alloc)?)?;
    }
    Ok(())
}

/// The copies of the rows that a subject owns.
pub(crate) fn shelf_of<V: Shelves>(
    alloc: Global,
    view: &V,
    subject: &Subject,
) -> Result<List<Shelved>, AllocError>
    ensures { IfOk result (λ list. list ≡ shelf (V.shelved view.now) subject.now.0) }
{
    let count = view.shelf_count(subject);
    let mut list = List::new(alloc);
    let mut at = 0;
    while at < count {
        let run = view.shelf_from(subject, at);
        add_rights(alloc, run, &mut list)?;
        at += run.len() as u64;
    }
    Ok(list)
}

/// The names of the rows that it reaches and doesn't own.
pub(crate) fn seen_of<V: Shelves>(
    alloc: Global,
    view: &V,
    subject: &Subject,
) -> Result<List<RowName>, AllocError>
    ensures { IfOk result (λ list. list ≡ seen (V.shelved view.now) subject.now.0) }
{
    let count = view.seen_count(subject);
    let mut list = List::new(alloc);
    let mut at = 0;
    while at < count {
        let run = view.seen_from(subject, at);
        add_rights(alloc, run, &mut list)?;
        at += run.len() as u64;
    }
    Ok(list)
}

/// The keys of the rows of a table that hold a key in a column.
fn holders_of<V: Referring>(
    alloc: Global,
    view: &V,
    table: TableNo,
    column: ColNo,
    key: &Key,
) -> Result<List<Key>, AllocError>
    requires { IsTrue (is_indexed_at (V.linked view.now).schema table.0 column.0) }
    ensures { IfOk result (λ list. list ≡ holders_at (V.linked view.now) table.0 column.0 key.now) }
{
    let count = view.holder_count(table, column, key);
    let mut list = List::new(alloc);
    let mut at = 0;
    while at < count {
        let run = view.holders_from(table, column, key, at);
        add_rights(alloc, run, &mut list)?;
        at += run.len() as u64;
    }
    Ok(list)
}

/// The names of the rows of a table that have these keys.
fn names_of(alloc: Global, table: TableNo, keys: &[Key]) -> Result<List<RowName>, AllocError>
    ensures { IfOk result (λ names. names ≡ map (named table) keys.now) }
{
    let mut names = List::new(alloc);
    for key in keys {
        let key = key.copy(alloc)?;
        names.add(RowName { table, key })?;
    }
    Ok(names)
}

/// The names of the rows of a table that hold a key in a column.
pub(crate) fn referrers_of<V: Referring>(
    alloc: Global,
    view: &V,
    table: TableNo,
    column: ColNo,
    key: &Key,
) -> Result<List<RowName>, AllocError>
    requires { IsTrue (is_indexed_at (V.linked view.now).schema table.0 column.0) }
    ensures { IfOk result (λ names. names ≡ map (named table) (holders_at (V.linked view.now) table.0 column.0 key.now)) }
{
    let keys = holders_of(alloc, view, table, column, key)?;
    names_of(alloc, table, keys.items())
}
