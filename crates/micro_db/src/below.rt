ghost use Rattle.std.specs.Prelude.{◌≡◌, ◌++◌, Contains, IsTrue, OnOk, Some};
ghost use Rattle.std.specs.Option.{option_copied};
ghost use Rattle.link_model.specs.Indexed.{is_indexed_at};
ghost use Rattle.owner_index.specs.Adds.{Adds, ForSome};
ghost use Rattle.owner_model.specs.Joins.{Joins, value_at, value_of};
ghost use Rattle.schema_model.specs.OwnerSchema.{IsOwnerSchema};

use crate::referrers::referrers;
use crate::rows::{row_named, row_of};
use link_model::Linked;
use own_base::{ColNo, Key, List, MakeCopy, RowName, TableNo, Value};
use own_model::Edge;
use std::alloc::{AllocError, Global};

/// Adds the names of a list.
fn add_all(alloc: Global, names: &[RowName], work: &mut List<RowName>) -> Result<(), AllocError>
    ensures { OnOk result (work.new ≡ work.old ++ names.now) }
{
    for name in names {
        work.add(name.copy(alloc)?)?;
    }
    Ok(())
}

/// Adds the row of a table that a value names, where it names one.
fn add_named(
    alloc: Global,
    table: TableNo,
    value: Option<&Value>,
    work: &mut List<RowName>,
) -> Result<(), AllocError>
    ensures { OnOk result (Adds (λ name. (name.table ≡ table) × (option_copied value.entry ≡ Some (value_of name.key))) work.old work.new) }
{
    match row_named(alloc, table, value)? {
        Some(name) => work.add(name),
        None => Ok(()),
    }
}

/// Adds the rows of a table that hold a key in a column.
fn add_naming<N: Linked>(
    alloc: Global,
    after: &N,
    table: TableNo,
    column: ColNo,
    key: &Key,
    work: &mut List<RowName>,
) -> Result<(), AllocError>
    requires { IsTrue (is_indexed_at (N.db after.now).schema table.0 column.0) }
    ensures { OnOk result (Adds (λ name. (name.table ≡ table) × (value_at (N.db after.now) name column.0 ≡ Some (value_of key.now))) work.old work.new) }
{
    let names = referrers(alloc, after, table, column, key)?;
    add_all(alloc, names.items(), work)?;
    Ok(())
}

/// Adds the rows that an edge joins to an upper row.
fn add_below_along<N: Linked>(
    alloc: Global,
    after: &N,
    edge: &Edge,
    name: &RowName,
    work: &mut List<RowName>,
) -> Result<(), AllocError>
    requires owner { IsOwnerSchema (N.db after.now).schema }
    requires among { Contains (N.db after.now).schema.edges edge.now }
    ensures { OnOk result (Adds (λ lower. Joins (N.db after.now) lower edge.now name.now) work.old work.new) }
{
    if edge.upper != name.table {
        Ok(())
    } else if edge.holder == edge.lower {
        add_naming(alloc, after, edge.holder, edge.column, &name.key, work)
    } else {
        let value = row_of(after, name).and_then(|row| row.get(edge.column));
        add_named(alloc, edge.lower, value, work)
    }
}

/// Adds the rows that edges join to an upper row.
pub(crate) fn add_below<N: Linked>(
    alloc: Global,
    after: &N,
    name: &RowName,
    work: &mut List<RowName>,
) -> Result<(), AllocError>
    requires { IsOwnerSchema (N.db after.now).schema }
    ensures { OnOk result (Adds (ForSome (λ edge lower. Joins (N.db after.now) lower edge name.now) (N.db after.now).schema.edges) work.old work.new) }
{
    for edge in after.schema().edges.items() {
        add_below_along(alloc, after, edge, name, work)?;
    }
    Ok(())
}
