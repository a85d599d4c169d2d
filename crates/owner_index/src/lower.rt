ghost use Rattle.std.specs.Prelude.{◌≡◌, ◌++◌, Contains, IsTrue, OnOk, Some};
ghost use Rattle.std.specs.Option.{option_copied};
ghost use Rattle.owner_index.specs.Adds.{Adds, ForSome};
ghost use Rattle.owner_model.specs.Joins.{Joins, value_at, value_of};
ghost use Rattle.link_model.specs.Indexed.{is_indexed_at};
ghost use Rattle.schema_model.specs.OwnerSchema.{IsOwnerSchema};

use crate::referrers::referrers;
use crate::rows::{row_named, row_of};
use link_model::Referring;
use own_base::{ColNo, Key, List, MakeCopy, RowName, TableNo, Value};
use own_model::{Edge, StoreView};
use std::alloc::{AllocError, Global};

/// Adds the names of a list.
fn add_all(alloc: Global, names: &[RowName], work: &mut List<RowName>) -> Result<(), AllocError>
    ensures { OnOk result (work.new ≡ work.old ++ names.now) }
{
    for name in names {
        work.add(name.copy(alloc)?)?;
    }
    Ok(())
}

/// Adds the row of a table that a value names, where it names one.
pub(crate) fn add_named(
    alloc: Global,
    table: TableNo,
    value: Option<&Value>,
    work: &mut List<RowName>,
) -> Result<(), AllocError>
    ensures { OnOk result (Adds (λ name. (name.table ≡ table) × (option_copied value.entry ≡ Some (value_of name.key))) work.old work.new) }
{
    match row_named(alloc, table, value)? {
        Some(name) => work.add(name),
        None => Ok(()),
    }
}

/// Adds the rows of a table that hold a key in a column.
pub(crate) fn add_naming<V: StoreView, R: Referring>(
    alloc: Global,
    view: &V,
    index: &R,
    table: TableNo,
    column: ColNo,
    key: &Key,
    work: &mut List<RowName>,
) -> Result<(), AllocError>
    requires linked { R.linked index.now ≡ V.db view.now }
    requires indexed { IsTrue (is_indexed_at (V.db view.now).schema table.0 column.0) }
    ensures { OnOk result (Adds (λ name. (name.table ≡ table) × (value_at (V.db view.now) name column.0 ≡ Some (value_of key.now))) work.old work.new) }
{
    let names = referrers(alloc, index, table, column, key)?;
    add_all(alloc, names.items(), work)?;
    Ok(())
}

/// Adds the rows that an edge joins to an upper row.
fn add_below_along<V: StoreView, R: Referring>(
    alloc: Global,
    view: &V,
    index: &R,
    edge: &Edge,
    name: &RowName,
    work: &mut List<RowName>,
) -> Result<(), AllocError>
    requires linked { R.linked index.now ≡ V.db view.now }
    requires owner { IsOwnerSchema (V.db view.now).schema }
    requires among { Contains (V.db view.now).schema.edges edge.now }
    ensures { OnOk result (Adds (λ lower. Joins (V.db view.now) lower edge.now name.now) work.old work.new) }
{
    if edge.upper != name.table {
        Ok(())
    } else if edge.holder == edge.lower {
        add_naming(
            alloc,
            view,
            index,
            edge.holder,
            edge.column,
            &name.key,
            work,
        )
    } else {
        let value = row_of(view, name).and_then(|row| row.get(edge.column));
        add_named(alloc, edge.lower, value, work)
    }
}

/// Adds the rows that edges join to an upper row.
pub(crate) fn add_below<V: StoreView, R: Referring>(
    alloc: Global,
    view: &V,
    index: &R,
    name: &RowName,
    work: &mut List<RowName>,
) -> Result<(), AllocError>
    requires linked { R.linked index.now ≡ V.db view.now }
    requires owner { IsOwnerSchema (V.db view.now).schema }
    ensures { OnOk result (Adds (ForSome (λ edge lower. Joins (V.db view.now) lower edge name.now) (V.db view.now).schema.edges) work.old work.new) }
{
    for edge in view.schema().edges.items() {
        add_below_along(alloc, view, index, edge, name, work)?;
    }
    Ok(())
}
