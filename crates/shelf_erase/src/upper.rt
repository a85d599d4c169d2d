ghost use Rattle.std.specs.Prelude.{◌≡◌, ◌≢◌, ◌↔◌, Contains, IfOk, IsTrue, Some, [], ◌∷◌};
ghost use Rattle.std.specs.Option.{option_copied};
ghost use Rattle.own_base.specs.declared.row_name.RowName.{RowName as Seen};
ghost use Rattle.owner_model.specs.Joins.{row_of, value_of};
ghost use Rattle.schema_model.specs.OwnerSchema.{IsOwnerSchema};
ghost use Rattle.shelf_erase.specs.Upper.{AreUppers};
ghost use Rattle.subject_model.specs.Named.{is_there};

use crate::lists::referrers_of;
use link_model::Linked;
use own_base::{List, Row, RowName, TableNo, Value};
use own_model::{Edge, StoreView};
use row_reading::literal_key;
use std::alloc::{AllocError, Global};

/// The row of a name, also of a table that isn't there. Takes no memory.
#[tactic(auto, unfolding(own_model::specs::Stored::row_named))]
pub(crate) fn row_of<'a, V: StoreView>(view: &'a V, name: &RowName) -> Option<&'a Row>
    ensures { option_copied result ≡ row_of (V.db view.now) name.now }
{
    if (name.table.0 as usize) < view.schema().tables.items().len() {
        view.row(name)
    } else {
        None
    }
}

/// Whether there is a row of a name. Takes no memory.
fn is_there<V: StoreView>(view: &V, name: &RowName) -> bool
    ensures { result ≡ is_there (V.db view.now) name.now }
{
    row_of(view, name).is_some()
}

/// The name of the row of a table that a value names; none and NULL name none.
fn row_named(
    alloc: Global,
    table: TableNo,
    value: Option<&Value>,
) -> Result<Option<RowName>, AllocError>
    ensures { IfOk result (λ named. (name : Seen) → (named ≡ Some name) ↔ ((name.table ≡ table) × (option_copied value.entry ≡ Some (value_of name.key)))) }
{
    match literal_key(alloc, value)? {
        Some(key) => Ok(Some(RowName { table, key })),
        None => Ok(None),
    }
}

/// A list of one name.
fn alone(alloc: Global, name: RowName) -> Result<List<RowName>, AllocError>
    ensures { IfOk result (λ names. names ≡ name ∷ []) }
{
    let mut names = List::new(alloc);
    names.add(name)?;
    Ok(names)
}

/// The row that the edge's column names, where the lower rows hold the column and the row is there.
fn named_upper<V: StoreView>(
    alloc: Global,
    view: &V,
    edge: &Edge,
    name: &RowName,
    row: &Row,
) -> Result<List<RowName>, AllocError>
    requires among { Contains (V.db view.now).schema.edges edge.now }
    requires of_lower { name.now.table ≡ edge.now.lower }
    requires held { edge.now.holder ≡ edge.now.lower }
    requires row { row_of (V.db view.now) name.now ≡ Some row.now }
    ensures { IfOk result (AreUppers (V.db view.now) name.now edge.now) }
{
    let Some(upper) = row_named(alloc, edge.upper, row.get(edge.column))? else {
        return Ok(List::new(alloc));
    };
    if is_there(view, &upper) {
        alone(alloc, upper)
    } else {
        Ok(List::new(alloc))
    }
}

/// The rows whose column names the row, where the upper rows hold the column.
fn naming_uppers<V: Linked>(
    alloc: Global,
    view: &V,
    edge: &Edge,
    name: &RowName,
    row: &Row,
) -> Result<List<RowName>, AllocError>
    requires owner { IsOwnerSchema (V.db view.now).schema }
    requires among { Contains (V.db view.now).schema.edges edge.now }
    requires of_lower { name.now.table ≡ edge.now.lower }
    requires held { edge.now.holder ≢ edge.now.lower }
    requires row { row_of (V.db view.now) name.now ≡ Some row.now }
    ensures { IfOk result (AreUppers (V.db view.now) name.now edge.now) }
{
    referrers_of(alloc, view, edge.holder, edge.column, &name.key)
}

/// The rows to which an edge leads up from a row.
pub(crate) fn uppers_of<V: Linked>(
    alloc: Global,
    view: &V,
    edge: &Edge,
    name: &RowName,
    row: &Row,
) -> Result<List<RowName>, AllocError>
    requires owner { IsOwnerSchema (V.db view.now).schema }
    requires among { Contains (V.db view.now).schema.edges edge.now }
    requires of_lower { name.now.table ≡ edge.now.lower }
    requires row { row_of (V.db view.now) name.now ≡ Some row.now }
    ensures { IfOk result (AreUppers (V.db view.now) name.now edge.now) }
{
    if edge.holder == edge.lower {
        named_upper(alloc, view, edge, name, row)
    } else {
        naming_uppers(alloc, view, edge, name, row)
    }
}
