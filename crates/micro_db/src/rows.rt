ghost use Rattle.std.specs.Prelude.{◌≡◌, ◌↔◌, IfOk, Some};
ghost use Rattle.std.specs.Option.{option_copied};
ghost use Rattle.own_base.specs.declared.row_name.RowName.{RowName as Seen};
ghost use Rattle.owner_model.specs.Joins.{row_of, value_of};
ghost use Rattle.subject_model.specs.Named.{is_there};

use own_base::{Row, RowName, TableNo, Value};
use own_model::StoreView;
use row_reading::literal_key;
use std::alloc::{AllocError, Global};

/// The row of a name, also of a table that isn't there. Takes no memory.
#[tactic(auto, unfolding(own_model::specs::Stored::row_named))]
pub(crate) fn row_of<'a, V: StoreView>(view: &'a V, name: &RowName) -> Option<&'a Row>
    ensures { option_copied result ≡ row_of (V.db view.now) name.now }
{
    if (name.table.0 as usize) < view.schema().tables.items().len() {
        view.row(name)
    } else {
        None
    }
}

/// Whether there is a row of a name. Takes no memory.
pub(crate) fn is_there<V: StoreView>(view: &V, name: &RowName) -> bool
    ensures { result ≡ is_there (V.db view.now) name.now }
{
    row_of(view, name).is_some()
}

/// The name of the row of a table that a value names; none and NULL name none.
pub(crate) fn row_named(
    alloc: Global,
    table: TableNo,
    value: Option<&Value>,
) -> Result<Option<RowName>, AllocError>
    ensures { IfOk result (λ named. (name : Seen) → (named ≡ Some name) ↔ ((name.table ≡ table) × (option_copied value.entry ≡ Some (value_of name.key)))) }
{
    match literal_key(alloc, value)? {
        Some(key) => Ok(Some(RowName { table, key })),
        None => Ok(None),
    }
}
