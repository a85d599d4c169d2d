ghost use Rattle.std.specs.Prelude.{◌≡◌, IfOk, IsTrue};
ghost use Rattle.link_model.specs.Holds.{holders_at};
ghost use Rattle.link_model.specs.Indexed.{is_indexed_at};
ghost use Rattle.change_check.specs.Holders.{first_cell, first_of_many};

use crate::cell_name::CellName;
use link_model::Referring;
use own_base::{ColNo, Key, MakeCopy, RowName, TableNo};
use std::alloc::{AllocError, Global};

/// The first cell of an indexed column, by key, that holds a value.
pub(crate) fn first_holder<V: Referring>(
    alloc: Global,
    view: &V,
    table: TableNo,
    column: ColNo,
    value: &Key,
) -> Result<Option<CellName>, AllocError>
    requires { IsTrue (is_indexed_at (V.linked view.now).schema table.0 column.0) }
    ensures { IfOk result (λ first. first ≡ first_cell table.0 column.0 (holders_at (V.linked view.now) table.0 column.0 value.now)) }
{
    match view.holders_from(table, column, value, 0).first() {
        Some((_, key)) => {
            let key = key.copy(alloc)?;
            let row = RowName { table, key };
            Ok(Some(CellName { row, column }))
        }
        None => Ok(None),
    }
}

/// The first of them, where they are two or more.
pub(crate) fn first_of_many<V: Referring>(
    alloc: Global,
    view: &V,
    table: TableNo,
    column: ColNo,
    value: &Key,
) -> Result<Option<CellName>, AllocError>
    requires { IsTrue (is_indexed_at (V.linked view.now).schema table.0 column.0) }
    ensures { IfOk result (λ first. first ≡ first_of_many table.0 column.0 (holders_at (V.linked view.now) table.0 column.0 value.now)) }
{
    if view.holder_count(table, column, value) < 2 {
        return Ok(None);
    }
    first_holder(alloc, view, table, column, value)
}
