ghost use Rattle.std.specs.Prelude.{◌≡◌, IfOk};
ghost use Rattle.std.specs.Option.{option_copied};
ghost use Rattle.change_check.specs.Came.{came, held, unless_same};

use own_base::{Change, ColNo, Key, Row};
use row_reading::{cell, literal_key};
use std::alloc::{AllocError, Global};

/// The value that a row, where there is one, holds in a column; NULL is none.
fn held(alloc: Global, column: ColNo, row: Option<&Row>) -> Result<Option<Key>, AllocError>
    ensures { IfOk result (λ value. value ≡ held column.0 (option_copied row.entry)) }
{
    match row {
        Some(row) => literal_key(alloc, cell(row, column)),
        None => Ok(None),
    }
}

/// A value, where there is one, that isn't the one before.
fn unless_same(old: Option<Key>, new: Option<Key>) -> Option<Key>
    ensures { result ≡ unless_same old new }
{
    match (old, new) {
        (Some(old), Some(new)) => {
            if old.compare(&new).is_eq() {
                None
            } else {
                Some(new)
            }
        }
        (_, new) => new,
    }
}

/// The value that the row of a change came to hold in a column. Where it held the same before there is none.
pub(crate) fn came(alloc: Global, column: ColNo, change: &Change) -> Result<Option<Key>, AllocError>
    ensures { IfOk result (λ value. value ≡ came column.0 change.now) }
{
    let old = held(alloc, column, change.before.as_ref())?;
    let new = held(alloc, column, change.after.as_ref())?;
    Ok(unless_same(old, new))
}
