ghost use Rattle.std.specs.Prelude.{◌≡◌, ◌↔◌, IfOk, IsTrue};
ghost use Rattle.std.specs.Option.{option_copied};
ghost use Rattle.disk_model.specs.Lawful.{IsLawfulState};

use crate::keyed_row::is_row_under;
use disk_model::Put;
use own_base::{Change, MakeCopy, Row};
use own_model::TableDef;
use std::alloc::{AllocError, Global};

/// Whether a row is there, and is the same, or neither is there. Takes no memory.
pub(crate) fn is_same_state(one: Option<&Row>, other: Option<&Row>) -> bool
    ensures { IsTrue result ↔ (option_copied one.entry ≡ option_copied other.entry) }
{
    match (one, other) {
        (None, None) => true,
        (Some(one), Some(other)) => one.values() == other.values(),
        _ => false,
    }
}

/// Whether a put leaves no row, or one that may stand in the table under its key. Takes no memory.
pub(crate) fn is_lawful_state(table: &TableDef, put: &Put) -> bool
    ensures { IsTrue result ↔ IsLawfulState table.now put.now.name.key put.now.after }
{
    match &put.after {
        None => true,
        Some(row) => is_row_under(table, &put.name.key, row),
    }
}

/// A copy of a row, where it is there.
fn copied(alloc: Global, row: Option<&Row>) -> Result<Option<Row>, AllocError>
    ensures { IfOk result (λ copy. copy ≡ option_copied row.entry) }
{
    match row {
        None => Ok(None),
        Some(row) => Ok(Some(row.copy(alloc)?)),
    }
}

/// The change that a put makes, given the row that stands under its name.
pub(crate) fn change_from(
    alloc: Global,
    put: &Put,
    before: Option<&Row>,
) -> Result<Change, AllocError>
    ensures { IfOk result (λ change. change ≡ record { name = put.now.name; before = option_copied before.entry; after = put.now.after }) }
{
    let name = put.name.copy(alloc)?;
    let before = copied(alloc, before)?;
    let after = put.after.copy(alloc)?;
    Ok(Change {
        name,
        before,
        after,
    })
}
