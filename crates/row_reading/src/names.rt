ghost use Rattle.std.specs.Prelude.{◌≡◌, bytes_eq, IfOk};
ghost use Rattle.std.specs.List.{list_any};
ghost use Rattle.subject_model.specs.Named.{is_name, name_of};

use crate::keys::key_of;
use own_base::{Name, Row, RowName, TableNo};
use own_model::TableDef;
use std::alloc::{AllocError, Global};

/// The name of a row of a table.
pub fn row_name(
    alloc: Global,
    table: TableNo,
    definition: &TableDef,
    row: &Row,
) -> Result<RowName, AllocError>
    ensures { IfOk result (λ name. name ≡ name_of table.0 definition.now row.now) }
{
    let key = key_of(alloc, definition, row)?;
    Ok(RowName { table, key })
}

/// Whether two names of rows are one. Takes no memory.
pub fn is_name(one: &RowName, other: &RowName) -> bool
    ensures { result ≡ is_name one.now other.now }
{
    one.table == other.table && one.key.compare(&other.key).is_eq()
}

/// Whether two names of tables, views or columns are one. Takes no memory.
pub fn is_same_name(one: &Name, other: &Name) -> bool
    ensures { result ≡ bytes_eq one.now other.now }
{
    one.bytes() == other.bytes()
}

/// Whether one of these names is this one. Takes no memory.
pub fn is_among(names: &[Name], name: &Name) -> bool
    ensures { result ≡ list_any (λ other. bytes_eq other name.now) names.now }
{
    names.iter().any(|other| is_same_name(other, name))
}
