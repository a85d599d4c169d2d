ghost use Rattle.std.specs.Prelude.{◌≡◌, IfOk};
ghost use Rattle.change_check.specs.Rule.{refusal_at, refused_by};
ghost use Rattle.change_check.specs.Unowned.{owner_refusal};

use crate::cell_name::CellName;
use own_base::{Key, MakeCopy, Name};
use own_model::{Refusal, Schema};
use std::alloc::{AllocError, Global};

/// A rule that what stands in a cell may break.
#[derive(Clone, Copy, Debug)]
pub(crate) enum Rule {
    Unique,
    Reference,
}

/// What is refused by a rule.
fn refused_by(rule: Rule, table: Name, key: Key, column: Name) -> Refusal
    ensures { result ≡ refused_by rule table key column }
{
    match rule {
        Rule::Unique => Refusal::Unique { table, key, column },
        Rule::Reference => Refusal::Reference { table, key, column },
    }
}

/// What is refused where a cell breaks a rule.
pub(crate) fn refusal_at(
    alloc: Global,
    rule: Rule,
    schema: &Schema,
    found: Option<CellName>,
) -> Result<Option<Refusal>, AllocError>
    ensures { IfOk result (λ told. told ≡ refusal_at (refused_by rule) schema.now found) }
{
    let Some(cell) = found else {
        return Ok(None);
    };
    let Some(definition) = schema.tables.items().get(cell.row.table.0 as usize) else {
        return Ok(None);
    };
    let Some(column) = definition.columns.items().get(cell.column.0 as usize) else {
        return Ok(None);
    };
    let table = definition.name.copy(alloc)?;
    let column = column.name.copy(alloc)?;
    Ok(Some(refused_by(rule, table, cell.row.key, column)))
}

/// What is refused where a cell is of a row without an owner.
pub(crate) fn owner_refusal(
    alloc: Global,
    schema: &Schema,
    found: Option<CellName>,
) -> Result<Option<Refusal>, AllocError>
    ensures { IfOk result (λ told. told ≡ owner_refusal schema.now found) }
{
    let Some(cell) = found else {
        return Ok(None);
    };
    let Some(definition) = schema.tables.items().get(cell.row.table.0 as usize) else {
        return Ok(None);
    };
    let table = definition.name.copy(alloc)?;
    let key = cell.row.key;
    Ok(Some(Refusal::Owner { table, key }))
}
