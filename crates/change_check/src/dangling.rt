ghost use Rattle.std.specs.Prelude.{◌≡◌, ◌<◌, ◌^◌, true, IfOk, Some, length, slice_get};
ghost use Rattle.own_base.specs.declared.number.TableNo.{TableNo as Number};
ghost use Rattle.own_model.specs.declared.schema.RefKind.{RefKind as By};
ghost use Rattle.owner_model.specs.Joins.{row_of};
ghost use Rattle.schema_model.specs.OwnerSchema.{ColumnsRefer};
ghost use Rattle.change_check.specs.declared.cell_name.CellName.{CellName as Cell};
ghost use Rattle.change_check.specs.declared.refusing.Rule.TheVariants.{Reference};
ghost use Rattle.change_check.specs.Dangling.{IsWhatCame, dangling_by};
ghost use Rattle.change_check.specs.Least.{IsFurther, is_reached};
ghost use Rattle.change_check.specs.Rule.{breaks_at, breaks_by};

use crate::came::came;
use crate::cell_name::{CellName, lower};
use link_model::Linked;
use own_base::{Change, ColNo, MakeCopy, RowName};
use own_model::{Column, TableDef};
use std::alloc::{AllocError, Global};

/// The cell of a change's row in a column that refers to a table, where it came to hold a key there of which there is no
/// row.
fn dangling_by<V: Linked>(
    alloc: Global,
    view: &V,
    change: &Change,
    number: ColNo,
    column: &Column,
) -> Result<Option<CellName>, AllocError>
    requires { (link : By × Number) → column.now.refers ≡ Some link → link.1.0 < length (V.db view.now).schema.tables }
    ensures { IfOk result (λ dangling. dangling ≡ dangling_by (V.db view.now) change.now number.0 column.now) }
{
    let Some((_, table)) = column.refers else {
        return Ok(None);
    };
    let Some(key) = came(alloc, number, change)? else {
        return Ok(None);
    };
    if view.row(&RowName { table, key }).is_some() {
        return Ok(None);
    }
    let row = change.name.copy(alloc)?;
    let column = number;
    Ok(Some(CellName { row, column }))
}

/// What was found, taken further by what a change's row came to refer to.
pub(crate) fn dangling_in_columns<V: Linked>(
    alloc: Global,
    view: &V,
    change: &Change,
    definition: &TableDef,
    found: Option<CellName>,
) -> Result<Option<CellName>, AllocError>
    requires there { slice_get (V.db view.now).schema.tables change.now.name.table.0 ≡ Some definition.now }
    requires limits { length definition.now.columns < 2 ^ 32 }
    requires refer { ColumnsRefer (V.db view.now).schema definition.now }
    requires told { change.now.after ≡ row_of (V.db view.now) change.now.name }
    ensures further { IfOk result (λ least. IsFurther (breaks_at (breaks_by Reference (V.db view.now)) (V.db view.now)) found least) }
    ensures caught { IfOk result (λ least. (name : Cell) → IsWhatCame change.now name
        → breaks_at (breaks_by Reference (V.db view.now)) (V.db view.now) name ≡ true → is_reached least name ≡ true) }
{
    let mut least = found;
    for (at, column) in definition.columns.items().iter().enumerate() {
        let dangling = dangling_by(alloc, view, change, ColNo(at as u32), column)?;
        least = lower(dangling, least);
    }
    Ok(least)
}
