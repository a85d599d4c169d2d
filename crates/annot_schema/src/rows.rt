ghost use Rattle.std.specs.Prelude.{◌≡◌, ◌<◌, ◌^◌, length};
ghost use Rattle.own_model.specs.Stored.{holds_rows};
ghost use Rattle.schema_draft.specs.Names.{AreNamesOf};
ghost use Rattle.schema_model.specs.Refusal.{owned_rows};
ghost use Rattle.schema_model.specs.Tables as spec;
ghost use Rattle.annot_schema.specs.OwnedTables.{OwnsTablesOf};
ghost use Rattle.annot_schema.specs.Reported.{Tells};

use crate::fault::SchemaFault;
use own_base::{MakeCopy, Name};
use own_model::StoreView;
use schema_draft::{Draft, Names, is_owns, number_of};
use std::alloc::Global;

/// Whether the table of this name has a row.
fn holds_rows<V: StoreView>(view: &V, names: &Names, name: &Name) -> bool
    requires named { AreNamesOf names.now (V.db view.now).schema }
    requires tables { length (V.db view.now).schema.tables < 2 ^ 32 }
    requires there { spec.number_of (V.db view.now).schema name.now < length (V.db view.now).schema.tables }
    ensures { result ≡ holds_rows (V.db view.now).rows (spec.number_of (V.db view.now).schema name.now) }
{
    let table = number_of(view.schema(), names, name);
    view.count(table) != 0
}

/// Refuses a CREATE TABLE with an OWNS column whose table holds rows.
pub fn check_rows<V: StoreView>(
    alloc: Global,
    view: &V,
    names: &Names,
    draft: &Draft<'_>,
) -> Result<(), SchemaFault>
    requires named { AreNamesOf names.now (V.db view.now).schema }
    requires tables { length (V.db view.now).schema.tables < 2 ^ 32 }
    requires owned { OwnsTablesOf (V.db view.now).schema draft.now }
    ensures { Tells (owned_rows (V.db view.now).schema (holds_rows (V.db view.now).rows) draft.now) result }
{
    for reference in draft.references() {
        let table = &reference.refers.table;
        if is_owns(reference.refers.kind) && holds_rows(view, names, table) {
            return Err(SchemaFault::HasRows(table.copy(alloc)?));
        }
    }
    Ok(())
}
