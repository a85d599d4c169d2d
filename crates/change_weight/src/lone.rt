ghost use Rattle.std.specs.Prelude.{◌≡◌, [], ◌∷◌, IsTrue};
ghost use Rattle.std.specs.Option.{option_copied, option_map_or};
ghost use Rattle.commit_check.specs.Saturated.{saturated};
ghost use Rattle.own_model.specs.Db.{IsOrdered};
ghost use Rattle.schema_model.specs.Lone.{is_lone};
ghost use Rattle.schema_model.specs.OwnerSchema.{IsOwnerSchema};
ghost use Rattle.state_model.specs.Net.{net};
ghost use Rattle.state_model.specs.Put.{put};
ghost use Rattle.state_model.specs.Weight.{weight as weight_of};
ghost use Rattle.change_weight.specs.Shown.{lone_weight};

use crate::shown::all_shown;
use commit_check::row_size;
use own_base::{Change, Row, TableNo};
use own_model::{Schema, StoreView};

/// What a row that no subject owns or reaches weighs, where it is there, with what the views show of it.
fn lone_weight(schema: &Schema, table: TableNo, row: Option<&Row>) -> u64
    ensures { result ≡ saturated (option_map_or (lone_weight schema.now table.0) (option_copied row.entry) 0) }
{
    match row {
        Some(row) => row_size(row).saturating_add(all_shown(schema, table, row)),
        None => 0,
    }
}

/// What a store weighs after one change of a lone table that isn't made yet, as far as 64 bits tell it, given what it weighs
/// before. No row is looked at but the change's. Takes no memory.
pub fn weight_by_lone_change<B: StoreView>(before: &B, weight: u64, change: &Change) -> u64
    requires owner { IsOwnerSchema (B.db before.now).schema }
    requires weight { weight_of (B.db before.now) ≡ weight }
    requires net { change.now ∷ [] ≡ net (B.db before.now) (put (B.db before.now) (change.now ∷ [])) }
    requires ordered { IsOrdered (put (B.db before.now) (change.now ∷ [])) }
    requires lone { IsTrue (is_lone (B.db before.now).schema change.now.name.table.0) }
    ensures { result ≡ saturated (weight_of (put (B.db before.now) (change.now ∷ []))) }
{
    let schema = before.schema();
    let table = change.name.table;
    let kept = weight - lone_weight(schema, table, change.before.as_ref());
    kept.saturating_add(lone_weight(schema, table, change.after.as_ref()))
}
