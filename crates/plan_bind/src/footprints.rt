ghost use Rattle.std.specs.Prelude.{◌≡◌, IfOk};
ghost use Rattle.query_model.specs.Footprints.{footprint_of};

use crate::inserted_keys::inserted_items;
use crate::read_tables::read_items;
use crate::row_or_table::row_or_table;
use own_base::List;
use own_model::{Bound, Footprint, Schema};
use std::alloc::{AllocError, Global};

/// What a bound statement may read or write. GET, FORGET and EXPLAIN have no footprint: theirs is empty.
#[tactic(auto, unfolding(query_model::specs::Footprints::footprint_of))]
pub fn footprint(alloc: Global, schema: &Schema, bound: &Bound) -> Result<Footprint, AllocError>
    ensures { IfOk result (λ items. items ≡ footprint_of schema.now bound.now) }
{
    match bound {
        Bound::Select(query) => read_items(alloc, schema, query),
        Bound::Insert { table, rows } => inserted_items(alloc, schema, *table, rows.items()),
        Bound::Update { table, cond, .. } | Bound::Delete { table, cond } => {
            row_or_table(alloc, schema, *table, cond.as_ref(), true)
        }
        Bound::Get(_) | Bound::Forget(_) | Bound::Explain => Ok(List::new(alloc)),
    }
}
