ghost use Rattle.std.specs.Prelude.{◌≡◌, ◌↔◌, ◌<◌, Contains, IfOk, IsTrue, length};
ghost use Rattle.owner_sets.specs.Sets.{AreSetsOf, set_at};
ghost use Rattle.schema_model.specs.OwnerSchema.{IsOwnerSchema};
ghost use Rattle.schema_model.specs.WithinLimits.{IsWithinLimits};
ghost use Rattle.subject_erase.specs.Flags.{AreFlagsOf, AreFlagsOfTable};
ghost use Rattle.subject_model.specs.Owners.{owners, owns};

use crate::flags::Flags;
use own_base::{List, Subject, TableNo};
use own_model::StoreView;
use owner_sets::OwnerSets;
use std::alloc::{AllocError, Global};

/// Whether a subject is one of those that own the row at a place of a table. Takes no memory.
fn is_owner(sets: &OwnerSets, subject: &Subject, table: TableNo, at: u64) -> bool
    ensures { IsTrue result ↔ Contains (set_at sets.now.owners table.0 at) subject.now }
{
    sets.owners(table, at).contains(subject)
}

/// Which rows of a table a subject owns.
fn table_owned<V: StoreView>(
    alloc: Global,
    view: &V,
    sets: &OwnerSets,
    subject: &Subject,
    table: TableNo,
) -> Result<List<bool>, AllocError>
    requires there { table.0 < length (V.db view.now).schema.tables }
    requires owner { IsOwnerSchema (V.db view.now).schema }
    requires owners { AreSetsOf (V.db view.now) (owners (V.db view.now)) sets.now.owners }
    ensures { IfOk result (AreFlagsOfTable (V.db view.now) (owns (V.db view.now) subject.now.0) table.0) }
{
    let mut owned = List::new(alloc);
    for at in 0..view.count(table) {
        owned.add(is_owner(sets, subject, table, at))?;
    }
    Ok(owned)
}

/// Which rows of a store a subject owns.
pub(crate) fn owned_flags<V: StoreView>(
    alloc: Global,
    view: &V,
    sets: &OwnerSets,
    subject: &Subject,
) -> Result<Flags, AllocError>
    requires limits { IsWithinLimits (V.db view.now).schema }
    requires owner { IsOwnerSchema (V.db view.now).schema }
    requires owners { AreSetsOf (V.db view.now) (owners (V.db view.now)) sets.now.owners }
    ensures { IfOk result (AreFlagsOf (V.db view.now) (owns (V.db view.now) subject.now.0)) }
{
    let mut owned = List::new(alloc);
    for number in 0..view.schema().tables.items().len() {
        owned.add(table_owned(alloc, view, sets, subject, TableNo(number as u32))?)?;
    }
    Ok(owned)
}
