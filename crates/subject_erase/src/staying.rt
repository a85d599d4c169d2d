ghost use Rattle.std.specs.Prelude.{◌≡◌, ◌<◌, ◌&&◌, ◌||◌, IfOk, IsTrue, length, map, not};
ghost use Rattle.std.specs.List.{range_with_len};
ghost use Rattle.own_base.specs.declared.row_name.RowName.{RowName};
ghost use Rattle.own_model.specs.Stored.{rows_at};
ghost use Rattle.owner_graph.specs.Graph.{IsGraphOf};
ghost use Rattle.owner_sets.specs.Sets.{AreSetsOf};
ghost use Rattle.schema_model.specs.OwnerSchema.{IsOwnerSchema};
ghost use Rattle.schema_model.specs.Tables as spec;
ghost use Rattle.schema_model.specs.WithinLimits.{IsWithinLimits};
ghost use Rattle.subject_erase.specs.Flags.{AreFlagsOf, flag_at};
ghost use Rattle.subject_erase.specs.Staying.{is_claimed, stays_by};
ghost use Rattle.subject_model.specs.Owners.{owners, owns};
ghost use Rattle.subject_model.specs.Stays.{stays};

use crate::claimed::claimed_flags;
use crate::flags::{Flags, flag_at};
use crate::owned::owned_flags;
use crate::struck::struck_flags;
use own_base::{List, Subject, TableNo};
use own_model::StoreView;
use owner_graph::Graph;
use owner_sets::OwnerSets;
use row_reading::{is_private, is_subject};
use std::alloc::{AllocError, Global};

/// Whether a row stays: not the subject's own row, which is the only subject row that it owns, and of a private table only
/// a row that another subject holds.
fn stays(subjects: bool, private: bool, owned: bool, claimed: bool) -> bool
    ensures { result ≡ (not (subjects && owned) && (not private || claimed)) }
{
    !(subjects && owned) && (!private || claimed)
}

/// Which rows of a table stay, given those that the subject owns and those that another holds.
fn table_staying<V: StoreView>(
    alloc: Global,
    view: &V,
    owned: &[List<bool>],
    claimed: &[List<bool>],
    table: TableNo,
) -> Result<List<bool>, AllocError>
    requires { table.0 < length (V.db view.now).schema.tables }
    ensures { IfOk result (λ flags. flags ≡ map (λ place. stays_by (V.db view.now).schema table.0 (flag_at owned.now table.0 place) (flag_at claimed.now table.0 place))
        (range_with_len 0 (length (rows_at (V.db view.now).rows table.0)))) }
{
    let subjects = is_subject(view.schema(), table.0 as usize);
    let private = is_private(view.schema(), table.0 as usize);
    let mut staying = List::new(alloc);
    for at in 0..view.count(table) {
        let owned = flag_at(owned, table, at);
        let claimed = flag_at(claimed, table, at);
        staying.add(stays(subjects, private, owned, claimed))?;
    }
    Ok(staying)
}

/// Which rows of a store stay.
fn staying_given<V: StoreView>(
    alloc: Global,
    view: &V,
    owned: &[List<bool>],
    claimed: &[List<bool>],
) -> Result<Flags, AllocError>
    requires limits { IsWithinLimits (V.db view.now).schema }
    requires owner { IsOwnerSchema (V.db view.now).schema }
    ensures { IfOk result (λ flags. (subject : RowName) → IsTrue (spec.is_subject (V.db view.now).schema subject.table.0)
        → AreFlagsOf (V.db view.now) (owns (V.db view.now) subject) owned.now
        → AreFlagsOf (V.db view.now) (is_claimed (V.db view.now) subject) claimed.now
        → AreFlagsOf (V.db view.now) (stays (V.db view.now) subject) flags) }
{
    let mut staying = List::new(alloc);
    for number in 0..view.schema().tables.items().len() {
        let table = TableNo(number as u32);
        staying.add(table_staying(alloc, view, owned, claimed, table)?)?;
    }
    Ok(staying)
}

/// Which rows of a store stay when a subject is forgotten, by the sets of their owners and the graph of the schema's edges.
pub(crate) fn staying_flags<V: StoreView>(
    alloc: Global,
    view: &V,
    graph: &Graph,
    sets: &OwnerSets,
    subject: &Subject,
) -> Result<Flags, AllocError>
    requires limits { IsWithinLimits (V.db view.now).schema }
    requires owner { IsOwnerSchema (V.db view.now).schema }
    requires graph { IsGraphOf (length (V.db view.now).schema.tables) (V.db view.now).schema.edges graph.now }
    requires owners { AreSetsOf (V.db view.now) (owners (V.db view.now)) sets.now.owners }
    requires subject { IsTrue (spec.is_subject (V.db view.now).schema subject.now.0.table.0) }
    ensures { IfOk result (AreFlagsOf (V.db view.now) (stays (V.db view.now) subject.now.0)) }
{
    let owned = owned_flags(alloc, view, sets, subject)?;
    let struck = struck_flags(alloc, view, graph, owned.items())?;
    let claimed = claimed_flags(alloc, view, graph, owned.items(), struck.items())?;
    staying_given(alloc, view, owned.items(), claimed.items())
}
