ghost use Rattle.std.specs.Prelude.{◌≡◌, ◌<◌, IfOk, false, length, slice_index_or};
ghost use Rattle.own_base.specs.declared.row_name.RowName.{RowName};
ghost use Rattle.owner_graph.specs.Graph.{IsGraphOf};
ghost use Rattle.schema_model.specs.OwnerSchema.{IsOwnerSchema};
ghost use Rattle.schema_model.specs.WithinLimits.{IsWithinLimits};
ghost use Rattle.subject_erase.specs.Flags.{AreFlagsOf, AreFlagsOfTable};
ghost use Rattle.subject_model.specs.Owners.{owns};
ghost use Rattle.subject_model.specs.Stays.{struck};

use crate::flags::Flags;
use crate::followed::Followed;
use crate::marks::{mark, unmarked};
use own_base::{List, TableNo};
use own_model::StoreView;
use owner_graph::Graph;
use std::alloc::{AllocError, Global};

/// Which rows of a table are struck: an edge ruled DELETE_ROW joins them to a row that the subject owns.
fn table_struck<V: StoreView>(
    alloc: Global,
    view: &V,
    graph: &Graph,
    owned: &[List<bool>],
    table: TableNo,
) -> Result<List<bool>, AllocError>
    requires there { table.0 < length (V.db view.now).schema.tables }
    requires owner { IsOwnerSchema (V.db view.now).schema }
    requires graph { IsGraphOf (length (V.db view.now).schema.tables) (V.db view.now).schema.edges graph.now }
    ensures { IfOk result (λ flags. (subject : RowName) → AreFlagsOf (V.db view.now) (owns (V.db view.now) subject) owned.now
        → AreFlagsOfTable (V.db view.now) (struck (V.db view.now) subject) table.0 flags) }
{
    let mut marks = unmarked(alloc, view.count(table))?;
    mark(
        alloc,
        view,
        Followed::Strikes,
        owned,
        graph.edges_of(table),
        &mut marks,
    )?;
    Ok(List::from_vec(marks))
}

/// Which rows of a store are struck, given those that the subject owns.
pub(crate) fn struck_flags<V: StoreView>(
    alloc: Global,
    view: &V,
    graph: &Graph,
    owned: &[List<bool>],
) -> Result<Flags, AllocError>
    requires limits { IsWithinLimits (V.db view.now).schema }
    requires owner { IsOwnerSchema (V.db view.now).schema }
    requires graph { IsGraphOf (length (V.db view.now).schema.tables) (V.db view.now).schema.edges graph.now }
    ensures { IfOk result (λ flags. (subject : RowName) → AreFlagsOf (V.db view.now) (owns (V.db view.now) subject) owned.now
        → AreFlagsOf (V.db view.now) (struck (V.db view.now) subject) flags) }
{
    let mut struck = List::new(alloc);
    for number in 0..view.schema().tables.items().len() {
        struck.add(table_struck(alloc, view, graph, owned, TableNo(number as u32))?)?;
    }
    Ok(struck)
}
