ghost use Rattle.std.specs.Prelude.{◌≡◌, IfOk, length};
ghost use Rattle.own_model.specs.Db.{Db};
ghost use Rattle.owner_graph.specs.Graph.{IsGraphOf};
ghost use Rattle.owner_index.specs.Before.{IsBefore};
ghost use Rattle.owner_index.specs.Held.{StandsFor};
ghost use Rattle.move_model.specs.Moves.{AreMovesOf};
ghost use Rattle.schema_model.specs.OwnerSchema.{IsOwnerSchema};

use crate::index::OwnerIndex;
use crate::moving::moves_of;
use crate::names::all_names;
use crate::pass::settle_all;
use crate::touching::touched;
use link_model::Referring;
use move_model::OwnerMove;
use own_base::{Change, List, MakeCopy};
use own_model::StoreView;
use owner_graph::Graph;
use row_reading::are_lone;
use std::alloc::{AllocError, Global};

impl OwnerIndex {
    /// The index after changes, and which subjects stand otherwise to which rows than before. The graph is that of the
    /// schema's edges, and the view and the references are of the state after the changes. This index stays as it is, and
    /// shares its pages with the new one where no row's subjects change. Only rows are looked at that the changes touch, that
    /// are below rows whose subjects change, or that are right above such a row.
    pub fn after<V: StoreView, R: Referring>(
        &self,
        alloc: Global,
        graph: &Graph,
        view: &V,
        references: &R,
        changes: &[Change],
    ) -> Result<(OwnerIndex, List<OwnerMove>), AllocError>
        requires graph { IsGraphOf (length (V.db view.now).schema.tables) (V.db view.now).schema.edges graph.now }
        requires linked { R.linked references.now ≡ V.db view.now }
        requires owner { IsOwnerSchema (V.db view.now).schema }
        // Whatever the state before was for which this index stands, and from which the changes lead here.
        ensures stands { IfOk result (λ both. (before : Db) → IsBefore before (V.db view.now) changes.now self.now → StandsFor (V.db view.now) both.0) }
        ensures moves { IfOk result (λ both. (before : Db) → IsBefore before (V.db view.now) changes.now self.now → AreMovesOf before (V.db view.now) both.1) }
    {
        if are_lone(view.schema(), changes) {
            let same = self.copy(alloc)?;
            return Ok((same, List::new(alloc)));
        }
        self.carried(alloc, graph, view, references, changes)
    }

    /// The same, of changes of whatever tables.
    fn carried<V: StoreView, R: Referring>(
        &self,
        alloc: Global,
        graph: &Graph,
        view: &V,
        references: &R,
        changes: &[Change],
    ) -> Result<(OwnerIndex, List<OwnerMove>), AllocError>
        requires graph { IsGraphOf (length (V.db view.now).schema.tables) (V.db view.now).schema.edges graph.now }
        requires linked { R.linked references.now ≡ V.db view.now }
        requires owner { IsOwnerSchema (V.db view.now).schema }
        ensures stands { IfOk result (λ both. (before : Db) → IsBefore before (V.db view.now) changes.now self.now → StandsFor (V.db view.now) both.0) }
        ensures moves { IfOk result (λ both. (before : Db) → IsBefore before (V.db view.now) changes.now self.now → AreMovesOf before (V.db view.now) both.1) }
    {
        let mut work = touched(alloc, view, references, changes)?;
        let mut after = self.copy(alloc)?;
        settle_all(alloc, graph, view, references, &mut after, &mut work)?;
        let names = all_names(work);
        let moves = moves_of(alloc, self, &after, names.items())?;
        Ok((after, moves))
    }
}
