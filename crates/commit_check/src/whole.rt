ghost use Rattle.std.specs.Prelude.{◌≡◌, IfOk, None, length};
ghost use Rattle.owner_graph.specs.Graph.{IsGraphOf};
ghost use Rattle.schema_model.specs.OwnerSchema.{IsOwnerSchema};
ghost use Rattle.schema_model.specs.WithinLimits.{IsWithinLimits};
ghost use Rattle.state_model.specs.Fault.{fault};
ghost use Rattle.state_model.specs.Weight.{weight};
ghost use Rattle.commit_check.specs.Judged.{IsJudged};

use crate::judged::{Judged, judge_weight};
use crate::owner::first_owner_fault;
use crate::reference::first_reference_fault;
use crate::rows::row_limit_fault;
use crate::unique::first_unique_fault;
use crate::weight::weight_of;
use own_model::{Refusal, StoreView};
use owner_graph::{Graph, graph_of};
use owner_sets::OwnerSets;
use std::alloc::{AllocError, Global};

/// The first fault of a store's state as a whole, or its weight: a fault of a UNIQUE column, else of a reference, else a row
/// without an owner, else more rows or a greater weight than a store may have. The graph is that of the state's edges.
pub fn judge<V: StoreView>(alloc: Global, after: &V, graph: &Graph) -> Result<Judged, AllocError>
    requires limits { IsWithinLimits (V.db after.now).schema }
    requires owner { IsOwnerSchema (V.db after.now).schema }
    requires graph { IsGraphOf (length (V.db after.now).schema.tables) (V.db after.now).schema.edges graph.now }
    ensures { IfOk result (IsJudged (V.db after.now)) }
{
    if let Some(unique) = first_unique_fault(alloc, after)? {
        return Ok(Judged::Fault(unique));
    }
    if let Some(reference) = first_reference_fault(alloc, after)? {
        return Ok(Judged::Fault(reference));
    }
    let sets = OwnerSets::of(alloc, after, graph)?;
    if let Some(owner) = first_owner_fault(alloc, after, &sets)? {
        return Ok(Judged::Fault(owner));
    }
    if let Some(rows) = row_limit_fault(after) {
        return Ok(Judged::Fault(rows));
    }
    Ok(judge_weight(weight_of(after, &sets)))
}

/// What a state without a fault weighs. No rule is asked. The graph is that of the state's edges.
pub fn weigh<V: StoreView>(alloc: Global, after: &V, graph: &Graph) -> Result<u64, AllocError>
    requires limits { IsWithinLimits (V.db after.now).schema }
    requires owner { IsOwnerSchema (V.db after.now).schema }
    requires graph { IsGraphOf (length (V.db after.now).schema.tables) (V.db after.now).schema.edges graph.now }
    requires faultless { fault (V.db after.now) ≡ None }
    ensures { IfOk result (λ weighs. weighs ≡ weight (V.db after.now)) }
{
    let sets = OwnerSets::of(alloc, after, graph)?;
    Ok(weight_of(after, &sets))
}

/// What is judged of a state whose graph isn't at hand: it is made.
pub fn judge_flat<V: StoreView>(alloc: Global, after: &V) -> Result<Judged, AllocError>
    requires limits { IsWithinLimits (V.db after.now).schema }
    requires owner { IsOwnerSchema (V.db after.now).schema }
    ensures { IfOk result (IsJudged (V.db after.now)) }
{
    let graph = graph_of(alloc, after.schema())?;
    judge(alloc, after, &graph)
}

/// The first fault of a store's state as a whole.
pub fn first_fault_flat<V: StoreView>(
    alloc: Global,
    after: &V,
) -> Result<Option<Refusal>, AllocError>
    requires limits { IsWithinLimits (V.db after.now).schema }
    requires owner { IsOwnerSchema (V.db after.now).schema }
    ensures { IfOk result (λ first. first ≡ fault (V.db after.now)) }
{
    match judge_flat(alloc, after)? {
        Judged::Fault(why) => Ok(Some(why)),
        Judged::Weighs(_) => Ok(None),
    }
}
