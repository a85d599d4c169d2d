ghost use Rattle.std.specs.Prelude.{◌≡◌, IfOk};
ghost use Rattle.shelf_model.specs.EdgePlaces.{edges_in};

use own_base::{EdgeNo, List, MakeCopy};
use std::alloc::{AllocError, Global};
use std::marker::Model;
use std::sync::Arc;

/// Where the numbers of some edges lie: up to two in the place itself, which most rows need no more than; of more, copies share
/// one list.
#[derive(Debug, Drop)]
pub(crate) enum EdgePlaces {
    Nowhere,
    One([EdgeNo; 1]),
    Two([EdgeNo; 2]),
    Shared(Arc<List<EdgeNo>, Global>),
}

/// Some edges by number, in order, which contracts see as the list of them. A copy takes no memory.
#[derive(Debug, Drop)]
pub struct EdgeList {
    places: EdgePlaces,
}

/// What it takes, in bytes; more than two edges lie beside it.
const _: () = prove!(size_of::<EdgeList>() == 16);

impl Model for EdgeList {
    ghost use Rattle.std.specs.Prelude.{List as Seq};
    ghost use Rattle.own_base.specs.declared.number.EdgeNo.{EdgeNo as Seen};
    ghost use Rattle.shelf_model.specs.EdgePlaces.{edges_in};

    ghost Value = { Seq Seen };

    ghost view = { λ edges. edges_in edges.places };
}

impl EdgeList {
    /// The edges of a list, in its order. For up to two it takes no memory.
    pub fn from_list(alloc: Global, edges: List<EdgeNo>) -> Result<EdgeList, AllocError>
        ensures { IfOk result (λ list. list ≡ edges) }
    {
        let places = match edges.items() {
            [] => EdgePlaces::Nowhere,
            [one] => EdgePlaces::One([*one]),
            [one, other] => EdgePlaces::Two([*one, *other]),
            _ => EdgePlaces::Shared(Arc::new(alloc, edges)?),
        };
        Ok(EdgeList { places })
    }

    /// Lends them, in order. Takes no memory.
    pub fn items(&self) -> &[EdgeNo]
        ensures { result.now ≡ self.now }
    {
        match &self.places {
            EdgePlaces::Nowhere => &[],
            EdgePlaces::One(one) => one.as_slice(),
            EdgePlaces::Two(both) => both.as_slice(),
            EdgePlaces::Shared(edges) => edges.items(),
        }
    }
}

impl MakeCopy for EdgeList {
    /// Takes no memory; `AllocError` comes only where the count of those that share a list is full.
    fn copy(&self, _alloc: Global) -> Result<EdgeList, AllocError> {
        let places = match &self.places {
            EdgePlaces::Nowhere => EdgePlaces::Nowhere,
            EdgePlaces::One(one) => EdgePlaces::One(*one),
            EdgePlaces::Two(both) => EdgePlaces::Two(*both),
            EdgePlaces::Shared(edges) => EdgePlaces::Shared(Arc::try_clone(edges)?),
        };
        Ok(EdgeList { places })
    }
}
