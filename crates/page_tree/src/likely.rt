ghost use Rattle.std.specs.Prelude.{IfSome};
ghost use Rattle.page_model.specs.Page.{joined};
ghost use Rattle.page_tree.specs.Body.{pages_of};
ghost use Rattle.page_tree.specs.Held.{HoldsRun};

use crate::hints::Hints;
use crate::node::{Body, Node};
use std::alloc::Global;
use std::sync::Arc;

/// A page to which hints lead.
#[derive(Clone, Copy)]
pub(crate) struct Likely<'a, T> {
    /// Its items.
    pub(crate) run: &'a [T],
    /// If the hints are right, the place of the item whose key has the hint, where there is one, else the one at which it would stand.
    pub(crate) place: usize,
    /// Whether no page stands behind it.
    pub(crate) last: bool,
}

/// A page of a node, of which only the hints are looked at on the way down. Takes no memory.
#[cycle(likely)]
pub(crate) fn likely_in<T>(node: &Node<T>, hint: u64) -> Option<Likely<'_, T>>
    ensures { IfSome result (λ page. HoldsRun (joined node.now.pages) page.run.now page.last) }
{
    match &node.body {
        Body::Leaf(page) => Some(Likely {
            run: page.as_slice(),
            place: node.hints.below(hint),
            last: true,
        }),
        Body::Inner(nodes) => likely_among(nodes.as_slice(), &node.hints, hint),
    }
}

/// A page of some nodes, beside which hints stand. Takes no memory.
#[cycle(likely)]
fn likely_among<'a, T>(
    nodes: &'a [Arc<Node<T>, Global>],
    hints: &Hints,
    hint: u64,
) -> Option<Likely<'a, T>>
    ensures { IfSome result (λ page. HoldsRun (joined (pages_of nodes.now)) page.run.now page.last) }
{
    let number = hints.upto(hint).saturating_sub(1);
    if number >= nodes.len() {
        return None;
    }
    let Likely { run, place, last } = likely_in(&nodes[number], hint)?;
    Some(Likely {
        run,
        place,
        last: last & (number == nodes.len() - 1),
    })
}
