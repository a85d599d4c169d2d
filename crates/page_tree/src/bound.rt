ghost use Rattle.std.specs.Prelude.{◌≡◌, ◌<◌, ◌^◌, length};
ghost use Rattle.page_model.specs.Bound.{Divides};
ghost use Rattle.page_model.specs.Page.{joined};
ghost use Rattle.page_model.specs.Rising.{IsRising};
ghost use Rattle.page_tree.specs.Body.{pages_of};
ghost use Rattle.page_tree.specs.NodeBelow.{IsNodeBelow};

use crate::key::{BoundOf, KeyOf};
use crate::node::{Body, Node, around};
use std::alloc::Global;
use std::sync::Arc;

/// How many of these items stand below a bound. Takes no memory.
fn place_on<T, By: KeyOf<T>, B: BoundOf<T, By>>(by: By, items: &[T], bound: &B) -> usize
    requires { IsRising (By.key_of by) By.key_cmp items.now }
    ensures { Divides (B.below bound.now by) items.now result }
{
    let mut from = 0;
    let mut upto = items.len();
    'halves: while from < upto {
        let middle = from + (upto - from) / 2;
        if bound.is_above(by, &items[middle]) {
            from = middle + 1;
        } else {
            upto = middle;
        }
    }
    from
}

/// The number of the node in which a bound divides the items of some nodes: the last whose first item stands below it, else
/// the first. Takes no memory.
fn node_below<T, By: KeyOf<T>, B: BoundOf<T, By>>(
    by: By,
    nodes: &[Arc<Node<T>, Global>],
    bound: &B,
) -> usize
    requires { 0 < length nodes.now }
    ensures { IsNodeBelow (B.below bound.now by) nodes.now result }
{
    for number in 1..nodes.len() {
        if !bound.is_above(by, nodes[number].first()) {
            return number - 1;
        }
    }
    nodes.len() - 1
}

/// How many items some nodes have. Takes no memory.
fn items_of<T>(nodes: &[Arc<Node<T>, Global>]) -> usize
    requires { length (joined (pages_of nodes.now)) < 2 ^ 64 }
    ensures { result ≡ length (joined (pages_of nodes.now)) }
{
    let mut items = 0;
    for node in nodes {
        items += node.items();
    }
    items
}

/// How many items of a node stand below a bound: one node is looked into on each level. Takes no memory.
#[cycle(place)]
pub(crate) fn place_in<T, By: KeyOf<T>, B: BoundOf<T, By>>(
    by: By,
    node: &Node<T>,
    bound: &B,
) -> usize
    requires { IsRising (By.key_of by) By.key_cmp (joined node.now.pages) }
    ensures { Divides (B.below bound.now by) (joined node.now.pages) result }
{
    // By the clause of `items` they can be counted.
    let _items = node.items();
    match &node.body {
        Body::Leaf(page) => place_on(by, page.as_slice(), bound),
        Body::Inner(nodes) => place_among(by, nodes.as_slice(), bound),
    }
}

/// How many items of some nodes stand below a bound: all those before the node in which it divides them, and some of that
/// node's. Takes no memory.
#[cycle(place)]
fn place_among<T, By: KeyOf<T>, B: BoundOf<T, By>>(
    by: By,
    nodes: &[Arc<Node<T>, Global>],
    bound: &B,
) -> usize
    requires some { 0 < length nodes.now }
    requires counted { length (joined (pages_of nodes.now)) < 2 ^ 64 }
    requires rising { IsRising (By.key_of by) By.key_cmp (joined (pages_of nodes.now)) }
    ensures { Divides (B.below bound.now by) (joined (pages_of nodes.now)) result }
{
    let (front, node, _) = around(nodes, node_below(by, nodes, bound));
    items_of(front) + place_in(by, node, bound)
}
