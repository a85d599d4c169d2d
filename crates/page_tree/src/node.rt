ghost use Rattle.std.specs.Prelude.{◌≡◌, ◌<◌, ◌≤◌, ◌+◌, ◌++◌, drop, length, slice_get, take};
ghost use Rattle.std.specs.Option.{option_copied};
ghost use Rattle.page_model.specs.Page.{IsFirst, joined};
ghost use Rattle.page_model.specs.Run.{IsRunFrom};
ghost use Rattle.page_tree.specs.Body.{nodes_of, pages_of};

use crate::hints::Hints;
use std::alloc::Global;
use std::marker::Model;
use std::sync::Arc;

/// The most nodes right below a node.
pub(crate) const INNER_NODES: usize = 16;

/// A node of the tree: a page, or some nodes and their pages in their order. The counts and the first item stand beside
/// them, so that nothing below has to be looked at for those, and so do hints: for the first item, and for the items of the
/// page, or the first items of the nodes.
#[cycle(node)]
#[derive(Drop)]
pub(crate) struct Node<T> {
    pub(crate) items: usize,
    pub(crate) pages: usize,
    pub(crate) hint: u64,
    pub(crate) first: T,
    pub(crate) body: Body<T>,
    pub(crate) hints: Hints,
}

/// What a node holds.
#[cycle(node)]
#[derive(Drop)]
pub(crate) enum Body<T> {
    Leaf(Vec<T>),
    Inner(Vec<Arc<Node<T>, Global>>),
}

impl<T> Model for Node<T> {
    ghost use Rattle.std.specs.Prelude.{◌≡◌, length};
    ghost use Rattle.page_model.specs.Page.{joined, IsFirst};
    ghost use Rattle.page_tree.specs.Branch.{Branch};

    ghost Value = { Branch T };

    ghost use Rattle.page_tree.specs.Body.{branch_of};

    ghost view = { λ node. branch_of node.body };

    ghost invariant = { λ node. (node.items ≡ length (joined (branch_of node.body).pages)) × (node.pages ≡ length (branch_of node.body).pages) × IsFirst node.first (branch_of node.body).pages };

    ghost size = { λ branch. branch.below };

    ghost use Rattle.page_tree.specs.Falls.{falls};

    ghost size_decreases = { λ node _. falls node.body };
}

impl<T> Node<T> {
    /// How many items the pages have. Takes no memory.
    pub(crate) fn items(&self) -> usize
        ensures { result ≡ length (joined self.now.pages) }
    {
        self.items
    }

    /// How many pages there are. Takes no memory.
    pub(crate) fn pages(&self) -> usize
        ensures { result ≡ length self.now.pages }
    {
        self.pages
    }

    /// The first item. Takes no memory.
    pub(crate) fn first(&self) -> &T
        ensures { IsFirst result.now self.now.pages }
    {
        &self.first
    }

    /// The hint of the first item. Takes no memory.
    pub(crate) fn hint(&self) -> u64 {
        self.hint
    }

    /// The page of a number, counted from 0. Takes no memory.
    #[cycle(page)]
    pub(crate) fn page(&self, number: usize) -> Option<&[T]>
        ensures { option_copied result ≡ slice_get self.now.pages number }
    {
        match &self.body {
            Body::Leaf(page) if number == 0 => Some(page.as_slice()),
            Body::Leaf(_) => None,
            Body::Inner(kids) => page_among(kids.as_slice(), number),
        }
    }

    /// The item at a place, counted from 0. Takes no memory.
    #[cycle(at)]
    pub(crate) fn at(&self, place: usize) -> Option<&T>
        ensures { option_copied result ≡ slice_get (joined self.now.pages) place }
    {
        match &self.body {
            Body::Leaf(page) => page.get(place),
            Body::Inner(kids) => at_among(kids.as_slice(), place),
        }
    }

    /// The rest of the page that has the item at a place. Takes no memory.
    #[cycle(run)]
    pub(crate) fn run_from(&self, place: usize) -> &[T]
        ensures { IsRunFrom (joined self.now.pages) place result.now }
    {
        match &self.body {
            Body::Leaf(page) if place < page.len() => &page[place..],
            Body::Leaf(_) => &[],
            Body::Inner(kids) => run_among(kids.as_slice(), place),
        }
    }
}

/// The first item of some nodes. Takes no memory.
pub(crate) fn first_of<T>(nodes: &[Arc<Node<T>, Global>]) -> &T
    requires { 0 < length nodes.now }
    ensures { IsFirst result.now (pages_of nodes.now) }
{
    nodes[0].first()
}

/// So many of some nodes, and the others. Takes no memory.
pub(crate) fn parted<T>(
    nodes: &[Arc<Node<T>, Global>],
    count: usize,
) -> (&[Arc<Node<T>, Global>], &[Arc<Node<T>, Global>])
    requires some { 0 < count }
    requires others { count < length nodes.now }
    ensures front { length result.0.now ≡ count }
    ensures back { length result.1.now + count ≡ length nodes.now }
    ensures pages { pages_of nodes.now ≡ pages_of result.0.now ++ pages_of result.1.now }
    ensures items { joined (pages_of nodes.now) ≡ joined (pages_of result.0.now) ++ joined (pages_of result.1.now) }
    ensures fewer { nodes_of nodes.now ≡ nodes_of result.0.now + nodes_of result.1.now }
    ensures some { (0 < nodes_of result.0.now) × (0 < nodes_of result.1.now) }
{
    nodes.split_at(count)
}

/// The nodes before one of some, that one, and those behind it. Takes no memory.
pub(crate) fn around<T>(
    nodes: &[Arc<Node<T>, Global>],
    number: usize,
) -> (&[Arc<Node<T>, Global>], &Node<T>, &[Arc<Node<T>, Global>])
    requires { number < length nodes.now }
    ensures front { result.0.now ≡ take number nodes.now }
    ensures behind { result.2.now ≡ drop (number + 1) nodes.now }
    ensures pages { pages_of (drop number nodes.now) ≡ result.1.now.pages ++ pages_of result.2.now }
    ensures fewer { result.1.now.below + 1 + nodes_of result.2.now ≤ nodes_of nodes.now }
{
    let (front, _) = nodes.split_at(number);
    let (_, behind) = nodes.split_at(number + 1);
    (front, &nodes[number], behind)
}

/// The page of a number among the pages of some nodes.
#[cycle(page)]
fn page_among<T>(nodes: &[Arc<Node<T>, Global>], number: usize) -> Option<&[T]>
    ensures { option_copied result ≡ slice_get (pages_of nodes.now) number }
{
    let mut left = number;
    for node in nodes {
        let count = node.pages();
        if left < count {
            return node.page(left);
        }
        left -= count;
    }
    None
}

/// The item at a place among the items of some nodes.
#[cycle(at)]
fn at_among<T>(nodes: &[Arc<Node<T>, Global>], place: usize) -> Option<&T>
    ensures { option_copied result ≡ slice_get (joined (pages_of nodes.now)) place }
{
    let mut left = place;
    for node in nodes {
        let count = node.items();
        if left < count {
            return node.at(left);
        }
        left -= count;
    }
    None
}

/// The rest of the page that has the item at a place among the items of some nodes.
#[cycle(run)]
fn run_among<T>(nodes: &[Arc<Node<T>, Global>], place: usize) -> &[T]
    ensures { IsRunFrom (joined (pages_of nodes.now)) place result.now }
{
    let mut left = place;
    for node in nodes {
        let count = node.items();
        if left < count {
            return node.run_from(left);
        }
        left -= count;
    }
    &[]
}
