ghost use Rattle.std.specs.Prelude.{◌<◌, IfOk, IfSome, [], ◌∷◌, length};
ghost use Rattle.page_model.specs.Changed.{AreKeyed};
ghost use Rattle.page_model.specs.ChangedPages.{AddsChanged};
ghost use Rattle.page_model.specs.Page.{ArePages, IsPage, joined};
ghost use Rattle.page_model.specs.Place.{IsPlaceOf};
ghost use Rattle.page_model.specs.Rising.{IsRising};
ghost use Rattle.page_tree.specs.Body.{pages_of};
ghost use Rattle.page_tree.specs.PutWithin.{PutWithin};

use crate::build::{inner, leaf, push_nodes};
use crate::key::{ChangeOf, KeyOf, room_of};
use crate::merge::{above_from, merged_one};
use crate::node::{Body, Node, around};
use crate::search::place_of;
use crate::way::{Way, way_among};
use own_base::MakeCopy;
use page_model::PAGE_ITEMS;
use std::alloc::{AllocError, Global};
use std::sync::Arc;

/// Whether a change puts an item whose key no item of a page has: then it comes at a place between two of them. Takes no memory.
fn is_new<T, By: KeyOf<T>, C: ChangeOf<T, By::Key>>(
    by: By,
    page: &[T],
    change: &C,
    place: usize,
) -> bool
    requires rising { IsRising (By.key_of by) By.key_cmp page.now }
    requires place { IsPlaceOf (By.key_of by) By.key_cmp (C.changed change.now) page.now place }
{
    change.item().is_some() && above_from(by, page, change.key(), place) == place
}

/// A page with a change, beside which hints stand, as a node, unless the change falls to the first item, or behind all where it
/// isn't known that what comes after the page is above it, or it would be too many items for one page.
fn copied_page<T: MakeCopy + Drop, By: KeyOf<T>, C: ChangeOf<T, By::Key>>(
    alloc: Global,
    by: By,
    page: &[T],
    hints: &[u64],
    change: &C,
    ends: bool,
) -> Result<Option<Arc<Node<T>, Global>>, AllocError>
    requires page { IsPage page.now }
    requires rising { IsRising (By.key_of by) By.key_cmp page.now }
    ensures { IfOk result (λ made. IfSome made (λ node. PutWithin (By.key_of by) By.key_cmp C.changed C.put (page.now ∷ []) change.now node.value.pages ends)) }
{
    let place = place_of(by, page, hints, change.key());
    if place == 0 {
        return Ok(None);
    }
    if !ends && place == page.len() {
        return Ok(None);
    }
    if page.len() >= room_of(by) && is_new(by, page, change, place) {
        return Ok(None);
    }
    let made = merged_one(alloc, by, page, hints, change)?;
    let count = made.items.len();
    if count == 0 {
        return Ok(None);
    }
    if count > PAGE_ITEMS {
        return Ok(None);
    }
    Ok(Some(leaf(alloc, made)?))
}

/// A node with a change in the page to which a way leads, where the page takes it: the page and the nodes above it are new, and all
/// others are shared.
#[cycle(copied)]
fn copied_node<T: MakeCopy + Drop, By: KeyOf<T>, C: ChangeOf<T, By::Key>>(
    alloc: Global,
    by: By,
    node: &Node<T>,
    change: &C,
    way: Way,
) -> Result<Option<Arc<Node<T>, Global>>, AllocError>
    requires pages { ArePages node.now.pages }
    requires rising { IsRising (By.key_of by) By.key_cmp (joined node.now.pages) }
    ensures { IfOk result (λ made. IfSome made (λ made. PutWithin (By.key_of by) By.key_cmp C.changed C.put node.now.pages change.now made.value.pages way.ends)) }
{
    match &node.body {
        Body::Leaf(page) => {
            let hints = node.hints.first(page.len());
            copied_page(alloc, by, page.as_slice(), hints, change, way.ends)
        }
        Body::Inner(nodes) => {
            let hints = node.hints.first(nodes.len());
            copied_among(alloc, by, nodes.as_slice(), hints, change, way)
        }
    }
}

/// A node above some, beside which hints stand, with a change in the page to which a way leads.
#[cycle(copied)]
fn copied_among<T: MakeCopy + Drop, By: KeyOf<T>, C: ChangeOf<T, By::Key>>(
    alloc: Global,
    by: By,
    nodes: &[Arc<Node<T>, Global>],
    hints: &[u64],
    change: &C,
    way: Way,
) -> Result<Option<Arc<Node<T>, Global>>, AllocError>
    requires some { 0 < length nodes.now }
    requires pages { ArePages (pages_of nodes.now) }
    requires rising { IsRising (By.key_of by) By.key_cmp (joined (pages_of nodes.now)) }
    ensures { IfOk result (λ made. IfSome made (λ made. PutWithin (By.key_of by) By.key_cmp C.changed C.put (pages_of nodes.now) change.now made.value.pages way.ends)) }
{
    let (number, below) = way_among(by, nodes, hints, change.key(), way);
    let (front, node, behind) = around(nodes, number);
    let Some(copied) = copied_node(alloc, by, node, change, below)? else {
        return Ok(None);
    };
    let mut made = Vec::new(alloc);
    made.reserve_exact(nodes.len())?;
    push_nodes(front, &mut made)?;
    made.push(copied)?;
    push_nodes(behind, &mut made)?;
    Ok(Some(inner(alloc, made)?))
}

/// A node with one change, where that is all, and hints lead to the page into which it falls, and the page takes it.
pub(crate) fn copied_in<T: MakeCopy + Drop, By: KeyOf<T>, C: ChangeOf<T, By::Key>>(
    alloc: Global,
    by: By,
    node: &Node<T>,
    changes: &[C],
) -> Result<Option<Arc<Node<T>, Global>>, AllocError>
    requires pages { ArePages node.now.pages }
    requires rising { IsRising (By.key_of by) By.key_cmp (joined node.now.pages) }
    requires keyed { AreKeyed (By.key_of by) C.changed C.put changes.now }
    ensures { IfOk result (λ made. IfSome made (λ made. AddsChanged (By.key_of by) By.key_cmp C.changed C.put node.now.pages changes.now [] made.value.pages)) }
{
    if changes.len() != 1 {
        return Ok(None);
    }
    let way = Way {
        checked: false,
        ends: true,
    };
    let Some(made) = copied_node(alloc, by, node, &changes[0], way)? else {
        return Ok(None);
    };
    Ok(Some(made))
}
