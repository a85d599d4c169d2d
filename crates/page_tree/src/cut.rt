ghost use Rattle.std.specs.Prelude.{◌≡◌, ◌<◌, ◌≤◌, ◌+◌, ◌⊎◌, ◌∷◌, ◌++◌, [], IfNone, IfSome, MatchBool, drop, length, take, true};
ghost use Rattle.std.specs.List.{insert};
ghost use Rattle.page_model.specs.Page.{ArePages, IsFirst, IsPage, joined};
ghost use Rattle.page_model.specs.Rising.{IsRising};
ghost use Rattle.page_tree.specs.Body.{pages_of};
ghost use Rattle.page_tree.specs.CutWithin.{CutWithin};
ghost use Rattle.page_tree.specs.IsCut.{IsCut};
ghost use Rattle.page_tree.specs.NodeOf.{Begin};

use crate::build::leaf;
use crate::hints::Hints;
use crate::key::{ChangeOf, KeyOf, room_of};
use crate::merge::above_from;
use crate::node::{Body, INNER_NODES, Node};
use crate::page::Page;
use crate::search::place_of;
use own_base::MakeCopy;
use page_model::PAGE_ITEMS;
use std::alloc::Global;
use std::sync::Arc;

/// A node of one item, with its hint.
fn node_of_one<T: MakeCopy + Drop>(
    alloc: Global,
    item: &T,
    hint: u64,
) -> Option<Arc<Node<T>, Global>>
    ensures { IfSome result (λ node. node.value.pages ≡ (item.now ∷ []) ∷ []) }
{
    let mut page = Page::with_room(alloc, 1).ok()?;
    page.items.push(item.copy(alloc).ok()?).ok()?;
    page.hints.push(hint).ok()?;
    leaf(alloc, page).ok()
}

/// Gives a node other items, the first of which is the one that it has, and their hints.
fn refill<T: Drop>(node: &mut Node<T>, items: Vec<T>, hints: Hints)
    requires { (first : T) → IsFirst first node.old.pages → IsFirst first (items.items ∷ []) }
    ensures { node.new.pages ≡ items.items ∷ [] }
{
    node.items = items.len();
    node.pages = 1;
    node.hints = hints;
    node.body = Body::Leaf(items);
}

/// Cuts a page, and answers a node of the items from a place on, whose hints are told, unless memory is refused.
fn cut_off<T: MakeCopy + Drop>(
    alloc: Global,
    page: &mut Vec<T>,
    place: usize,
    hints: Hints,
) -> Option<Arc<Node<T>, Global>>
    requires { place < length page.old.items }
    ensures page { IfSome result (λ _. page.new.items ≡ take place page.old.items) }
    ensures other { IfSome result (λ other. other.value.pages ≡ drop place page.old.items ∷ []) }
    ensures unchanged { IfNone result (page.new.items ≡ page.old.items) }
{
    let mut other = node_of_one(alloc, &page[place], hints.at(0))?;
    let node = Arc::get_mut(&mut other)?;
    let items = page.split_off(place).ok()?;
    refill(node, items, hints);
    Some(other)
}

/// Puts an item between those of a page and cuts it then, unless memory is refused: behind all items of before, where the item comes
/// last, and else in the middle. Answers a node of what was cut off.
fn cut_at<T: MakeCopy + Drop>(
    alloc: Global,
    page: &mut Vec<T>,
    hints: &mut Hints,
    place: usize,
    item: T,
    hint: u64,
) -> Option<Arc<Node<T>, Global>>
    requires some { 1 < length page.old.items }
    requires fits { length page.old.items ≤ PAGE_ITEMS }
    requires place { place ≤ length page.old.items }
    ensures cut { IfSome result (λ other. IsCut (insert page.old.items place item) page.new.items other.value.pages) }
    ensures unchanged { IfNone result (page.new.items ≡ page.old.items) }
{
    let count = page.len();
    let middle = if place == count { count } else { count / 2 };
    page.reserve_exact(1).ok()?;
    page.insert(place, item).ok()?;
    let (front, back) = hints.cut(place, hint, middle);
    let cut = cut_off(alloc, page, middle, back);
    if cut.is_none() {
        drop(page.remove(place));
    } else {
        *hints = front;
    }
    cut
}

/// Puts the item of a change into a page that is full, beside which hints stand, and cuts it, unless the change falls to the first
/// item, or behind all where it isn't known that what comes after the page is above it, or its key has an item there, or memory is
/// refused. Answers a node of what was cut off.
fn cut_page<T: MakeCopy + Drop, By: KeyOf<T>, C: ChangeOf<T, By::Key>>(
    alloc: Global,
    by: By,
    page: &mut Vec<T>,
    hints: &mut Hints,
    change: &C,
    ends: bool,
) -> Option<Arc<Node<T>, Global>>
    requires page { IsPage page.old.items }
    requires rising { IsRising (By.key_of by) By.key_cmp page.old.items }
    ensures cut { IfSome result (λ other. CutWithin (By.key_of by) By.key_cmp C.changed C.put (page.old.items ∷ []) change.now (page.new.items ∷ other.value.pages) ends) }
    ensures unchanged { IfNone result (page.new.items ≡ page.old.items) }
{
    if page.len() < room_of(by) {
        return None;
    }
    let place = place_of(by, page.as_slice(), hints.first(page.len()), change.key());
    if place == 0 {
        return None;
    }
    if !ends && place == page.len() {
        return None;
    }
    let behind = above_from(by, page.as_slice(), change.key(), place);
    if place < behind {
        return None;
    }
    let Some(item) = change.item() else {
        return None;
    };
    let hint = by.item_hint(item);
    let Ok(item) = item.copy(alloc) else {
        return None;
    };
    cut_at(alloc, page, hints, place, item, hint)
}

/// The same in a node, where nobody shares it and it is one page.
fn cut_alone<T: MakeCopy + Drop, By: KeyOf<T>, C: ChangeOf<T, By::Key>>(
    alloc: Global,
    by: By,
    node: &mut Arc<Node<T>, Global>,
    change: &C,
    ends: bool,
) -> Option<Arc<Node<T>, Global>>
    requires pages { ArePages node.old.value.pages }
    requires rising { IsRising (By.key_of by) By.key_cmp (joined node.old.value.pages) }
    ensures cut { IfSome result (λ other. CutWithin (By.key_of by) By.key_cmp C.changed C.put node.old.value.pages change.now (node.new.value.pages ++ other.value.pages) ends) }
    ensures unchanged { IfNone result (node.new.value.pages ≡ node.old.value.pages) }
{
    let node = Arc::get_mut(node)?;
    match &mut node.body {
        Body::Inner(_) => None,
        Body::Leaf(page) => {
            let other = cut_page(alloc, by, page, &mut node.hints, change, ends)?;
            node.items = page.len();
            Some(other)
        }
    }
}

/// The same in the node of a number of some, beside which hints stand: what was cut off comes behind it, where one more node fits.
/// It is known whether all that stands behind that node is above the key, and whether what comes after all of them is. Answers
/// whether it was done.
pub(crate) fn cut_among<T: MakeCopy + Drop, By: KeyOf<T>, C: ChangeOf<T, By::Key>>(
    alloc: Global,
    by: By,
    nodes: &mut Vec<Arc<Node<T>, Global>>,
    hints: &mut Hints,
    number: usize,
    change: &C,
    below: bool,
    ends: bool,
) -> bool
    requires number { number < length nodes.old.items }
    requires pages { ArePages (pages_of nodes.old.items) }
    requires rising { IsRising (By.key_of by) By.key_cmp (joined (pages_of nodes.old.items)) }
    requires way { below ≡ true → Begin (By.key_of by) By.key_cmp (C.changed change.now) true (pages_of (drop (number + 1) nodes.old.items)) ⊎ ((pages_of (drop (number + 1) nodes.old.items) ≡ []) × (ends ≡ true)) }
    ensures { MatchBool result (CutWithin (By.key_of by) By.key_cmp C.changed C.put (pages_of nodes.old.items) change.now (pages_of nodes.new.items) ends) (pages_of nodes.new.items ≡ pages_of nodes.old.items) }
{
    if nodes.len() >= INNER_NODES || nodes.reserve(1).is_err() {
        return false;
    }
    let mut node = nodes.remove(number);
    let cut = cut_alone(alloc, by, &mut node, change, below);
    drop(nodes.insert(number, node));
    let Some(other) = cut else {
        return false;
    };
    hints.insert(number + 1, other.hint());
    drop(nodes.insert(number + 1, other));
    true
}
