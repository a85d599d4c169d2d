ghost use Rattle.std.specs.Prelude.{◌≡◌, ◌<◌, ◌≤◌, ◌∷◌, [], length, IfSome, IfNone, MatchBool, if◌then◌else◌};
ghost use Rattle.std.specs.List.{insert};
ghost use Rattle.page_model.specs.Changed.{AreKeyed};
ghost use Rattle.page_model.specs.Page.{joined, ArePages, IsPage};
ghost use Rattle.page_model.specs.Place.{IsPlaceOf};
ghost use Rattle.page_model.specs.Rising.{IsRising};
ghost use Rattle.page_tree.specs.Body.{pages_of};
ghost use Rattle.page_tree.specs.InPlace.{InPlace};
ghost use Rattle.page_tree.specs.PutWithin.{PutWithin};

use crate::cut::cut_among;
use crate::hints::Hints;
use crate::key::{ChangeOf, KeyOf, room_of};
use crate::merge::above_from;
use crate::node::{Body, Node};
use crate::search::place_of;
use crate::way::{Way, way_among};
use own_base::MakeCopy;
use std::alloc::Global;
use std::sync::Arc;

/// Puts an item between those of a page, and its hint between theirs, unless memory is refused. Answers whether it did.
pub(crate) fn insert_at<T: Drop>(
    page: &mut Vec<T>,
    hints: &mut Hints,
    place: usize,
    item: T,
    hint: u64,
) -> bool
    requires { place ≤ length page.old.items }
    ensures { page.new.items ≡ (if result then insert page.old.items place item else page.old.items) }
{
    if page.insert(place, item).is_err() {
        return false;
    }
    hints.insert(place, hint);
    true
}

/// Puts a change into a page, beside which hints stand, at the place of its key behind the first item, unless the page is full, or
/// memory is refused. Answers whether it did.
fn put_at<T: MakeCopy + Drop, By: KeyOf<T>, C: ChangeOf<T, By::Key>>(
    alloc: Global,
    by: By,
    page: &mut Vec<T>,
    hints: &mut Hints,
    change: &C,
    place: usize,
) -> bool
    requires page { IsPage page.old.items }
    requires rising { IsRising (By.key_of by) By.key_cmp page.old.items }
    requires place { IsPlaceOf (By.key_of by) By.key_cmp (C.changed change.now) page.old.items place }
    requires behind { 0 < place }
    ensures { MatchBool result (InPlace (By.key_of by) By.key_cmp C.changed C.put (page.old.items ∷ []) change.now (page.new.items ∷ [])) (page.new.items ≡ page.old.items) }
{
    let behind = above_from(by, page.as_slice(), change.key(), place);
    let Some(item) = change.item() else {
        if place < behind {
            drop(page.remove(place));
            hints.remove(place);
        }
        return true;
    };
    let hint = by.item_hint(item);
    let Ok(item) = item.copy(alloc) else {
        return false;
    };
    if place < behind {
        page[place] = item;
        return true;
    }
    page.len() < room_of(by) && insert_at(page, hints, place, item, hint)
}

/// Puts a change into a page, beside which hints stand, unless it falls to the first item, or behind all where it isn't known that
/// what comes after the page is above it, or the page is full, or memory is refused. Answers whether it did.
fn change_page<T: MakeCopy + Drop, By: KeyOf<T>, C: ChangeOf<T, By::Key>>(
    alloc: Global,
    by: By,
    page: &mut Vec<T>,
    hints: &mut Hints,
    change: &C,
    ends: bool,
) -> bool
    requires page { IsPage page.old.items }
    requires rising { IsRising (By.key_of by) By.key_cmp page.old.items }
    ensures { MatchBool result (PutWithin (By.key_of by) By.key_cmp C.changed C.put (page.old.items ∷ []) change.now (page.new.items ∷ []) ends) (page.new.items ≡ page.old.items) }
{
    let place = place_of(by, page.as_slice(), hints.first(page.len()), change.key());
    if place == 0 {
        return false;
    }
    if !ends && place == page.len() {
        return false;
    }
    put_at(alloc, by, page, hints, change, place)
}

/// Puts a change into the page of a node to which a way leads, where nobody shares the node nor what is below it on the way,
/// and the page takes it. Answers whether it did.
#[cycle(place)]
fn change_alone<T: MakeCopy + Drop, By: KeyOf<T>, C: ChangeOf<T, By::Key>>(
    alloc: Global,
    by: By,
    node: &mut Arc<Node<T>, Global>,
    change: &C,
    way: Way,
) -> bool
    requires pages { ArePages node.old.value.pages }
    requires rising { IsRising (By.key_of by) By.key_cmp (joined node.old.value.pages) }
    requires keyed { AreKeyed (By.key_of by) C.changed C.put (change.now ∷ []) }
    ensures { MatchBool result (PutWithin (By.key_of by) By.key_cmp C.changed C.put node.old.value.pages change.now node.new.value.pages way.ends) (node.new.value.pages ≡ node.old.value.pages) }
{
    match Arc::get_mut(node) {
        None => false,
        Some(node) => change_within(alloc, by, node, change, way),
    }
}

/// Puts a change into a page of a node, where nobody shares what is below it.
#[cycle(place)]
fn change_within<T: MakeCopy + Drop, By: KeyOf<T>, C: ChangeOf<T, By::Key>>(
    alloc: Global,
    by: By,
    node: &mut Node<T>,
    change: &C,
    way: Way,
) -> bool
    requires pages { ArePages node.old.pages }
    requires rising { IsRising (By.key_of by) By.key_cmp (joined node.old.pages) }
    requires keyed { AreKeyed (By.key_of by) C.changed C.put (change.now ∷ []) }
    ensures { MatchBool result (PutWithin (By.key_of by) By.key_cmp C.changed C.put node.old.pages change.now node.new.pages way.ends) (node.new.pages ≡ node.old.pages) }
{
    let counts = (node.items, node.pages);
    match &mut node.body {
        Body::Leaf(page) => {
            if !change_page(alloc, by, page, &mut node.hints, change, way.ends) {
                return false;
            }
            node.items = page.len();
            true
        }
        Body::Inner(nodes) => {
            let hints = &mut node.hints;
            let Some((items, pages)) = change_among(alloc, by, nodes, hints, counts, change, way)
            else {
                return false;
            };
            node.items = items;
            node.pages = pages;
            true
        }
    }
}

/// Puts a change into the page of some nodes to which a way leads, beside which hints stand and which have so many items and pages,
/// where nobody shares the way to it: a full page is cut, where one more node fits. Answers how many items and pages they have then.
#[cycle(place)]
fn change_among<T: MakeCopy + Drop, By: KeyOf<T>, C: ChangeOf<T, By::Key>>(
    alloc: Global,
    by: By,
    nodes: &mut Vec<Arc<Node<T>, Global>>,
    hints: &mut Hints,
    counts: (usize, usize),
    change: &C,
    way: Way,
) -> Option<(usize, usize)>
    requires some { 0 < length nodes.old.items }
    requires items { counts.0 ≡ length (joined (pages_of nodes.old.items)) }
    requires counted { counts.1 ≡ length (pages_of nodes.old.items) }
    requires pages { ArePages (pages_of nodes.old.items) }
    requires rising { IsRising (By.key_of by) By.key_cmp (joined (pages_of nodes.old.items)) }
    requires keyed { AreKeyed (By.key_of by) C.changed C.put (change.now ∷ []) }
    ensures items { IfSome result (λ counts. counts.0 ≡ length (joined (pages_of nodes.new.items))) }
    ensures counted { IfSome result (λ counts. counts.1 ≡ length (pages_of nodes.new.items)) }
    ensures changed { IfSome result (λ _. PutWithin (By.key_of by) By.key_cmp C.changed C.put (pages_of nodes.old.items) change.now (pages_of nodes.new.items) way.ends) }
    ensures unchanged { IfNone result (pages_of nodes.new.items ≡ pages_of nodes.old.items) }
{
    let (items, pages) = counts;
    if items == usize::MAX || pages == usize::MAX {
        return None;
    }
    let (number, below) = way_among(
        by,
        nodes.as_slice(),
        hints.first(nodes.len()),
        change.key(),
        way,
    );
    let (items_there, pages_there) = (nodes[number].items(), nodes[number].pages());
    if change_alone(alloc, by, &mut nodes[number], change, below) {
        let node = &nodes[number];
        return Some((
            items - items_there + node.items(),
            pages - pages_there + node.pages(),
        ));
    }
    if cut_among(
        alloc, by, nodes, hints, number, change, below.ends, way.ends,
    ) {
        return Some((items + 1, pages + 1));
    }
    None
}

/// Puts a change into the page of a node into which it falls, where nobody shares the way to it, and the page takes it. Hints tell
/// the way; where the page that they lead to doesn't show that it is the right one, each step is checked. Answers whether it did.
pub(crate) fn change_in<T: MakeCopy + Drop, By: KeyOf<T>, C: ChangeOf<T, By::Key>>(
    alloc: Global,
    by: By,
    node: &mut Arc<Node<T>, Global>,
    change: &C,
) -> bool
    requires pages { ArePages node.old.value.pages }
    requires rising { IsRising (By.key_of by) By.key_cmp (joined node.old.value.pages) }
    requires keyed { AreKeyed (By.key_of by) C.changed C.put (change.now ∷ []) }
    ensures { MatchBool result (InPlace (By.key_of by) By.key_cmp C.changed C.put node.old.value.pages change.now node.new.value.pages) (node.new.value.pages ≡ node.old.value.pages) }
{
    let way = Way {
        checked: false,
        ends: true,
    };
    if change_alone(alloc, by, node, change, way) {
        return true;
    }
    let way = Way {
        checked: true,
        ends: true,
    };
    change_alone(alloc, by, node, change, way)
}
