ghost use Rattle.std.specs.Prelude.{◌≡◌, ◌<◌, ◌≤◌, List, false, drop, length, take, IfSome, MatchBool, ⊤};
ghost use Rattle.std.specs.List.{AllByRecursion};
ghost use Rattle.std.specs.Option.{option_copied};
ghost use Rattle.std.specs.declared.cmp.Ordering.TheVariants.{Less};
ghost use Rattle.page_model.specs.Found.{found};
ghost use Rattle.page_model.specs.Page.{joined};
ghost use Rattle.page_model.specs.Place.{IsPlaceOf};
ghost use Rattle.page_model.specs.Rising.{IsRising};
ghost use Rattle.page_tree.specs.Body.{pages_of};
ghost use Rattle.page_tree.specs.Held.{HoldsRun};
ghost use Rattle.page_tree.specs.StandsBehind.{StandsBehind};
ghost use Rattle.page_tree.specs.NodeOf.{Begin, IsNodeOf};

use crate::hints::{count_below, count_upto};
use crate::key::KeyOf;
use crate::likely::{Likely, likely_in};
use crate::node::{Body, Node};
use std::alloc::Global;
use std::cmp::Ordering;
use std::sync::Arc;

/// A place with only items below a key before it: the one that hints tell, if the item there or the one before it shows
/// that, else the first. Takes no memory.
fn place_from<T, By: KeyOf<T>>(by: By, items: &[T], hints: &[u64], key: &By::Key) -> usize
    requires { IsRising (By.key_of by) By.key_cmp items.now }
    ensures within { result ≤ length items.now }
    ensures before { AllByRecursion (λ item. By.key_cmp (By.key_of by item) key.now ≡ Less) (take result items.now) }
{
    let place = count_below(hints, by.key_hint(key));
    if place < items.len() && !by.compare(&items[place], key).is_gt() {
        return place;
    }
    if 0 < place && place <= items.len() && by.compare(&items[place - 1], key).is_lt() {
        return place;
    }
    0
}

/// How many of these items, beside which hints stand, are below a key. Takes no memory.
pub(crate) fn place_of<T, By: KeyOf<T>>(by: By, items: &[T], hints: &[u64], key: &By::Key) -> usize
    requires { IsRising (By.key_of by) By.key_cmp items.now }
    ensures { IsPlaceOf (By.key_of by) By.key_cmp key.now items.now result }
{
    let from = place_from(by, items, hints, key);
    for place in from..items.len() {
        if !by.compare(&items[place], key).is_lt() {
            return place;
        }
    }
    items.len()
}

/// The item of a key among these items, beside which hints stand. Takes no memory.
fn item_of<'a, T, By: KeyOf<T>>(
    by: By,
    items: &'a [T],
    hints: &[u64],
    key: &By::Key,
) -> Option<&'a T>
    requires { IsRising (By.key_of by) By.key_cmp items.now }
    ensures { option_copied result ≡ found (By.key_of by) By.key_cmp key.now items.now }
{
    let place = place_of(by, items, hints, key);
    let item = items.get(place)?;
    if by.compare(item, key).is_eq() {
        Some(item)
    } else {
        None
    }
}

/// The number of a node whose first item isn't above a key: the one that hints tell, if that is so, else of the first
/// node. Takes no memory.
fn node_from<T, By: KeyOf<T>>(
    by: By,
    nodes: &[Arc<Node<T>, Global>],
    hints: &[u64],
    key: &By::Key,
) -> usize
    requires { 0 < length nodes.now }
    ensures within { result < length nodes.now }
    ensures begins { 0 < result → Begin (By.key_of by) By.key_cmp key.now false (pages_of (drop result nodes.now)) }
{
    let number = count_upto(hints, by.key_hint(key)).saturating_sub(1);
    if 0 < number && number < nodes.len() && !by.compare(nodes[number].first(), key).is_gt() {
        number
    } else {
        0
    }
}

/// The number of the node into which a key falls, of nodes beside which hints stand: the last whose first item isn't above
/// it, else the first. Takes no memory.
pub(crate) fn node_of<T, By: KeyOf<T>>(
    by: By,
    nodes: &[Arc<Node<T>, Global>],
    hints: &[u64],
    key: &By::Key,
) -> usize
    requires { 0 < length nodes.now }
    ensures { IsNodeOf (By.key_of by) By.key_cmp key.now nodes.now result }
{
    let from = node_from(by, nodes, hints, key);
    for number in from + 1..nodes.len() {
        if by.compare(nodes[number].first(), key).is_gt() {
            return number - 1;
        }
    }
    nodes.len() - 1
}

/// Whether the item before a place is below a key. Takes no memory.
fn is_behind<T, By: KeyOf<T>>(by: By, run: &[T], place: usize, key: &By::Key) -> bool
    ensures { MatchBool result (StandsBehind (By.key_of by) By.key_cmp key.now run.now place) ⊤ }
{
    0 < place && place <= run.len() && by.compare(&run[place - 1], key).is_lt()
}

/// What a page tells of a key by the place at which it is likely to stand in it: its item, where that is the one there, and that
/// there is none, where the key stands between that one and the one before, or behind all. Otherwise it tells nothing. Takes no
/// memory.
fn told_by<'a, T, By: KeyOf<T>>(by: By, page: Likely<'a, T>, key: &By::Key) -> Option<Option<&'a T>>
    ensures { IfSome result (λ item. (items : List T) → HoldsRun items page.entry.run.now page.entry.last → IsRising (By.key_of by) By.key_cmp items
        → option_copied item ≡ found (By.key_of by) By.key_cmp key.now items) }
{
    let Likely { run, place, last } = page;
    if place >= run.len() {
        return if last && is_behind(by, run, run.len(), key) {
            Some(None)
        } else {
            None
        };
    }
    let item = &run[place];
    match by.compare(item, key) {
        Ordering::Equal => Some(Some(item)),
        Ordering::Greater if is_behind(by, run, place, key) => Some(None),
        _ => None,
    }
}

/// What hints tell of a key among the items of a node, if they tell it. Takes no memory.
fn told_in<'a, T, By: KeyOf<T>>(by: By, node: &'a Node<T>, key: &By::Key) -> Option<Option<&'a T>>
    requires { IsRising (By.key_of by) By.key_cmp (joined node.now.pages) }
    ensures { IfSome result (λ item. option_copied item ≡ found (By.key_of by) By.key_cmp key.now (joined node.now.pages)) }
{
    told_by(by, likely_in(node, by.key_hint(key))?, key)
}

/// The item of a key among the items of a node: as hints tell it, and else as it is found where each step is checked. Takes no
/// memory.
pub(crate) fn get_in<'a, T, By: KeyOf<T>>(by: By, node: &'a Node<T>, key: &By::Key) -> Option<&'a T>
    requires { IsRising (By.key_of by) By.key_cmp (joined node.now.pages) }
    ensures { option_copied result ≡ found (By.key_of by) By.key_cmp key.now (joined node.now.pages) }
{
    match told_in(by, node, key) {
        Some(item) => item,
        None => item_in(by, node, key),
    }
}

/// The item of a key among the items of a node, where each step is checked. Takes no memory.
#[cycle(get)]
fn item_in<'a, T, By: KeyOf<T>>(by: By, node: &'a Node<T>, key: &By::Key) -> Option<&'a T>
    requires { IsRising (By.key_of by) By.key_cmp (joined node.now.pages) }
    ensures { option_copied result ≡ found (By.key_of by) By.key_cmp key.now (joined node.now.pages) }
{
    match &node.body {
        Body::Leaf(page) => item_of(by, page.as_slice(), node.hints.first(page.len()), key),
        Body::Inner(nodes) => item_among(by, nodes.as_slice(), node.hints.first(nodes.len()), key),
    }
}

/// The item of a key among the items of some nodes, beside which hints stand: that of the node into which the key falls.
#[cycle(get)]
fn item_among<'a, T, By: KeyOf<T>>(
    by: By,
    nodes: &'a [Arc<Node<T>, Global>],
    hints: &[u64],
    key: &By::Key,
) -> Option<&'a T>
    requires some { 0 < length nodes.now }
    requires rising { IsRising (By.key_of by) By.key_cmp (joined (pages_of nodes.now)) }
    ensures { option_copied result ≡ found (By.key_of by) By.key_cmp key.now (joined (pages_of nodes.now)) }
{
    item_in(by, &nodes[node_of(by, nodes, hints, key)], key)
}
