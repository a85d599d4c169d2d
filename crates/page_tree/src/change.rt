ghost use Rattle.std.specs.Prelude.{◌≡◌, ◌<◌, ◌≤◌, ◌++◌, false, OnOk, length};
ghost use Rattle.std.specs.List.{AllByRecursion};
ghost use Rattle.std.specs.Ordering.{is_lt};
ghost use Rattle.std.specs.declared.cmp.Ordering.TheVariants.{Less};
ghost use Rattle.page_model.specs.Changed.{with_changes, AreKeyed};
ghost use Rattle.page_model.specs.ChangedPages.{AddsChanged, AddsPages};
ghost use Rattle.page_model.specs.Page.{joined, ArePages};
ghost use Rattle.page_model.specs.Rising.{IsRising};
ghost use Rattle.page_tree.specs.Body.{pages_of};

use crate::build::{push_above, push_nodes, push_pages};
use crate::hints::{first_hints, hints_behind};
use crate::key::{ChangeOf, KeyOf, room_of};
use crate::merge::merged;
use crate::node::{Body, Node, around, first_of};
use crate::search::{node_of, place_of};
use own_base::MakeCopy;
use page_model::PAGE_ITEMS;
use std::alloc::{AllocError, Global};
use std::sync::Arc;

/// The changes below an item, and the others. Takes no memory.
fn split_at<'a, T, By: KeyOf<T>, C: ChangeOf<T, By::Key>>(
    by: By,
    changes: &'a [C],
    item: &T,
) -> (&'a [C], &'a [C])
    requires { IsRising C.changed By.key_cmp changes.now }
    ensures all { changes.now ≡ result.0.now ++ result.1.now }
    ensures below { AllByRecursion (λ change. By.key_cmp (C.changed change) (By.key_of by item.now) ≡ Less) result.0.now }
    ensures others { AllByRecursion (λ change. is_lt (By.key_cmp (C.changed change) (By.key_of by item.now)) ≡ false) result.1.now }
{
    changes.split_at(changes.partition_point(|change| by.compare(item, change.key()).is_gt()))
}

/// Puts the pages last that changes make of some items, beside which hints stand, with fewer changes at each step.
pub(crate) fn fill<T: MakeCopy + Drop, By: KeyOf<T>, C: ChangeOf<T, By::Key>>(
    alloc: Global,
    by: By,
    items: &[T],
    hints: &[u64],
    changes: &[C],
    made: &mut Vec<Arc<Node<T>, Global>>,
) -> Result<(), AllocError>
    requires fits { length items.now ≤ PAGE_ITEMS }
    requires rising { IsRising (By.key_of by) By.key_cmp items.now }
    requires changes { IsRising C.changed By.key_cmp changes.now }
    requires keyed { AreKeyed (By.key_of by) C.changed C.put changes.now }
    ensures { OnOk result (AddsPages (with_changes (By.key_of by) By.key_cmp C.changed C.put changes.now items.now) (pages_of made.old.items) (pages_of made.new.items)) }
{
    let room = room_of(by);
    if changes.len() <= room {
        return push_pages(alloc, merged(alloc, by, items, hints, changes)?, room, made);
    }
    let (below, others) = changes.split_at(changes.len() / 2);
    let (front, back) = items.split_at(place_of(by, items, hints, others[0].key()));
    let beside = first_hints(hints, front.len());
    fill(alloc, by, front, beside, below, made)?;
    let beside = hints_behind(hints, front.len());
    fill(alloc, by, back, beside, others, made)
}

/// Puts the pages of a node last, with changes.
#[cycle(change)]
pub(crate) fn change_node<T: MakeCopy + Drop, By: KeyOf<T>, C: ChangeOf<T, By::Key>>(
    alloc: Global,
    by: By,
    node: &Node<T>,
    changes: &[C],
    made: &mut Vec<Arc<Node<T>, Global>>,
) -> Result<(), AllocError>
    requires some { 0 < length changes.now }
    requires pages { ArePages node.now.pages }
    requires rising { IsRising (By.key_of by) By.key_cmp (joined node.now.pages) }
    requires changes { IsRising C.changed By.key_cmp changes.now }
    requires keyed { AreKeyed (By.key_of by) C.changed C.put changes.now }
    ensures { OnOk result (AddsChanged (By.key_of by) By.key_cmp C.changed C.put node.now.pages changes.now (pages_of made.old.items) (pages_of made.new.items)) }
{
    match &node.body {
        Body::Leaf(page) => {
            let hints = node.hints.first(page.len());
            fill(alloc, by, page.as_slice(), hints, changes, made)
        }
        Body::Inner(nodes) => {
            let mut above = Vec::new(alloc);
            above.reserve_exact(nodes.len().saturating_add(1))?;
            change_nodes(alloc, by, nodes.as_slice(), changes, &mut above)?;
            push_above(alloc, above, made)
        }
    }
}

/// Puts the pages of nodes last, with changes: those into which no change falls are shared. The node of a change is looked
/// for without hints, since each node is looked at where it is shared.
#[cycle(change)]
fn change_nodes<T: MakeCopy + Drop, By: KeyOf<T>, C: ChangeOf<T, By::Key>>(
    alloc: Global,
    by: By,
    nodes: &[Arc<Node<T>, Global>],
    changes: &[C],
    made: &mut Vec<Arc<Node<T>, Global>>,
) -> Result<(), AllocError>
    requires some { 0 < length nodes.now }
    requires pages { ArePages (pages_of nodes.now) }
    requires rising { IsRising (By.key_of by) By.key_cmp (joined (pages_of nodes.now)) }
    requires changes { IsRising C.changed By.key_cmp changes.now }
    requires keyed { AreKeyed (By.key_of by) C.changed C.put changes.now }
    ensures { OnOk result (AddsChanged (By.key_of by) By.key_cmp C.changed C.put (pages_of nodes.now) changes.now (pages_of made.old.items) (pages_of made.new.items)) }
{
    let Some(change) = changes.first() else {
        return push_nodes(nodes, made);
    };
    let (front, node, behind) = around(nodes, node_of(by, nodes, &[], change.key()));
    push_nodes(front, made)?;
    if behind.is_empty() {
        return change_node(alloc, by, node, changes, made);
    }
    let (here, others) = split_at(by, changes, first_of(behind));
    change_node(alloc, by, node, here, made)?;
    change_nodes(alloc, by, behind, others, made)
}
