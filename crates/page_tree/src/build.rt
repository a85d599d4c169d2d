ghost use Rattle.std.specs.Prelude.{◌≡◌, ◌<◌, ◌≤◌, ◌*◌, ◌+◌, ◌++◌, [], ◌∷◌, IfOk, OnOk, length};
ghost use Rattle.page_model.specs.ChangedPages.{AddsPages};
ghost use Rattle.page_model.specs.Page.{joined};
ghost use Rattle.page_tree.specs.Body.{pages_of};

use crate::hints::Hints;
use crate::node::{Body, INNER_NODES, Node, first_of, parted};
use crate::page::Page;
use own_base::MakeCopy;
use page_model::PAGE_ITEMS;
use std::alloc::{AllocError, Global};
use std::sync::Arc;

/// A node of one page.
pub(crate) fn leaf<T: MakeCopy + Drop>(
    alloc: Global,
    page: Page<T>,
) -> Result<Arc<Node<T>, Global>, AllocError>
    requires { 0 < length page.items.items }
    ensures { IfOk result (λ node. node.value.pages ≡ page.items.items ∷ []) }
{
    let Page { items, hints } = page;
    let node = Node {
        first: items[0].copy(alloc)?,
        items: items.len(),
        pages: 1,
        hint: hints.first().copied().unwrap_or(0),
        body: Body::Leaf(items),
        hints: Hints::of(hints.as_slice()),
    };
    Ok(Arc::new(alloc, node)?)
}

/// How many items some nodes have, and how many pages. Takes no memory; `AllocError` comes where there are more than
/// can be counted.
fn counts<T>(nodes: &[Arc<Node<T>, Global>]) -> Result<(usize, usize), AllocError>
    ensures items { IfOk result (λ counts. counts.0 ≡ length (joined (pages_of nodes.now))) }
    ensures pages { IfOk result (λ counts. counts.1 ≡ length (pages_of nodes.now)) }
{
    let mut items: usize = 0;
    let mut pages: usize = 0;
    for node in nodes {
        items = items.checked_add(node.items()).ok_or(AllocError)?;
        pages = pages.checked_add(node.pages()).ok_or(AllocError)?;
    }
    Ok((items, pages))
}

/// The hints of the first items of some nodes, as far as there is room for them. Takes no memory.
fn hints_of<T>(nodes: &[Arc<Node<T>, Global>]) -> Hints {
    let mut hints = [u64::MAX; INNER_NODES];
    for (hint, node) in hints.iter_mut().zip(nodes) {
        *hint = node.hint();
    }
    Hints::of(&hints)
}

/// A node above these, with their pages in their order.
pub(crate) fn inner<T: MakeCopy + Drop>(
    alloc: Global,
    nodes: Vec<Arc<Node<T>, Global>>,
) -> Result<Arc<Node<T>, Global>, AllocError>
    requires { 0 < length nodes.items }
    ensures { IfOk result (λ node. node.value.pages ≡ pages_of nodes.items) }
{
    let (items, pages) = counts(nodes.as_slice())?;
    let hints = hints_of(nodes.as_slice());
    let node = Node {
        first: first_of(nodes.as_slice()).copy(alloc)?,
        items,
        pages,
        hint: hints.at(0),
        body: Body::Inner(nodes),
        hints,
    };
    Ok(Arc::new(alloc, node)?)
}

/// Puts nodes last, each shared with where it stands.
pub(crate) fn push_nodes<T: Drop>(
    nodes: &[Arc<Node<T>, Global>],
    made: &mut Vec<Arc<Node<T>, Global>>,
) -> Result<(), AllocError>
    ensures pages { OnOk result (pages_of made.new.items ≡ pages_of made.old.items ++ pages_of nodes.now) }
    ensures count { OnOk result (length made.new.items ≡ length made.old.items + length nodes.now) }
{
    // All of them are looked at before the first is shared: a look doesn't wait for the one before it, while the count of those that
    // share a node is raised only when that of the node before it was.
    counts(nodes)?;
    for node in nodes {
        made.push(Arc::try_clone(node)?)?;
    }
    Ok(())
}

/// Puts items last as pages: none, one, or two where one has no room for them.
pub(crate) fn push_pages<T: MakeCopy + Drop>(
    alloc: Global,
    items: Page<T>,
    room: usize,
    made: &mut Vec<Arc<Node<T>, Global>>,
) -> Result<(), AllocError>
    requires items { length items.items.items ≤ 2 * PAGE_ITEMS }
    requires some { 0 < room }
    requires fits { room ≤ PAGE_ITEMS }
    ensures { OnOk result (AddsPages items.items.items (pages_of made.old.items) (pages_of made.new.items)) }
{
    let mut page = items;
    let count = page.items.len();
    if count > room {
        let others = page.split_off(count / 2)?;
        made.push(leaf(alloc, page)?)?;
        made.push(leaf(alloc, others)?)?;
    } else if count > 0 {
        made.push(leaf(alloc, page)?)?;
    }
    Ok(())
}

/// Puts nodes above these last, each above no more than fit.
fn push_groups<T: MakeCopy + Drop>(
    alloc: Global,
    nodes: &[Arc<Node<T>, Global>],
    made: &mut Vec<Arc<Node<T>, Global>>,
) -> Result<(), AllocError>
    requires { 0 < length nodes.now }
    ensures pages { OnOk result (pages_of made.new.items ≡ pages_of made.old.items ++ pages_of nodes.now) }
    ensures fewer { OnOk result (1 < length nodes.now → length made.new.items < length made.old.items + length nodes.now) }
{
    if nodes.len() <= INNER_NODES {
        let mut shared = Vec::new(alloc);
        shared.reserve_exact(nodes.len())?;
        push_nodes(nodes, &mut shared)?;
        made.push(inner(alloc, shared)?)?;
        return Ok(());
    }
    let (front, back) = parted(nodes, nodes.len() / 2);
    push_groups(alloc, front, made)?;
    push_groups(alloc, back, made)
}

/// Puts a node above these last, or some where they are too many for one.
pub(crate) fn push_above<T: MakeCopy + Drop>(
    alloc: Global,
    nodes: Vec<Arc<Node<T>, Global>>,
    made: &mut Vec<Arc<Node<T>, Global>>,
) -> Result<(), AllocError>
    ensures pages { OnOk result (pages_of made.new.items ≡ pages_of made.old.items ++ pages_of nodes.items) }
    ensures fewer { OnOk result (1 < length nodes.items → length made.new.items < length made.old.items + length nodes.items) }
{
    if nodes.is_empty() {
        return Ok(());
    }
    if nodes.len() > INNER_NODES {
        return push_groups(alloc, nodes.as_slice(), made);
    }
    made.push(inner(alloc, nodes)?)?;
    Ok(())
}
