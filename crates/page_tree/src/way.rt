ghost use Rattle.std.specs.Prelude.{◌≡◌, ◌<◌, ◌⊎◌, ◌+◌, true, [], drop, length};
ghost use Rattle.page_tree.specs.Body.{pages_of};
ghost use Rattle.page_tree.specs.NodeOf.{Begin};

use crate::hints::count_upto;
use crate::key::KeyOf;
use crate::node::Node;
use crate::search::node_of;
use std::alloc::Global;
use std::sync::Arc;

/// How a key's page is looked for.
#[derive(Clone, Copy)]
pub(crate) struct Way {
    /// Whether each step is checked. Else hints alone tell the way, and the page itself has to show that it is the right one.
    pub(crate) checked: bool,
    /// Whether all that stands behind what the way has come to is known to be above the key.
    pub(crate) ends: bool,
}

/// The number of the node on the way, of nodes beside which hints stand, and the way below it. Takes no memory.
pub(crate) fn way_among<T, By: KeyOf<T>>(
    by: By,
    nodes: &[Arc<Node<T>, Global>],
    hints: &[u64],
    key: &By::Key,
    way: Way,
) -> (usize, Way)
    requires { 0 < length nodes.now }
    ensures within { result.0 < length nodes.now }
    ensures ends { result.1.ends ≡ true → Begin (By.key_of by) By.key_cmp key.now true (pages_of (drop (result.0 + 1) nodes.now)) ⊎ ((pages_of (drop (result.0 + 1) nodes.now) ≡ []) × (way.ends ≡ true)) }
{
    let last = nodes.len() - 1;
    if way.checked {
        let number = node_of(by, nodes, hints, key);
        let ends = way.ends || number < last;
        return (
            number,
            Way {
                checked: true,
                ends,
            },
        );
    }
    let number = count_upto(hints, by.key_hint(key))
        .saturating_sub(1)
        .min(last);
    let ends = way.ends && number == last;
    (
        number,
        Way {
            checked: false,
            ends,
        },
    )
}
