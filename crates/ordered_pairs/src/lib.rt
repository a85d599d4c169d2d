//! One ordered sequence of pairs: which values belong to which, and what belongs to one of them, in order.
#![tactic(auto)]

mod by_pair;
mod left_bound;
mod ordered;
mod pair_change;
mod pairs;

pub use ordered::Ordered;
pub use pairs::Pairs;
