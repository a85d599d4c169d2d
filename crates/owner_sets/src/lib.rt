//! Which data subjects own each row of a store, which reach it, and by which edges one of them does.
#![tactic(auto)]

mod by_edges;
mod edges;
mod gather;
mod leading;
pub mod link;
mod named_row;
mod places;
mod set_at;
mod sets;
mod sorted_set;
mod which;

pub use by_edges::ByEdges;
pub use edges::links;
pub use named_row::is_named;
pub use places::place_named;
pub use sets::OwnerSets;
