//! What a data subject owns and sees of a store, as its own small database: the definitions, in `specs/`, the laws that hold
//! of them, in `laws`, and how a store lends it.
#![tactic(auto)]

mod edge_list;
pub mod laws;
mod shelved;
mod shelves;

pub use edge_list::EdgeList;
pub use shelved::Shelved;
pub use shelves::Shelves;
