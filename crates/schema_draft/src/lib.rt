//! A CREATE TABLE taken apart once, and the table and the edges that it adds.
#![tactic(auto)]

mod draft;
mod edges;
mod kinds;
mod named_table;
mod names;
mod part;
mod ruled;
mod table;

pub use draft::{Draft, Effect, OnRule, Reference};
pub use edges::new_edges;
pub use kinds::{
    gives_edge, gives_ownership, is_downward, is_owned_by, is_owns, is_same_kind, is_upward,
};
pub use named_table::{number_of, table_at, table_named, target};
pub use names::{Named, Names};
pub use table::new_table;
