//! The index of a store: which rows hold a value in a column that is UNIQUE or refers to a table.
#![tactic(auto)]

mod column_index;
mod entries;
mod index;

pub use index::RefIndex;
