//! What the erasure of a data subject removes from a store and changes in it, told from what the store keeps of the subject.
//! The store stays as it is.
#![tactic(auto)]

mod becoming;
mod by_name;
mod changes;
mod erase;
mod going;
mod lists;
mod losing;
mod referring;
mod sought;
mod upper;

pub use erase::erase_changes;
