//! What the erasure of a data subject removes from a store and changes in it. The store stays as it is.
#![tactic(auto)]

mod claimed;
mod erase;
mod flags;
mod followed;
mod losing;
mod marks;
mod owned;
mod plan;
mod staying;
mod struck;

pub use erase::{erase_changes, plan_flat};
pub use plan::ErasePlan;
