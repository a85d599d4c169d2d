//! The first fault of what a commit leaves, found by its changes.
#![tactic(auto)]

mod came;
mod cell_name;
mod dangling;
mod holders;
mod owner;
mod reference;
mod referring;
mod refusing;
mod unique;

pub use owner::first_owner_fault_by;
pub use reference::first_reference_fault_by;
pub use unique::first_unique_fault_by;
