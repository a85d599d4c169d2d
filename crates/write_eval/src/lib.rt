//! What an INSERT, an UPDATE or a DELETE changes in a store that is viewed. The store stays as it is.
#![tactic(auto)]

mod delete;
mod insert;
mod set_value;
mod update;
mod update_fault;
mod write;
mod written;

pub use write::write_changes;
pub use written::Written;
