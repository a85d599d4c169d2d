//! The record by which a commit is kept on the disk: the changes of a write or a transaction, a CREATE, a FORGET.
#![tactic(auto)]

mod record;

pub use record::{record_of_changes, record_of_create, record_of_forget};
