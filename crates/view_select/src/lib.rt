//! The reply to a SELECT from a view, by the rows that are kept for it.
#![tactic(auto)]

mod kept;
mod reply;

pub use reply::view_reply;
