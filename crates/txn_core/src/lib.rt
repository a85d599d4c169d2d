//! What sessions do to a store between commits: a write that is a transaction of its own, and a statement in a transaction.
#![tactic(auto)]

mod conflict;
pub mod laws;
mod reading;
mod running;
mod session_state;
mod sessions;
mod single_write;
mod txn;
mod txns;

pub use session_state::SessionState;
pub use txn::Txn;
pub use txns::Txns;
