//! The state of a store at one moment, which threads may read while the store moves on.
#![tactic(auto)]

mod reading;
mod snapshot;

pub use snapshot::Snapshot;
