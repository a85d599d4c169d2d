//! The disk of a store, as the database that it keeps: each commit is there after its call, and a crash on the way
//! leaves the database before it or the one after it.
#![tactic(auto)]

mod opening;
mod store_disk;

pub use opening::open_disk;
pub use store_disk::StoreDisk;
