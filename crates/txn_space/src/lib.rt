//! What a transaction changes, over a base of rows that it reads.
#![tactic(auto)]

mod base_rows;
mod entry;
mod merged;
mod merging;
mod net;
mod over;
mod put;
mod row_refs;
mod space;
mod spot;
mod walk;

pub use entry::Entry;
pub use merged::Merged;
pub use net::net_of_write;
pub use over::Over;
pub use space::Space;
