//! The journal of a store: an image of its state and the records behind it, in one of the two areas of a disk. Each
//! call says what a crash at any moment of it leaves.
#![tactic(auto)]

mod area_calls;
mod filling;
mod journal;
mod retiring;

pub use journal::Journal;
