//! What two areas of a disk hold: no store yet, a store, or damage at a place; and the opening of a store.
#![tactic(auto)]

mod area;
mod fault;
mod judged;
mod judging;
mod open;
mod parts;
mod reading;
mod records;

pub use judged::{Judged, LaidCommit};
pub use judging::judge;
pub use open::{OpenFault, Opened, open_store};
