//! What mode `make` does: the calls of a large script that a number of people and a seed give, and the summary of what calls
//! came to. The definitions stand in `specs/`, and what holds of the calls of every such script in `laws`.
#![tactic(auto)]

pub mod laws;
mod limits;

pub use limits::{PEOPLE, SEEDS};
