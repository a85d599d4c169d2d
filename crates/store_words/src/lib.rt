//! The words of the program.
#![tactic(auto)]

mod command;
pub mod laws;
mod numbers;
mod words;

pub use words::{Mode, mode_of};
