//! The store's public calls: `step` and `serve`, from the bytes of an input to the bytes of its replies, call by call or with its
//! sessions side by side; `make`, from two numbers to a large script and the summary of its replies; and `run`, which takes the words
//! of the program too.
#![tactic(auto)]

mod input;
mod lines;
mod running;
mod served;
mod serving;
mod steps;
mod summing;
mod together;

pub use running::{make, run, serve, step};
pub use served::{Served, TopFault};
