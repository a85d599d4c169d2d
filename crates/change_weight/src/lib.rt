//! What a store weighs after changes, by the rows that changed and those whose subjects moved alone.
#![tactic(auto)]

mod lone;
mod shown;
mod touched;
mod weight;

pub use lone::weight_by_lone_change;
pub use weight::weight_by;
