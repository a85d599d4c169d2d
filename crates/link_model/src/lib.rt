//! Which rows of a table hold a value in a column, and how a store lends that. The definitions stand in `specs/`.
#![tactic(auto)]

pub mod laws;
mod linked;
mod referring;

pub use linked::Linked;
pub use referring::Referring;
