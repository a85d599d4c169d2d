//! What a query means: truth, sums, orders and the rows of a select; and what the names of a statement mean, and what is
//! wrong with it. The definitions stand in `specs/`.
#![tactic(auto)]

pub mod laws;
