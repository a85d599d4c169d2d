//! Whose data a row is: the definitions of the ownership graph, in `specs/`, and the laws that hold of them, in `laws`.
#![tactic(auto)]

pub mod laws;
