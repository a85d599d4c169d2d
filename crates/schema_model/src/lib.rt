//! What a CREATE TABLE means, and why it may be refused: the definitions, in `specs/`, and the laws that hold of them, in
//! `laws`.
#![tactic(auto)]

pub mod laws;
