//! What histories of calls mean: the definitions of the flat database, transactions, replies and serial histories, in
//! `specs/`, and the laws that hold of them, in `laws`.
#![tactic(auto)]

pub mod laws;
