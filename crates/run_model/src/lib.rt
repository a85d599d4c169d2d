//! What a statement does to a database: the definitions of INSERT, UPDATE, DELETE and all others on one flat database, in
//! `specs/`, and the laws that hold of them, in `laws`.
#![tactic(auto)]

pub mod laws;
