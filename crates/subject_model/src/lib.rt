//! Whose data each row of a database is: the definitions of paths, owners, GDPR GET and GDPR FORGET, in `specs/`, and the
//! laws that hold of them, in `laws`.
#![tactic(auto)]

pub mod laws;
