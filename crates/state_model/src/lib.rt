//! Which databases a store may represent, and whether a commit is accepted: the definitions of faults, weight, nets and
//! creates, in `specs/`.
#![tactic(auto)]

pub mod laws;
