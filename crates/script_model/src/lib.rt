//! What the bytes of an input are: the calls of its sessions, or why it has none. The definitions stand in `specs/`, and
//! what holds of the calls of every input in `laws`.
#![tactic(auto)]

pub mod laws;
