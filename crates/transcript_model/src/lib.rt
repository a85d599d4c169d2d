//! What goes in and what comes out: the definitions of an input's calls and of the text of their replies, in `specs/`,
//! and the laws that hold of them, in `laws`.
#![tactic(auto)]

pub mod laws;
