//! What holds of statements that a text can give, as far as binding and queries ask for it.
#![tactic(auto)]

pub mod laws;
