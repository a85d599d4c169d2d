//! The texts of the store: how statements, values and replies are written. The definitions stand in `specs/`.
#![tactic(auto)]
