//! What a crash leaves of a store: definitions over the bytes of two areas. No code of the store.
#![tactic(auto)]

pub mod laws;
