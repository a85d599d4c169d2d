//! Which subjects gain and lose rows as a store changes: the definitions, in `specs/`, and the laws that hold of them, in
//! `laws`.
#![tactic(auto)]

pub mod laws;
mod owner_move;

pub use owner_move::{OwnerMove, Standing};
