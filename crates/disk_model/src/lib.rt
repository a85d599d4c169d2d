//! What a store writes to its disk: the payload of a commit and the image of a state, as plain types, and in `specs/`
//! their bytes. No code of the store.
#![tactic(auto)]

mod commit;
mod image;
pub mod laws;

pub use commit::{Commit, Put};
pub use image::Image;
