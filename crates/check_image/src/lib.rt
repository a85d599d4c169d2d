//! A whole state as the bytes of an image, and back.
#![tactic(auto)]

mod decoding;
mod encoding;
pub mod laws;
mod tables;

pub use decoding::decode;
pub use encoding::encode;
