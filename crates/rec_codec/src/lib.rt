//! A commit as the bytes of a record, and back.
#![tactic(auto)]

mod decoding;
mod encoding;
mod fault;
pub mod laws;
mod rising;

pub use decoding::decode;
pub use encoding::encode;
pub use fault::EncodeFault;
