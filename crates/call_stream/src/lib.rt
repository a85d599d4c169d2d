//! Reads an input as it comes, in pieces of any length, and gives each call as soon as its text is closed: `CallStream`.
#![tactic(auto)]

mod call;
mod fault;
pub mod laws;
mod lines;
mod scan;
mod session_line;
mod stream;
mod stretch;

pub use call::{StreamCall, StreamEnd};
pub use fault::StreamFault;
pub use stream::{CallStream, HELD_BYTES, STREAM_BYTES};
