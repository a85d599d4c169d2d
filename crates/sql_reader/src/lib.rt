//! Reads what the store is asked for: `read_script` gives the calls of an input, or why it has none, and `split` those of
//! each session; `read_statement` gives the statement that a text is, or the place at which it is none. Who reads texts in
//! another order goes over the input by `next_stretch`, reads each text by `request_of`, and has `number_calls` number them.
#![tactic(auto)]

mod calls;
mod condition;
mod create;
mod cursor;
mod fault;
pub mod laws;
mod list;
mod literal;
mod names;
mod piece;
mod read;
mod rule;
mod script;
mod select;
mod session_line;
mod sessions;
mod statement;
mod stretch;
mod tokens;

pub use calls::request_of;
pub use fault::ReadFault;
pub use read::read_statement;
pub use script::{number_calls, read_script};
pub use sessions::Split;
pub use stretch::{Ending, Stretch, next_stretch};
