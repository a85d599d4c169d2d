//! A shell over a store: calls are read as they come, each is made as soon as its text is closed, and its reply is written
//! before the next byte is waited for.
#![tactic(auto)]

mod answering;
mod book;
mod ending;
mod manner;
mod marking;
mod naming;
mod notes;
mod opening;
mod serving;
mod shell;
mod telling;

pub use ending::{Left, ShellFault};
pub use manner::{Form, Manner};
pub use notes::{NoNotes, Notes};
pub use shell::serve_shell;
