//! Reads an input by several threads: `read_in_parallel` gives what `sql_reader` gives of it, an input's calls or why it has none.
//! The input is cut into the texts of its calls by one thread, the texts are read side by side, and what they ask for is numbered.
#![tactic(auto)]

mod cutting;
mod reading;
mod unread;

pub use reading::read_in_parallel;
