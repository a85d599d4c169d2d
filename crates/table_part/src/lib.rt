//! The rows of one table by their key, in pages that parts share.
#![tactic(auto)]

mod hint;
mod key_column;
mod keyed_change;
mod part;
mod rows;

pub use hint::{hint_before, hint_behind, hint_of_key};
pub use part::TablePart;
pub use rows::Rows;
