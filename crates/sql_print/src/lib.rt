//! Writes statements, values and replies as text.
#![tactic(auto)]

mod condition;
mod create;
pub mod laws;
mod quoted;
mod refusal;
mod reply;
mod select;
mod statement;
mod text_buffer;
mod value;
mod word;

pub use reply::print_reply;
pub use statement::print_statement;
pub use value::print_value;
