//! The parts of what a store writes to its disk, read from bytes and written as bytes: numbers, texts, values, rows,
//! names, changes and creates, and lists of them.
#![tactic(auto)]

mod change;
mod create;
mod field;
mod number;
mod row;
mod text;
mod unread;
mod value;

pub use field::{Field, byte_count_of, no_more, read_items, write_items};
pub use number::{read_u32, read_u64, write_u32, write_u64};
pub use text::{read_text, write_text};
pub use unread::Unread;
