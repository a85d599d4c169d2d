//! Replies as JSON, each on a line of its own, with the names of its columns; and a refusal by number, word and sentence.
#![tactic(auto)]

mod columns;
mod line;
mod members;
mod refused;
mod rows;
mod told;
mod values;
mod wording;

pub use columns::{TableNames, columns_of, select_columns};
pub use line::json_line;
pub use told::Told;
pub use wording::{refusal_name, refusal_number, refusal_sentence};
