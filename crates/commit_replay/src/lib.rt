//! The state that an image and the commits behind it lead to, carried from commit to commit.
#![tactic(auto)]

mod create;
mod create_text;
mod erasure;
mod followed;
mod going;
mod image;
mod keyed_row;
mod lawful_put;
mod making;
mod puts;
mod refused;
mod replayed;
mod row_changes;
mod rows;
mod table;
mod view;

pub use replayed::Replayed;
