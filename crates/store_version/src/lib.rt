//! The state of a store in one piece: its catalog, the rows of each table, in parts that versions share, whose each row is, and
//! copies of each data subject's rows. A next version is prepared beside the one that stands, and takes its place without taking
//! memory.
#![tactic(auto)]

mod after;
mod owned;
mod preparing;
mod rows;
mod shown;
mod shown_owned;
mod shown_rows;
mod version;

pub use preparing::{prepare, prepare_table, prepare_view, publish, publish_change};
pub use shown::Shown;
pub use version::{Next, Version};
