//! What a GDPR GET shows of a store that is viewed.
#![tactic(auto)]

mod access;
mod cells;
mod collect;
mod shown_row;

pub use collect::{collect_by_graph, collect_flat, no_subject};
pub use shown_row::got_row;
