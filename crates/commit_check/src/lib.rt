//! The first fault of a store's state as a whole.
#![tactic(auto)]

mod judged;
mod lent_value;
mod owner;
mod reference;
mod rows;
mod unique;
mod value_counts;
mod weight;
mod whole;

pub use judged::{Judged, judge_weight};
pub use owner::first_owner_fault;
pub use reference::first_reference_fault;
pub use rows::{row_count, row_limit_fault};
pub use unique::first_unique_fault;
pub use weight::{judge_view, row_size, shown_size, weight_limit_fault};
pub use whole::{first_fault_flat, judge, judge_flat, weigh};
