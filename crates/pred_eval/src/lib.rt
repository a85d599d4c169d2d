//! Whether a condition holds of a row, and what an expression gives over one.
#![tactic(auto)]

mod compare;
mod condition;
mod expression;
mod pinned;
mod row_pair;

pub use compare::{compare_values, compared};
pub use condition::{keeps, keeps_row, truth};
pub use expression::{ValueFault, value};
pub use pinned::pinned_key;
pub use row_pair::RowPair;
