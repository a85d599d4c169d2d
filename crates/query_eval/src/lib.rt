//! The reply to a SELECT, and the rows of a table that WHERE keeps.
#![tactic(auto)]

mod candidates;
mod group_tally;
mod group_value;
mod grouping;
mod groups;
mod holding;
mod in_key_order;
mod in_order;
mod item_tally;
mod joining;
mod kept;
mod kept_source;
mod key_range;
mod lent_rows;
mod linked;
mod looked_up;
mod meeting;
mod number_tally;
mod pairs;
mod reply;
mod row_list;
mod row_order;
mod selection;
mod shown;
mod table_rows;
mod value_index;
mod value_tallies;
mod views;
mod wanted;

pub use kept::{keep, kept_in_table};
pub use linked::select_linked;
pub use reply::select_reply;
pub use row_list::RowList;
pub use selection::select_kept;
