//! What a select means, also as the query of a view, or what is wrong with it.
#![tactic(auto)]

mod from;
mod grouping;
mod items;
mod join;
mod order;
mod output;
mod output_kinds;
mod select;
mod view;

pub use select::bind_select;
pub use view::bind_view;
