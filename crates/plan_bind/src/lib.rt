//! What the names of a statement mean: the statement with numbers in their place, or the one fault of it that is told.
//! And what a bound statement may read or write.
#![tactic(auto)]

mod column_list;
mod delete;
mod expression;
mod footprints;
mod insert;
mod insert_targets;
mod inserted_keys;
mod numbered_column;
mod read_tables;
mod repeats;
mod row_or_table;
mod statement;
mod subject;
mod target;
mod tuple;
mod update;
mod value_kind;

pub use bind_select::bind_view;
pub use footprints::footprint;
pub use statement::bind;
