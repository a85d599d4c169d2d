//! What the names of a statement mean over the columns that it can name, and the one of its faults that is reported.
#![tactic(auto)]

mod columns;
mod condition;
mod fault;
mod item;
mod kinds;
mod least;
mod meant;
mod reference;
mod scope;
mod tables;

pub use columns::{Columns, Heading};
pub use condition::{bind_condition, bind_where};
pub use fault::Fault;
pub use item::item_at;
pub use kinds::{are_compared, is_text, kind_of};
pub use least::Least;
pub use meant::Meant;
pub use reference::{bind_column, note_unlike};
pub use scope::{Named, Scope, Source};
pub use tables::{
    NumberedTable, NumberedView, bind_table, columns_found, number_of, table_named, view_named,
};
