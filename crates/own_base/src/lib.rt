//! The values that every other crate of the store speaks of: lists, texts, names, values, keys, rows, and the
//! numbers by which tables, columns, views, edges, sessions and places are called.
#![tactic(auto)]

mod boxed;
mod change;
mod list;
mod make_copy;
mod number;
mod row;
mod row_name;
mod row_values;
mod sum;
mod text;
mod value;

pub use boxed::Boxed;
pub use change::Change;
pub use list::List;
pub use make_copy::MakeCopy;
pub use number::{Area, ColNo, ColumnSet, EdgeNo, Place, SessionNo, TableNo, ViewNo};
pub use row::{ROW_SIZE, Row};
pub use row_name::{RowName, Subject};
pub use sum::Sum;
pub use text::{NAME_BYTES, Name, Text};
pub use value::{Key, VALUE_SIZE, Value};
