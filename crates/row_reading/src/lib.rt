//! What is read off a row and off a schema: cells, keys, names and sets of columns, and what a table is to data subjects.
#![tactic(auto)]

mod cells;
mod column_sets;
mod keys;
mod lone;
mod names;
mod tables;

pub use cells::{cell, copied_cell, is_null};
pub use column_sets::has_column;
pub use keys::{compare_key, compare_key_to, has_key, key_of, literal_key};
pub use lone::{are_lone, is_lone};
pub use names::{is_among, is_name, is_same_name, row_name};
pub use tables::{definition_of, is_private, is_public, is_subject};
