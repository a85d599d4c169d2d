//! Which data subjects own each row of a store and which reach it, kept up by the changes of its rows.
#![tactic(auto)]

mod after;
mod entry;
mod gather;
mod index;
pub mod laws;
mod lower;
mod moving;
mod name_key;
mod names;
mod pass;
mod referrers;
mod rows;
mod settle;
mod subject_list;
mod touching;
mod upper;
mod which;

pub use index::OwnerIndex;
pub use touching::touched;
