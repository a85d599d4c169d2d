//! An ordered sequence that lies in pages and shares them with what changes make of it.
#![tactic(auto)]

mod bound;
mod build;
mod change;
mod copied;
mod cut;
mod hints;
mod in_place;
mod items;
mod key;
mod lent;
mod likely;
mod merge;
mod node;
mod page;
mod pages;
mod search;
mod way;

pub use items::Items;
pub use key::{BoundOf, ChangeOf, KeyOf};
pub use pages::Pages;
