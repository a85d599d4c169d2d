//! The small database of each data subject: a copy of each row that it owns, with the edges by which it reaches the row, and
//! the names of the rows that it sees beside those; kept up by the changes of a store's rows and by who gains and loses them.
#![tactic(auto)]

mod below;
mod by;
mod copying;
mod files;
mod filing;
pub mod laws;
mod looked;
mod micro;
mod of_row;
mod place;
mod referrers;
mod renewing;
mod rows;
mod standing;
mod uppers;

pub use copying::copy_of;
pub use micro::MicroDb;
