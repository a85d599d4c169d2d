//! What a GDPR GET shows, from the data subject's small database alone: its shelf, and copies of the rows that it sees beside
//! that.
#![tactic(auto)]

mod by_name;
mod collecting;
mod gathered;
mod shown;
mod sights;

pub use collecting::collect;
pub use sights::sights_of;
