//! What threads share that take turns: a history of entries, to which whoever has the turn adds, and a start that no one
//! changes. The definitions stand in `specs/`.
#![tactic(auto)]

mod keeps;
mod start;

pub use keeps::Keeps;
pub use start::Started;
