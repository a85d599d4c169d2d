//! What mode `make` does of itself: `make_script` gives the calls of a large script by the number of its people and a seed, and
//! `Tally` adds up what calls were answered, and tells it as eight lines.
#![tactic(auto)]

mod asking;
mod counts;
mod draws;
mod made;
mod tally;
mod texts;

pub use made::make_script;
pub use tally::Tally;
