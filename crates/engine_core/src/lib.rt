//! The engine of a store: the state of a store and the history that made it, one call at a time.
#![tactic(auto)]

mod answer;
mod asker;
mod came;
mod checkpoint;
mod closed;
mod commit;
mod creating;
mod engine;
mod inside;
mod installing;
mod keeps;
mod looking;
mod outside;
mod prepared;
mod ready;
mod serves;
mod serving;
mod state;
mod subjects;
mod taking;
mod verdict;
mod writing;

pub use closed::Closed;
pub use engine::Engine;
pub use serve_model::Step;
