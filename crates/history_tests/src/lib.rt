//! Small histories whose replies are computed from the definitions. Each function does nothing: what it ensures is an
//! equation without variables, between the lines of the replies and lines that are written out.
#![tactic(auto)]

pub mod binding;
pub mod committing;
pub mod disk;
pub mod dooming;
pub mod forgetting;
pub mod keyed;
pub mod locking;
pub mod reading;
pub mod ruling;
pub mod showing;
pub mod telling;
pub mod truths;
pub mod weighing;
