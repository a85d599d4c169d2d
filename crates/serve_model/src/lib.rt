//! What serves calls over one history: the definitions of looks and steps, in `specs/`, what shows a database and what makes
//! calls, as traits, and the laws that hold of looks, in `laws`.
#![tactic(auto)]

mod ahead;
pub mod laws;
mod looks;
mod serves;
mod step;

pub use ahead::Ahead;
pub use looks::Looks;
pub use serves::Serves;
pub use step::Step;
