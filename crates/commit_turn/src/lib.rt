//! The turn of threads that share one history: who has it reads and writes the value that keeps the history, and nobody else
//! does. Each thread has a pass, which knows the history that its holder has seen and the places of its own entries.
#![tactic(auto)]

mod held;
mod law;
mod lending;
mod pass;
mod steps;
mod turn;
mod view;
mod waiting;

pub use held::Held;
pub use pass::Pass;
pub use turn::Turn;
pub use view::{Stage, View};
