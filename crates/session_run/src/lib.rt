//! The workers that serve sessions side by side over one turn: each makes the calls of its session, one after another, and
//! tells each by its lines. The definitions stand in `specs/`.
#![tactic(auto)]

mod calling;
mod learning;
mod printing;
mod replies;
mod running;
mod serving;
mod sessions;
mod telling;
mod working;

pub use printing::{RunFault, print_sessions};
pub use replies::{SessionReplies, Told};
pub use running::run_threads;
pub use serving::serve_sessions;
