//! What a commit leaves is judged by its changes: the first fault, or the weight.
#![tactic(auto)]

mod alone;
mod judge;
mod unlinked;

pub use alone::judge_alone;
pub use judge::judge_by;
pub use unlinked::is_unlinked;
