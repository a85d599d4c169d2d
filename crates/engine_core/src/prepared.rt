use own_base::{Change, List};
use store_version::Next;

/// The state that a commit leads to: a version that was prepared beside the one that stands; or the one that stands with a
/// change of one row, which is yet to be made in it; or a version that was prepared beside it, and in whose place nothing is to
/// be left on the disk of what was there.
#[derive(Drop)]
pub(crate) enum NextState {
    Beside(Next),
    InPlace(Change),
    Anew(Next),
}

/// What a commit without a fault leads to, what that weighs, and what it writes: the record of the commit, or the image of what
/// is laid anew.
#[derive(Drop)]
pub(crate) struct Prepared {
    pub(crate) state: NextState,
    pub(crate) weighs: u64,
    pub(crate) bytes: List<u8>,
}
