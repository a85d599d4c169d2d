use store_version::Next;

/// The version that a commit leads to, and what it weighs.
#[derive(Drop)]
pub(crate) struct Followed {
    pub(crate) next: Next,
    pub(crate) weighs: u64,
}
