use store_snapshot::Snapshot;
use store_version::Version;
use txn_core::Txns;

/// What an engine keeps beside its history: the state that it was opened with; the store's state and what that weighs; and the
/// transactions of the sessions. Once the disk has failed no call asks for them any more.
#[derive(Drop)]
pub(crate) struct State {
    /// The state that the opening left.
    pub(crate) opened: Snapshot,
    pub(crate) version: Version,
    pub(crate) weighs: u64,
    pub(crate) txns: Txns,
}
