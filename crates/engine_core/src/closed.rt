use own_base::List;
use own_model::Entry;
use store_snapshot::Snapshot;

/// What an engine leaves.
pub struct Closed<D> {
    /// The state that the opening left.
    pub opened: Snapshot,
    /// The entries of the calls made, in the order of their events.
    pub history: List<Entry>,
    /// The disk that was handed in.
    pub disk: D,
}
