use own_base::{Area, List};

/// What a call did to an area.
#[derive(Debug, Drop)]
pub enum Change {
    /// These bytes were written at this place.
    Write(u64, List<u8>),
    /// The area was cut to this length.
    Cut(u64),
    /// What was written is durable.
    Sync,
}

/// A call that changed an area of a disk in memory, or made its bytes durable.
#[derive(Debug, Drop)]
pub struct DiskCall {
    /// The area.
    pub area: Area,
    /// What it did.
    pub change: Change,
}
