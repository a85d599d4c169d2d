use own_base::{Change, List};

/// What a write comes to: how many rows it puts or meets, and what becomes of them, by rising key.
#[derive(Debug, Drop)]
pub struct Written {
    pub count: u64,
    pub changes: List<Change>,
}
