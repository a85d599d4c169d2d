use own_base::{RowName, Subject};

/// How a subject stands to a row.
#[derive(Clone, Copy, Debug, PartialEq, Eq)]
pub enum Standing {
    /// No path leads from the row to the subject.
    Nothing,
    /// A path does, but none of owner edges alone.
    Reaches,
    /// A path of owner edges alone does.
    Owns,
}

/// A subject stands otherwise to a row than before.
#[derive(Debug, Drop)]
pub struct OwnerMove {
    pub name: RowName,
    pub subject: Subject,
    pub before: Standing,
    pub after: Standing,
}
