use own_base::{List, Row, RowName, Text};

/// What a commit left of a row: the row, or None where it was taken away.
#[derive(Debug, Drop)]
pub struct Put {
    pub name: RowName,
    pub after: Option<Row>,
}

/// A commit as the journal keeps it.
#[derive(Debug, Drop)]
pub enum Commit {
    /// The canonical text of a CREATE TABLE.
    CreateTable(Text),
    /// The canonical text of a CREATE VIEW.
    CreateView(Text),
    /// The rows that were changed, by table and then by key, none twice.
    Changes(List<Put>),
    /// The data subject whose rows were forgotten.
    Forget(RowName),
}
