use own_base::{Key, List, TableNo};

/// One row of a table, whether it is there or not, or the whole table, for reading or for writing.
#[derive(Debug, Drop)]
pub struct FootItem {
    pub table: TableNo,
    /// None is the whole table.
    pub key: Option<Key>,
    /// Whether it is written; else it is read.
    pub write: bool,
}

/// What a statement may read or write: by table, the whole table before its keys, then by key, none twice.
pub type Footprint = List<FootItem>;
