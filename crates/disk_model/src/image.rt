use own_base::{List, Row};
use own_model::CreateText;

/// A whole state as the disk keeps it: how many commits made it, the canonical texts of its creates in order, and
/// each table's rows by its number.
#[derive(Debug, Drop)]
pub struct Image {
    pub commits: u64,
    pub creates: List<CreateText>,
    pub tables: List<List<Row>>,
}
