use own_base::List;
use own_model::{Edge, TableDef};

/// What a CREATE TABLE that is admitted adds to a schema.
#[derive(Debug, Drop)]
pub struct Admitted {
    /// Its table, numbered as the next after those of the schema.
    pub table: TableDef,
    /// Its edges, numbered as they follow those of the schema.
    pub edges: List<Edge>,
}
