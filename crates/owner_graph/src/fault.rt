ghost use Rattle.std.specs.Prelude.{◌≡◌};
ghost use Rattle.owner_graph.specs.declared.fault.GraphFault.TheVariants.{Memory};

use own_base::TableNo;
use std::alloc::AllocError;
use thiserror::Error;

/// Why edges have no graph.
#[derive(Debug, Drop, Error)]
pub enum GraphFault {
    /// A walk over the edges comes back to the table at which it begins. This is the highest such table, and the lowest
    /// table above it from which it is reached again.
    #[error("table {} is reached again from table {}", table.0, through.0)]
    Cycle { table: TableNo, through: TableNo },
    /// Memory was refused.
    #[error("out of memory")]
    Memory,
}

impl From<AllocError> for GraphFault {
    ghost from_gives = { λ _ fault. fault ≡ Memory };

    fn from(_refused: AllocError) -> GraphFault {
        GraphFault::Memory
    }
}
