ghost use Rattle.std.specs.Prelude.{◌≡◌};
ghost use Rattle.annot_schema.specs.Fault.{refusal_seen};

use own_base::Name;
use own_model::{LimitName, Refusal};
use std::alloc::AllocError;
use thiserror::Error;

/// Why a CREATE TABLE isn't admitted.
#[derive(Debug, Drop, Error)]
pub enum SchemaFault {
    /// A table or a view has the name.
    #[error("the name {} is taken", .0.as_str())]
    NameTaken(Name),
    /// A rule of the language is broken, first by this name.
    #[error("{} breaks rule {rule} of CREATE TABLE", .name.as_str())]
    BadSchema { rule: u32, name: Name },
    /// The edges would lead from a table, through another, back to it.
    #[error("{} would be owned or accessed by itself, through {}", .table.as_str(), .through.as_str())]
    Cycle { table: Name, through: Name },
    /// OWNS names a table that holds rows.
    #[error("the table {} holds rows", .0.as_str())]
    HasRows(Name),
    /// It passes a limit.
    #[error("the limit {0:?} is passed")]
    Limit(LimitName),
    /// Memory was refused.
    #[error("out of memory")]
    Memory,
}

impl SchemaFault {
    /// The refusal of the call that asks for it.
    pub fn into_refusal(self) -> Refusal
        ensures { result ≡ refusal_seen self }
    {
        match self {
            SchemaFault::NameTaken(name) => Refusal::NameTaken(name),
            SchemaFault::BadSchema { rule, name } => Refusal::BadSchema { rule, name },
            SchemaFault::Cycle { table, through } => Refusal::Cycle { table, through },
            SchemaFault::HasRows(table) => Refusal::HasRows(table),
            SchemaFault::Limit(limit) => Refusal::Limit(limit),
            SchemaFault::Memory => Refusal::Memory,
        }
    }
}

impl From<AllocError> for SchemaFault {
    ghost use Rattle.std.specs.Prelude.{◌≡◌};
    ghost use Rattle.annot_schema.specs.declared.fault.SchemaFault.TheVariants.{Memory};

    ghost from_gives = { λ _ fault. fault ≡ Memory };

    fn from(_error: AllocError) -> SchemaFault {
        SchemaFault::Memory
    }
}
