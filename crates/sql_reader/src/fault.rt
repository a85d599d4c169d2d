use own_model::LimitName;
use std::alloc::{AllocError, AllocFailed};

/// Why nothing is read, without its place.
#[derive(Clone, Copy, Debug, PartialEq, Eq)]
pub enum RuleFault {
    Syntax,
    Limit(LimitName),
    Memory,
}

/// Why no statement is read.
#[derive(Clone, Copy, Debug, PartialEq, Eq)]
pub enum ReadFault {
    /// The first byte of the first token at which no statement continues, or the text's length.
    Syntax(u32),
    /// The limit that is passed before that.
    Limit(LimitName),
    /// Memory was refused.
    Memory,
}

impl From<AllocError> for RuleFault {
    ghost use Rattle.std.specs.Prelude.{◌≡◌};
    ghost use Rattle.sql_reader.specs.declared.fault.RuleFault.TheVariants.{Memory};

    ghost from_gives = { λ _ fault. fault ≡ Memory };

    fn from(_error: AllocError) -> RuleFault {
        RuleFault::Memory
    }
}
