ghost use Rattle.std.specs.Prelude.{◌≡◌};
ghost use Rattle.disk_fields.specs.declared.unread.Unread.TheVariants.{Memory};

use std::alloc::AllocError;

/// Why nothing was read.
#[derive(Clone, Copy, Debug, PartialEq, Eq)]
pub enum Unread {
    /// Memory was refused.
    Memory,
    /// The bytes don't begin with what was to be read.
    Malformed,
}

impl From<AllocError> for Unread {
    ghost from_gives = { λ _ unread. unread ≡ Memory };

    fn from(_refused: AllocError) -> Unread {
        Unread::Memory
    }
}
