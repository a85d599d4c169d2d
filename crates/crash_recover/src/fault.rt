ghost use Rattle.std.specs.Prelude.{◌≡◌};
ghost use Rattle.crash_recover.specs.declared.fault.AreaFault.TheVariants.{Memory};

use std::alloc::AllocError;

/// Why an area isn't found to be a store.
#[derive(Clone, Copy, Debug)]
pub(crate) enum AreaFault {
    /// Memory was refused.
    Memory,
    /// What lies at this offset is the first that is unlawful.
    Damaged(u64),
}

impl From<AllocError> for AreaFault {
    ghost from_gives = { λ _ fault. fault ≡ Memory };

    fn from(_refused: AllocError) -> AreaFault {
        AreaFault::Memory
    }
}
