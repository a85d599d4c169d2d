ghost use Rattle.std.specs.Prelude.{◌≡◌};
ghost use Rattle.rec_codec.specs.declared.fault.EncodeFault.TheVariants.{Memory};

use std::alloc::{AllocError, AllocFailed};

/// Why a commit wasn't encoded.
#[derive(Clone, Copy, Debug, PartialEq, Eq)]
pub enum EncodeFault {
    /// The payload has so many bytes, more than `PAYLOAD_BYTES`.
    TooBig(u64),
    /// Memory was refused.
    Memory,
}

impl From<AllocError> for EncodeFault {
    ghost from_gives = { λ _ fault. fault ≡ Memory };

    fn from(_refused: AllocError) -> EncodeFault {
        EncodeFault::Memory
    }
}

impl<T: Drop> From<AllocFailed<T>> for EncodeFault {
    ghost from_gives = { λ _ fault. fault ≡ Memory };

    fn from(_refused: AllocFailed<T>) -> EncodeFault {
        EncodeFault::Memory
    }
}
