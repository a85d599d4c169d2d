use std::alloc::AllocError;

/// Why a stream gives no further call. Bytes count from the first of the input.
#[derive(Clone, Copy, Debug, PartialEq, Eq)]
pub enum StreamFault {
    /// No UTF-8 begins at this byte.
    NotText(u64),
    /// The session line at this byte names no session.
    BadSession(u64),
    /// The call at this byte would have a number that 32 bits can't hold.
    TooManyCalls(u64),
    /// More bytes than a stream takes, or than it holds of calls that aren't given.
    TooLong,
    /// Memory was refused.
    Memory,
}

impl From<AllocError> for StreamFault {
    ghost use Rattle.std.specs.Prelude.{◌≡◌};
    ghost use Rattle.call_stream.specs.declared.fault.StreamFault.TheVariants.{Memory};

    ghost from_gives = { λ _ fault. fault ≡ Memory };

    fn from(_error: AllocError) -> StreamFault {
        StreamFault::Memory
    }
}
