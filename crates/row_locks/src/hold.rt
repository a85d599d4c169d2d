ghost use Rattle.std.specs.Prelude.{◌≡◌, ◌||◌, Bool};
ghost use Rattle.row_locks.specs.Hold.{blocks};

/// How a row, or a whole table, is held.
#[derive(Clone, Copy, Debug)]
pub(crate) enum Hold {
    /// Not at all.
    Free,
    /// For reading.
    Read,
    /// For writing.
    Written,
}

impl Hold {
    /// Whether it stands in the way of who would write, or only read. Takes no memory.
    pub(crate) fn blocks(self, write: bool) -> bool
        ensures { result ≡ blocks self write }
    {
        match self {
            Hold::Free => false,
            Hold::Read => write,
            Hold::Written => true,
        }
    }

    /// The same, held for writing or reading besides. Takes no memory.
    pub(crate) fn and(self, write: bool) -> Hold
        ensures { (asked : Bool) → blocks result asked ≡ (blocks self asked || (asked || write)) }
    {
        match self {
            Hold::Free | Hold::Read => { if write { Hold::Written } else { Hold::Read } }
            Hold::Written => Hold::Written,
        }
    }
}
