ghost use Rattle.std.specs.Prelude.{◌≡◌};
ghost use Rattle.commit_turn.specs.Flags.{raised};

use crate::view::View;
use atomic_table::Badge;
use own_base::SessionNo;

/// One more than the greatest number of a session.
pub(crate) const NUMBERS: usize = 17;

/// What a thread takes the turn with: what its holder knows, while it doesn't have the turn. It has no part of the value.
#[derive(Drop)]
pub struct Pass {
    pub(crate) badge: Badge<View>,
    /// Its session; the lead has 0.
    pub(crate) session: SessionNo,
    /// Of the lead, which sessions have a pass that was split off and not joined.
    pub(crate) out: [bool; NUMBERS],
}

impl Pass {
    /// How many passes were split off and not joined. Takes no memory.
    pub fn out(&self) -> u32
        ensures { result ≡ raised self.now.out }
    {
        self.out.iter().filter(|flag| **flag).count() as u32
    }
}
