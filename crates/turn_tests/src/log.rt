ghost use Rattle.std.specs.Prelude.{◌≡◌, ◌⊎◌, [], ◌∷◌, ◌++◌};
ghost use Rattle.turn_tests.specs.EndOf.{end_of};

use own_base::SessionNo;
use own_model::{Entry, Request, Verdict};
use std::alloc::Global;
use turn_model::Keeps;

/// What keeps entries, and takes more of them.
pub(crate) trait Adds: Keeps {
    /// Adds the entry of an End, if there is memory.
    fn add(&mut self, session: SessionNo, call: u32)
        ensures entries { (Self.history self.new ≡ Self.history self.old) ⊎ (Self.history self.new ≡ Self.history self.old ++ end_of session call ∷ []) }
        ensures start { Self.start self.new ≡ Self.start self.old };
}

/// A value that keeps entries alone.
#[derive(Drop)]
pub(crate) struct Log {
    pub(crate) entries: Vec<Entry>,
}

impl Keeps for Log {
    ghost use Rattle.turn_model.specs.Start.{nothing};

    ghost history = { λ log. log.entries.items };

    ghost start = { λ log. nothing };

    fn entries(&self) -> &[Entry] {
        &self.entries
    }
}

impl Adds for Log {
    fn add(&mut self, session: SessionNo, call: u32) {
        if self.entries.reserve(1).is_ok() {
            self.entries.push_reserved(Entry {
                session,
                verdict: Verdict::Took,
                call,
                request: Request::End,
            });
        }
    }
}

impl Log {
    pub(crate) fn new(alloc: Global) -> Log {
        Log {
            entries: Vec::new(alloc),
        }
    }

    /// Whether a session's calls are those from 0 up to this number, each once and in order.
    pub(crate) fn has_in_order(&self, session: SessionNo, calls: u32) -> bool {
        self.entries
            .iter()
            .filter(|entry| entry.session.0 == session.0)
            .map(|entry| entry.call)
            .eq(0..calls)
    }
}
