use crossbeam_utils::atomic::AtomicCell;

/// How many threads wait for a turn, by how they wait. No clause hangs on the counts: they say whom to wake.
///
/// A thread that waits is counted at each moment, once or twice: it is counted anew before it is no longer counted as it was.
#[derive(Drop)]
pub(crate) struct Waiting {
    /// Those that look again and again whether the turn is free.
    looking: AtomicCell<u32>,
    /// Those that sleep until they are woken, or are about to.
    asleep: AtomicCell<u32>,
}

impl Waiting {
    /// Nobody waits.
    pub(crate) fn new() -> Waiting {
        Waiting {
            looking: AtomicCell::new(0),
            asleep: AtomicCell::new(0),
        }
    }

    /// A thread begins to look.
    pub(crate) fn looks(&self) {
        self.looking.fetch_add(1);
    }

    /// A thread that looked has the turn.
    pub(crate) fn found(&self) {
        self.looking.fetch_sub(1);
    }

    /// A thread that looked is about to sleep.
    pub(crate) fn sleeps(&self) {
        self.asleep.fetch_add(1);
        self.looking.fetch_sub(1);
    }

    /// A thread that slept looks again.
    pub(crate) fn wakes(&self) {
        self.looking.fetch_add(1);
        self.asleep.fetch_sub(1);
    }

    /// Whether threads sleep and none looks, so that nobody would find a turn that is free.
    pub(crate) fn is_left_asleep(&self) -> bool {
        self.asleep.load() != 0 && self.looking.load() == 0
    }
}
