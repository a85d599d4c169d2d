ghost use Rattle.std.specs.Prelude.{◌≡◌};
ghost use Rattle.store_top.specs.Status.{status_of};

use own_base::{Area, List};
use own_model::{Entry, InputFault};
use store_snapshot::Snapshot;
use thiserror::Error;

/// How a run ended, and what it leaves.
pub struct Served<D> {
    /// The exit status: 0, or the number of the fault.
    pub status: u8,
    /// None exactly with status 0.
    pub fault: Option<TopFault>,
    /// The state that the opening left; None exactly where no store was opened.
    pub opened: Option<Snapshot>,
    /// The entries of the calls made, in the order of their events.
    pub history: List<Entry>,
    /// The disk that was handed in.
    pub disk: D,
}

/// Why a run ended before its end. Each has a status of its own.
#[derive(Debug, Drop, Error)]
pub enum TopFault {
    /// Status 2: the words are no mode with its arguments.
    #[error("usage: subjectdb STORE step, serve or make N SEED")]
    Usage,
    /// Status 3: the source met a fault.
    #[error("the input could not be read")]
    Read,
    /// Status 4: the sink met a fault.
    #[error("the output could not be written")]
    Write,
    /// Status 5: the disk met a fault.
    #[error("the disk failed")]
    Disk,
    /// Status 6: what the disk holds is no store.
    #[error("area {area:?} is damaged at byte {offset}")]
    Damaged { area: Area, offset: u64 },
    /// Status 7: the input has no script. It is never `InputFault::Memory`, which gives status 8.
    #[error("{0}")]
    Input(InputFault),
    /// Status 8: memory was refused.
    #[error("out of memory")]
    Memory,
}

/// The exit status of a fault.
pub(crate) fn status(fault: &Option<TopFault>) -> u8
    ensures { result ≡ status_of fault.now }
{
    match fault {
        None => 0,
        Some(TopFault::Usage) => 2,
        Some(TopFault::Read) => 3,
        Some(TopFault::Write) => 4,
        Some(TopFault::Disk) => 5,
        Some(TopFault::Damaged { .. }) => 6,
        Some(TopFault::Input(_)) => 7,
        Some(TopFault::Memory) => 8,
    }
}
