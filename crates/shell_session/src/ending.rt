ghost use Rattle.std.specs.Prelude.{◌≡◌};
ghost use Rattle.shell_session.specs.Status.{stop_of, status_of, unopened};

use call_stream::StreamFault;
use crash_recover::OpenFault;
use own_base::Area;
use std::fmt;

/// How a shell ended, and what it leaves.
pub struct Left<D> {
    /// The exit status: 0, or the number of the fault.
    pub status: u8,
    /// None exactly with status 0.
    pub fault: Option<ShellFault>,
    /// The disk that was handed in.
    pub disk: D,
}

/// Why a shell ended before its input's end, or that the disk failed. Each has a status of its own.
#[derive(Clone, Copy, Debug, PartialEq, Eq)]
pub enum ShellFault {
    /// Status 3: the source met a fault.
    Read,
    /// Status 4: the sink met a fault.
    Write,
    /// Status 5: the disk met a fault.
    Disk,
    /// Status 6: what the disk holds is no store.
    Damaged { area: Area, offset: u64 },
    /// Status 7: bytes that are no text, a session line that names no session, or more calls than can be numbered.
    Input(StreamFault),
    /// Status 8: memory was refused.
    Memory,
    /// Status 9: a call was refused, and the shell was asked to end there.
    Refused,
}

impl fmt::Display for ShellFault {
    fn fmt<W: fmt::Write>(&self, f: &mut fmt::Formatter<W>) -> fmt::Result {
        match self {
            ShellFault::Read => write!(f, "the input could not be read"),
            ShellFault::Write => write!(f, "the output could not be written"),
            ShellFault::Disk => write!(f, "the disk failed"),
            ShellFault::Damaged { area, offset } => {
                write!(f, "area {area:?} is damaged at byte {offset}")
            }
            ShellFault::Input(StreamFault::NotText(byte)) => {
                write!(f, "input refused at byte {byte}: not text")
            }
            ShellFault::Input(StreamFault::BadSession(byte)) => {
                write!(f, "input refused at byte {byte}: bad session line")
            }
            ShellFault::Input(StreamFault::TooManyCalls(byte)) => {
                write!(f, "input refused at byte {byte}: too many calls")
            }
            ShellFault::Input(_) => write!(f, "input refused: too long"),
            ShellFault::Memory => write!(f, "out of memory"),
            ShellFault::Refused => write!(f, "a call was refused"),
        }
    }
}

/// The exit status of a fault.
fn status(fault: Option<ShellFault>) -> u8
    ensures { result ≡ status_of fault }
{
    match fault {
        None => 0,
        Some(ShellFault::Read) => 3,
        Some(ShellFault::Write) => 4,
        Some(ShellFault::Disk) => 5,
        Some(ShellFault::Damaged { .. }) => 6,
        Some(ShellFault::Input(_)) => 7,
        Some(ShellFault::Memory) => 8,
        Some(ShellFault::Refused) => 9,
    }
}

/// The fault of a shell whose store was not opened.
pub(crate) fn unopened(fault: OpenFault) -> ShellFault
    ensures { result ≡ unopened fault }
{
    match fault {
        OpenFault::DiskFault => ShellFault::Disk,
        OpenFault::Damaged { area, offset } => ShellFault::Damaged { area, offset },
        OpenFault::Memory => ShellFault::Memory,
    }
}

/// The fault of a shell that met one in its input.
pub(crate) fn stopped(fault: StreamFault) -> ShellFault
    ensures { result ≡ stop_of fault }
{
    match fault {
        StreamFault::Memory => ShellFault::Memory,
        fault => ShellFault::Input(fault),
    }
}

/// What a shell leaves, with the status of its fault.
pub(crate) fn ended<D>(fault: Option<ShellFault>, disk: D) -> Left<D>
    ensures status { result.status ≡ status_of fault }
    ensures fault { result.fault ≡ fault }
    ensures disk { result.disk ≡ disk }
{
    Left {
        status: status(fault),
        fault,
        disk,
    }
}
