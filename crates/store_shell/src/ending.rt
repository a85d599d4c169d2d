ghost use Rattle.std.specs.Prelude.{◌≡◌, Some};
ghost use Rattle.std.specs.Process.{exit_status};

use shell_session::ShellFault;
use std::process::ExitCode;
use thiserror::Error;

/// What the program tells of, with a status of its own.
#[derive(Debug, Drop, Error)]
pub(crate) enum Fault {
    /// Status 2: the words are no store and its options.
    #[error("usage: subjectdb STORE shell [--json] [--stop]")]
    Usage,
    /// The shell's own.
    #[error("{0}")]
    Shell(ShellFault),
}

/// The exit status, and the fault that it tells of.
#[derive(Debug, Drop)]
pub(crate) struct Ending {
    pub(crate) status: u8,
    pub(crate) fault: Option<Fault>,
}

pub(crate) fn usage() -> Ending
    ensures { result ≡ record { status = 2; fault = Some Fault.Usage } }
{
    Ending {
        status: 2,
        fault: Some(Fault::Usage),
    }
}

pub(crate) fn out_of_memory() -> Ending
    ensures { result ≡ record { status = 8; fault = Some (Fault.Shell ShellFault.Memory) } }
{
    Ending {
        status: 8,
        fault: Some(Fault::Shell(ShellFault::Memory)),
    }
}

/// The files of a folder could not be opened.
pub(crate) fn disk_failed() -> Ending
    ensures { result ≡ record { status = 5; fault = Some (Fault.Shell ShellFault.Disk) } }
{
    Ending {
        status: 5,
        fault: Some(Fault::Shell(ShellFault::Disk)),
    }
}

/// What the process ends with.
pub(crate) fn exit_code(ending: &Ending) -> ExitCode
    ensures { exit_status result ≡ ending.now.status }
{
    ExitCode::from(ending.status)
}
