ghost use Rattle.std.specs.Prelude.{◌≡◌, Some};
ghost use Rattle.std.specs.Process.{exit_status};

use std::process::ExitCode;
use store_top::TopFault;

/// The exit status, and the fault that it tells of.
#[derive(Debug, Drop)]
pub(crate) struct Ending {
    pub(crate) status: u8,
    pub(crate) fault: Option<TopFault>,
}

pub(crate) fn usage() -> Ending
    ensures { result ≡ record { status = 2; fault = Some TopFault.Usage } }
{
    Ending {
        status: 2,
        fault: Some(TopFault::Usage),
    }
}

pub(crate) fn out_of_memory() -> Ending
    ensures { result ≡ record { status = 8; fault = Some TopFault.Memory } }
{
    Ending {
        status: 8,
        fault: Some(TopFault::Memory),
    }
}

/// The files of a folder could not be opened.
pub(crate) fn disk_failed() -> Ending
    ensures { result ≡ record { status = 5; fault = Some TopFault.Disk } }
{
    Ending {
        status: 5,
        fault: Some(TopFault::Disk),
    }
}

/// What the process ends with.
pub(crate) fn exit_code(ending: &Ending) -> ExitCode
    ensures { exit_status result ≡ ending.now.status }
{
    ExitCode::from(ending.status)
}
