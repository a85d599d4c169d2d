ghost use Rattle.std.specs.Prelude.{◌≡◌};
ghost use Rattle.history_model.specs.Reply.{by_verdict};
ghost use Rattle.engine_core.specs.Stored as spec;

use own_model::{LimitName, Refusal, Reply, Verdict};
use std::mem::drop;

/// Whether the disk failed.
pub(crate) fn is_fault(verdict: Verdict) -> bool
    ensures { result ≡ spec.is_fault verdict }
{
    matches!(verdict, Verdict::DiskFault)
}

/// What a reply becomes by what the disk said: it stays where the disk took what was written.
pub(crate) fn refused_by(verdict: Verdict, reply: Reply) -> Reply
    ensures { result ≡ by_verdict verdict reply }
{
    match verdict {
        Verdict::Took => reply,
        Verdict::DiskFault => {
            drop(reply);
            Reply::Refused(Refusal::Disk)
        }
        Verdict::NoRoom => {
            drop(reply);
            Reply::Refused(Refusal::Limit(LimitName::Room))
        }
    }
}
