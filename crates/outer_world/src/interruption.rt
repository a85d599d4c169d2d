ghost use Rattle.std.specs.Prelude.{◌≡◌, ◌↔◌, IsTrue};

use std::io::ErrorKind;

/// The most times in a row that a call of the system is tried again because a signal interrupted it.
pub const INTERRUPTIONS: u32 = 1_000;

/// Whether a call of the system that ended with an error of this kind is tried again.
pub(crate) fn is_tried_again(kind: ErrorKind) -> bool
    ensures { IsTrue result ↔ (kind ≡ ErrorKind.Interrupted) }
{
    kind == ErrorKind::Interrupted
}
