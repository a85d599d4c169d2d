ghost use Rattle.std.specs.Prelude.{◌≡◌, ◌≢◌, None, IfOk};

use crate::followed::Followed;
use own_model::Refusal;
use std::alloc::AllocError;
use std::mem::drop;

/// That nothing follows where a CREATE is refused, unless that is for want of memory.
pub(crate) fn refused(why: Refusal) -> Result<Option<Followed>, AllocError>
    ensures { IfOk result (λ followed. (followed ≡ None) × (why ≢ Refusal.Memory)) }
{
    match why {
        Refusal::Memory => Err(AllocError),
        why => {
            drop(why);
            Ok(None)
        }
    }
}
