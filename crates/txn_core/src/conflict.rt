ghost use Rattle.std.specs.Prelude.{◌≡◌, ◌<◌, IfOk, length};
ghost use Rattle.txn_core.specs.Transactions.{conflict_of};

use own_base::{MakeCopy, SessionNo};
use own_model::{FootItem, Refusal, Schema};
use std::alloc::{AllocError, Global};

/// Why a statement is refused in whose way a session stands, by an item of its footprint.
pub(crate) fn conflict(
    alloc: Global,
    schema: &Schema,
    session: SessionNo,
    item: &FootItem,
) -> Result<Refusal, AllocError>
    requires { item.now.table.0 < length schema.now.tables }
    ensures { IfOk result (λ why. why ≡ conflict_of schema.now (record { session = session.0; item = item.now })) }
{
    let table = schema.tables.items()[item.table.0 as usize]
        .name
        .copy(alloc)?;
    let key = item.key.copy(alloc)?;
    Ok(Refusal::Conflict {
        session,
        table,
        key,
    })
}
