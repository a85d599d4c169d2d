ghost use Rattle.std.specs.Prelude.{◌≡◌, IfOk};
ghost use Rattle.schema_model.specs.OwnerSchema.{IsOwnerSchema};
ghost use Rattle.micro_db.specs.CopyOf.{copy_of};

use crate::by::edges_by;
use crate::rows::row_of;
use link_model::Linked;
use own_base::{MakeCopy, RowName, Subject};
use shelf_model::{EdgeList, Shelved};
use std::alloc::{AllocError, Global};

/// A copy of a row, with the edges by which a subject reaches it; none where there is no row of the name.
pub fn copy_of<N: Linked>(
    alloc: Global,
    view: &N,
    subject: &Subject,
    name: &RowName,
) -> Result<Option<Shelved>, AllocError>
    requires { IsOwnerSchema (N.db view.now).schema }
    ensures { IfOk result (λ copy. copy ≡ copy_of (N.db view.now) subject.now.0 name.now) }
{
    let Some(row) = row_of(view, name) else {
        return Ok(None);
    };
    let edges = edges_by(alloc, view, name, row, subject)?;
    let by = EdgeList::from_list(alloc, edges)?;
    let name = name.copy(alloc)?;
    let row = row.copy(alloc)?;
    Ok(Some(Shelved { name, row, by }))
}
