ghost use Rattle.std.specs.Prelude.{◌≡◌, ℕ, Err, IfOk};
ghost use Rattle.own_model.specs.Db.{Db};
ghost use Rattle.disk_model.specs.Bounds.{IsShortName};
ghost use Rattle.disk_model.specs.declared.commit.Commit.TheVariants.{Forget};
ghost use Rattle.disk_model.specs.PutOf.{puts_of};
ghost use Rattle.rec_codec.specs.declared.fault.EncodeFault.TheVariants.{TooBig};
ghost use Rattle.commit_record.specs.Recorded.{Frames, IsNetOf, IsSomeNet, RecordsChanges, create_commit};

use disk_model::{Commit, Put};
use own_base::{Change, List, MakeCopy, RowName, Text};
use rec_codec::{EncodeFault, encode};
use std::alloc::{AllocError, Global};

/// What a commit keeps of changes. Rows and texts are shared where their types share them.
fn puts_of(alloc: Global, changes: &[Change]) -> Result<List<Put>, AllocError>
    ensures { IfOk result (λ puts. puts ≡ puts_of changes.now) }
{
    let mut puts = Vec::with_capacity(alloc, changes.len())?;
    for change in changes {
        let name = change.name.copy(alloc)?;
        let after = change.after.copy(alloc)?;
        puts.push(Put { name, after })?;
    }
    Ok(List::from_vec(puts))
}

/// The record of the changes of a commit: of a write, or of a transaction. `TooBig` with the length of their payload
/// comes exactly where that is more than a payload may have.
pub fn record_of_changes(alloc: Global, changes: &[Change]) -> Result<List<u8>, EncodeFault>
    requires { IsSomeNet changes.now }
    ensures { (before after : Db) → IsNetOf before after changes.now → RecordsChanges before after changes.now result }
{
    let puts = puts_of(alloc, changes)?;
    encode(alloc, &Commit::Changes(puts))
}

/// The record of a CREATE, by its canonical text.
pub fn record_of_create(alloc: Global, view: bool, text: &Text) -> Result<List<u8>, EncodeFault>
    ensures { Frames (create_commit view text.now) result }
{
    let text = text.copy(alloc)?;
    let commit = if view {
        Commit::CreateView(text)
    } else {
        Commit::CreateTable(text)
    };
    encode(alloc, &commit)
}

/// The record of a FORGET, by the row of its data subject. It is never too long.
pub fn record_of_forget(alloc: Global, name: &RowName) -> Result<List<u8>, EncodeFault>
    requires { IsShortName name.now }
    ensures framed { Frames (Forget name.now) result }
    ensures never { (count : ℕ) → result ≡ Err (TooBig count) → ⊥ }
{
    let name = name.copy(alloc)?;
    encode(alloc, &Commit::Forget(name))
}
