ghost use Rattle.std.specs.Prelude.{◌≡◌, true, false, IfOk, OnErr};
ghost use Rattle.own_model.specs.declared.reply.Reply.TheVariants.{Done};
ghost use Rattle.state_model.specs.Sound.{Sound};
ghost use Rattle.history_model.specs.Reply.{by_verdict};
ghost use Rattle.crash_model.specs.Room.{image_bytes};
ghost use Rattle.engine_core.specs.Stored.{Carries, IsUp};

use crate::taking::lay;
use crate::verdict::refused_by;
use check_image::encode;
use outer_world::Disk;
use own_model::{Reply, Verdict};
use std::alloc::{AllocError, Global};
use std::mem::drop;
use store_disk::StoreDisk;
use store_version::{Shown, Version};

/// A CHECKPOINT: the store is laid anew on its disk, as an image with no record behind it.
pub(crate) fn checkpoint<D: Disk>(
    alloc: Global,
    version: &Version,
    store: &mut StoreDisk<D>,
) -> Result<(Verdict, Reply), AllocError>
    requires sound { Sound version.now }
    requires store { IsUp D.holds D.leaves D.honest store.old version.now }
    ensures told { IfOk result (λ told. told.1 ≡ by_verdict told.0 Done) }
    ensures carried { IfOk result (λ told. Carries D.holds D.leaves D.moment D.might_have_left D.honest D.faults version.now version.now true false true (image_bytes version.now store.old.commits) store.old told.0 store.new) }
    ensures unchanged { OnErr result (store.new ≡ store.old) }
{
    let shown = Shown { version };
    let gated = encode(alloc, &shown, version.catalog().creates(), store.commits())?;
    let verdict = lay(store, gated.items(), false);
    drop(gated);
    Ok((verdict, refused_by(verdict, Reply::Done)))
}
