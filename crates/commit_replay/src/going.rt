ghost use Rattle.std.specs.Prelude.{◌≡◌, IfOk, IfSome, OnErr, OnOk};
ghost use Rattle.state_model.specs.Sound.{Sound};
ghost use Rattle.state_model.specs.Weight.{weight};
ghost use Rattle.disk_model.specs.Bounds.{IsCountable};
ghost use Rattle.disk_model.specs.declared.commit.Commit.TheVariants.{Forget};
ghost use Rattle.commit_replay.specs.Creates.{commit_of};
ghost use Rattle.commit_replay.specs.Followed.{IsFollowed};
ghost use Rattle.commit_replay.specs.GoneOn.{IsGoneOn};

use crate::create::follow_create;
use crate::erasure::follow_forget;
use crate::followed::Followed;
use own_base::{RowName, Text};
use std::alloc::{AllocError, Global};
use store_version::{Version, publish};

/// Goes on to what follows, and answers whether something does. Takes no memory.
fn go_on(version: &mut Version, weighs: &mut u64, followed: Option<Followed>) -> bool
    requires weighs { weight version.old ≡ weighs.old }
    requires followed { IfSome followed (λ followed. weight followed.next ≡ followed.weighs) }
    ensures gone { IsGoneOn version.old followed version.new result }
    ensures weighs { weight version.new ≡ weighs.new }
{
    match followed {
        Some(Followed { next, weighs: sum }) => {
            publish(version, next);
            *weighs = sum;
            true
        }
        None => false,
    }
}

/// Goes on by a commit of a CREATE, of a view or of a table, where it is lawful here; else answers false, and all stays. So
/// it does after `AllocError`.
pub(crate) fn go_on_by_create(
    alloc: Global,
    version: &mut Version,
    weighs: &mut u64,
    view: bool,
    text: &Text,
) -> Result<bool, AllocError>
    requires sound { Sound version.old }
    requires weighs { weight version.old ≡ weighs.old }
    requires few { IsCountable text.now }
    ensures followed { IfOk result (IsFollowed version.old (commit_of view text.now) version.new) }
    ensures weighs { OnOk result (weight version.new ≡ weighs.new) }
    ensures version_stays { OnErr result (version.new ≡ version.old) }
    ensures weighs_stays { OnErr result (weighs.new ≡ weighs.old) }
{
    let followed = follow_create(alloc, version, *weighs, view, text)?;
    Ok(go_on(version, weighs, followed))
}

/// Goes on by a commit of a FORGET, where it is lawful here; else answers false, and all stays. So it does after
/// `AllocError`.
pub(crate) fn go_on_by_forget(
    alloc: Global,
    version: &mut Version,
    weighs: &mut u64,
    name: &RowName,
) -> Result<bool, AllocError>
    requires sound { Sound version.old }
    requires weighs { weight version.old ≡ weighs.old }
    ensures followed { IfOk result (IsFollowed version.old (Forget name.now) version.new) }
    ensures weighs { OnOk result (weight version.new ≡ weighs.new) }
    ensures version_stays { OnErr result (version.new ≡ version.old) }
    ensures weighs_stays { OnErr result (weighs.new ≡ weighs.old) }
{
    let followed = follow_forget(alloc, version, *weighs, name)?;
    Ok(go_on(version, weighs, followed))
}
