ghost use Rattle.std.specs.Prelude.{◌≡◌, IfOk, OnErr, OnOk};
ghost use Rattle.own_model.specs.Db.{IsOrdered};
ghost use Rattle.state_model.specs.Sound.{Sound};
ghost use Rattle.state_model.specs.Weight.{weight};
ghost use Rattle.disk_model.specs.Payload.{AreChanges};
ghost use Rattle.commit_replay.specs.Followed.{IsFollowed};
ghost use Rattle.commit_replay.specs.Made.{AreMadeBy, IsMadeBy};
ghost use Rattle.disk_model.specs.declared.commit.Commit.TheVariants.{Changes};

use crate::lawful_put::{change_from, is_lawful_state, is_same_state};
use crate::making::make;
use disk_model::Put;
use own_base::{Change, List};
use own_model::StoreView;
use std::alloc::{AllocError, Global};
use store_version::{Shown, Version};

/// The change that a put makes, with the row that stands under its name; none where the put isn't lawful.
fn change_of(alloc: Global, version: &Version, put: &Put) -> Result<Option<Change>, AllocError>
    requires { IsOrdered version.now }
    ensures { IfOk result (IsMadeBy version.now put.now) }
{
    let Some(table) = version
        .schema()
        .tables
        .items()
        .get(put.name.table.0 as usize)
    else {
        return Ok(None);
    };
    if !is_lawful_state(table, put) {
        return Ok(None);
    }
    let shown = Shown { version };
    let before = shown.row(&put.name);
    if is_same_state(before, put.after.as_ref()) {
        return Ok(None);
    }
    let change = change_from(alloc, put, before)?;
    Ok(Some(change))
}

/// The changes that puts make; none where one of the puts isn't lawful.
fn changes_of(
    alloc: Global,
    version: &Version,
    puts: &[Put],
) -> Result<Option<List<Change>>, AllocError>
    requires { IsOrdered version.now }
    ensures { IfOk result (AreMadeBy version.now puts.now) }
{
    let mut changes = List::new(alloc);
    for put in puts {
        let Some(change) = change_of(alloc, version, put)? else {
            return Ok(None);
        };
        changes.add(change)?;
    }
    Ok(Some(changes))
}

/// Goes on by a commit of changes, where it is lawful here; else answers false, and all stays. So it does after
/// `AllocError`.
pub(crate) fn follow_changes(
    alloc: Global,
    version: &mut Version,
    weighs: &mut u64,
    puts: &[Put],
) -> Result<bool, AllocError>
    requires sound { Sound version.old }
    requires weighs { weight version.old ≡ weighs.old }
    requires changes { AreChanges puts.now }
    ensures followed { IfOk result (IsFollowed version.old (Changes puts.now) version.new) }
    ensures weighs { OnOk result (weight version.new ≡ weighs.new) }
    ensures version_stays { OnErr result (version.new ≡ version.old) }
    ensures weighs_stays { OnErr result (weighs.new ≡ weighs.old) }
{
    let Some(changes) = changes_of(alloc, version, puts)? else {
        return Ok(false);
    };
    make(alloc, version, weighs, changes.items())
}
