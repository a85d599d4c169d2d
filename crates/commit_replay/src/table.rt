ghost use Rattle.std.specs.Prelude.{◌≡◌, false};
ghost use Rattle.state_model.specs.Created.{OfTable};
ghost use Rattle.state_model.specs.Sound.{Sound};
ghost use Rattle.state_model.specs.Weight.{weight};
ghost use Rattle.disk_model.specs.declared.commit.Commit.TheVariants as commit;
ghost use Rattle.disk_model.specs.TextOf.{IsTextOf};
ghost use Rattle.commit_replay.specs.Leads.{Leads};

use crate::followed::Followed;
use crate::refused::refused;
use own_base::{MakeCopy, Text};
use own_model::CreateTable;
use std::alloc::{AllocError, Global};
use store_version::{Shown, Version, prepare_table};

/// What a CREATE TABLE leads to whose text this is: the version with the table more, where it is admitted. The new table
/// has no rows, so no row is looked at and the weight stays.
pub(crate) fn follow_table(
    alloc: Global,
    version: &Version,
    weighs: u64,
    create: &CreateTable,
    text: &Text,
) -> Result<Option<Followed>, AllocError>
    requires sound { Sound version.now }
    requires weighs { weight version.now ≡ weighs }
    requires text_of { IsTextOf (OfTable create.now) (record { view = false; text = text.now }) }
    ensures { Leads version.now (commit.CreateTable text.now) result }
{
    let text = text.copy(alloc)?;
    let shown = Shown { version };
    match version.catalog().admit(alloc, &shown, create) {
        Ok(admitted) => {
            let next = prepare_table(alloc, version, admitted, text)?;
            Ok(Some(Followed { next, weighs }))
        }
        Err(fault) => refused(fault.into_refusal()),
    }
}
