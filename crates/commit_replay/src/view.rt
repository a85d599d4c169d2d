ghost use Rattle.std.specs.Prelude.{◌≡◌, true, Ok};
ghost use Rattle.query_model.specs.BoundView.{bound_view};
ghost use Rattle.state_model.specs.Created.{OfView};
ghost use Rattle.state_model.specs.Sound.{Sound};
ghost use Rattle.state_model.specs.Weight.{weight};
ghost use Rattle.disk_model.specs.declared.commit.Commit.TheVariants as commit;
ghost use Rattle.disk_model.specs.TextOf.{IsTextOf};
ghost use Rattle.commit_replay.specs.Leads.{Leads};

use crate::followed::Followed;
use crate::refused::refused;
use commit_check::{Judged, judge_view};
use own_base::{MakeCopy, Text};
use own_model::{CreateView, ViewDef};
use plan_bind::bind_view;
use std::alloc::{AllocError, Global};
use std::mem::drop;
use store_version::{Shown, Version, prepare_view};

/// What a CREATE VIEW leads to that is bound as this view: the version with the view more, where that doesn't weigh too
/// much. No row but those of the view's table is looked at.
fn follow_bound(
    alloc: Global,
    version: &Version,
    weighs: u64,
    create: &CreateView,
    definition: ViewDef,
    text: Text,
) -> Result<Option<Followed>, AllocError>
    requires sound { Sound version.now }
    requires weighs { weight version.now ≡ weighs }
    requires text_of { IsTextOf (OfView create.now) (record { view = true; text = text }) }
    requires bound { bound_view version.now.schema create.now ≡ Ok definition }
    ensures { Leads version.now (commit.CreateView text) result }
{
    match judge_view(&Shown { version }, weighs, &definition) {
        Judged::Weighs(weighs) => {
            let next = prepare_view(alloc, version, definition, text)?;
            Ok(Some(Followed { next, weighs }))
        }
        Judged::Fault(why) => {
            drop(why);
            drop(definition);
            drop(text);
            Ok(None)
        }
    }
}

/// What a CREATE VIEW leads to whose text this is: the version with the view more, where it is bound and doesn't weigh too
/// much.
pub(crate) fn follow_view(
    alloc: Global,
    version: &Version,
    weighs: u64,
    create: &CreateView,
    text: &Text,
) -> Result<Option<Followed>, AllocError>
    requires sound { Sound version.now }
    requires weighs { weight version.now ≡ weighs }
    requires text_of { IsTextOf (OfView create.now) (record { view = true; text = text.now }) }
    ensures { Leads version.now (commit.CreateView text.now) result }
{
    let text = text.copy(alloc)?;
    match bind_view(alloc, version.catalog().schema(), create) {
        Ok(definition) => follow_bound(alloc, version, weighs, create, definition, text),
        Err(why) => refused(why),
    }
}
