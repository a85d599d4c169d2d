ghost use Rattle.std.specs.Prelude.{IfOk};
ghost use Rattle.std.specs.List.{AllByRecursion};
ghost use Rattle.disk_model.specs.Bounds.{IsBoundedImage, IsCountable};
ghost use Rattle.commit_replay.specs.Begins.{Begins};
ghost use Rattle.commit_replay.specs.Created.{IsMadeBy};

use crate::create::follow_create;
use crate::followed::Followed;
use crate::replayed::Replayed;
use crate::rows::with_rows;
use disk_model::Image;
use own_model::CreateText;
use sql_print::laws::canonical_text_reads_back;
use std::alloc::{AllocError, Global};
use std::mem::drop;
use store_version::{Version, publish};

/// The state that CREATEs leave one after another, by their texts, if each is admitted. No table has a row, and it weighs
/// nothing.
pub(crate) fn with_creates(
    alloc: Global,
    creates: &[CreateText],
) -> Result<Option<Replayed>, AllocError>
    requires { AllByRecursion (λ create. IsCountable create.text) creates.now }
    ensures { IfOk result (IsMadeBy creates.now) }
{
    let mut version = Version::new(alloc)?;
    let mut weighs = 0;
    for create in creates {
        let followed = follow_create(alloc, &version, weighs, create.view, &create.text)?;
        let Some(Followed { next, weighs: more }) = followed else {
            drop(version);
            return Ok(None);
        };
        publish(&mut version, next);
        weighs = more;
    }
    Ok(Some(Replayed { version, weighs }))
}

/// The state of an image, if it is lawful.
pub(crate) fn with_image(alloc: Global, image: &Image) -> Result<Option<Replayed>, AllocError>
    requires { IsBoundedImage image.now }
    ensures { Begins image.now result }
{
    // The creates of a sound database are those that its texts are read as.
    canonical_text_reads_back();
    match with_creates(alloc, image.creates.items())? {
        Some(state) => with_rows(alloc, state, image.tables.items()),
        None => Ok(None),
    }
}
