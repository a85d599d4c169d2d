ghost use Rattle.std.specs.Prelude.{◌≡◌, ℕ, List, IfNone, IfOk, IfSome, MatchOption};
ghost use Rattle.own_model.specs.Db.{Db};
ghost use Rattle.disk_model.specs.declared.image.Image.{Image};
ghost use Rattle.disk_model.specs.Area.{IsOpened, epoch_of};
ghost use Rattle.disk_model.specs.JudgedArea.{HasEpoch, IsLawfulBegin};
ghost use Rattle.disk_model.specs.JudgedRecords.{IsMeasured};
ghost use Rattle.crash_recover.specs.AreaFound.{IsAreaDamaged, IsAreaFound, IsAreaWhole, IsEpoch};
ghost use Rattle.crash_recover.specs.Fault.{Finds};

use crate::fault::AreaFault;
use crate::judged::Judged;
use crate::parts::{number_of_eight, split_in_front};
use crate::records::records_from;
use check_image::decode;
use commit_replay::Replayed;
use disk_model::Image;
use own_base::Area;
use own_model::JOURNAL_ROOM;
use std::alloc::{AllocError, Global};

/// The epoch of an area that is opened; None where it isn't. Takes no memory.
pub(crate) fn opened_epoch(bytes: &[u8]) -> Option<u64>
    ensures opened { IfSome result (λ epoch. IsOpened bytes.now) }
    ensures epoch { IfSome result (λ epoch. epoch ≡ epoch_of bytes.now) }
    ensures none { IfNone result (¬ IsOpened bytes.now) }
{
    if bytes.len() < 18 || bytes[0] != 1 {
        return None;
    }
    let (epoch, _) = number_of_eight(&bytes[1..])?;
    Some(epoch)
}

/// The epoch of an opened area, where it may be one, and the bytes behind it. Takes no memory.
fn lawful_epoch(bytes: &[u8]) -> Option<(u64, &[u8])>
    requires { IsOpened bytes.now }
    ensures some { IfSome result (λ parts. IsEpoch bytes.now parts.0 parts.1.now) }
    ensures none { IfNone result ((rest : List ℕ) → HasEpoch bytes.now rest → ⊥) }
{
    let (epoch, rest) = number_of_eight(&bytes[1..])?;
    if epoch < 1 || epoch > JOURNAL_ROOM {
        return None;
    }
    Some((epoch, rest))
}

/// The bytes of the image behind their length, and those from the first record's gate on. Takes no memory.
fn image_of(bytes: &[u8]) -> Option<(&[u8], &[u8])>
    ensures some { IfSome result (λ parts. IsMeasured 8 parts.0.now bytes.now parts.1.now) }
    ensures none { IfNone result ((content rest : List ℕ) → IsMeasured 8 content bytes.now rest → ⊥) }
{
    let (count, behind) = number_of_eight(bytes)?;
    split_in_front(behind, count)
}

/// The image that these bytes are, and its state; None where they are no lawful image.
fn begin(alloc: Global, bytes: &[u8]) -> Result<Option<(Image, Replayed)>, AllocError>
    ensures { IfOk result (λ found. MatchOption found
        ((image : Image) (db : Db) → IsLawfulBegin bytes.now image db → ⊥)
        (λ begun. IsLawfulBegin bytes.now begun.0 begun.1)) }
{
    let Some(image) = decode(alloc, bytes)? else {
        return Ok(None);
    };
    match Replayed::of_image(alloc, &image)? {
        Some(state) => Ok(Some((image, state))),
        None => Ok(None),
    }
}

/// The store that an opened area holds.
fn store_in(alloc: Global, area: Area, bytes: &[u8]) -> Result<Judged, AreaFault>
    requires { IsOpened bytes.now }
    ensures { Finds (IsAreaWhole area bytes.now) (IsAreaDamaged area bytes.now) result }
{
    let Some((epoch, sized)) = lawful_epoch(bytes) else {
        return Err(AreaFault::Damaged(1));
    };
    let Some((content, records)) = image_of(sized) else {
        return Err(AreaFault::Damaged(9));
    };
    let Some((image, mut state)) = begin(alloc, content)? else {
        return Err(AreaFault::Damaged(17));
    };
    let gate = 17 + content.len() as u64;
    let (commits, end) = records_from(alloc, gate, records, &mut state)?;
    Ok(Judged::Whole {
        area,
        epoch,
        image,
        commits,
        end,
        state,
    })
}

/// What an opened area is judged to be by itself.
pub(crate) fn judge_area(alloc: Global, area: Area, bytes: &[u8]) -> Result<Judged, AllocError>
    requires { IsOpened bytes.now }
    ensures { IfOk result (IsAreaFound area bytes.now) }
{
    match store_in(alloc, area, bytes) {
        Ok(whole) => Ok(whole),
        Err(AreaFault::Damaged(offset)) => Ok(Judged::Damaged { area, offset }),
        Err(AreaFault::Memory) => Err(AllocError),
    }
}
