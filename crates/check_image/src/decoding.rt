ghost use Rattle.std.specs.Prelude.{◌≡◌, ◌≤◌, ◌+◌, length};
ghost use Rattle.own_model.specs.declared.limit.TheConstants.{TABLES, VIEWS};
ghost use Rattle.disk_model.specs.Image.{IsImage, table_count};
ghost use Rattle.disk_fields.specs.Decoded.{Decodes};
ghost use Rattle.disk_fields.specs.Reading.{Gives, all_of, items_at, list_at, row_at};
ghost use Rattle.check_image.specs.Reading.{commits_at, creates_at, fields_of, image_of};

use disk_fields::{Field, Unread, no_more, read_items, read_u32, read_u64};
use disk_model::Image;
use own_base::{List, Row};
use own_model::{CreateText, JOURNAL_ROOM, TABLES, VIEWS};
use std::alloc::{AllocError, Global};

/// Reads the number of commits.
#[tactic(auto, unfolding(crate::specs::Reading::commits_at))]
fn commits_of(bytes: &[u8]) -> Result<(u64, &[u8]), Unread>
    ensures { Gives (λ read. (read.0, read.1.now)) result (commits_at bytes.now) }
{
    let (commits, rest) = read_u64(bytes)?;
    if commits > JOURNAL_ROOM {
        return Err(Unread::Malformed);
    }
    Ok((commits, rest))
}

/// Reads the creates.
#[tactic(auto, unfolding(crate::specs::Reading::creates_at))]
fn creates_of(alloc: Global, bytes: &[u8]) -> Result<(List<CreateText>, &[u8]), Unread>
    ensures { Gives (λ read. (read.0, read.1.now)) result (creates_at bytes.now) }
{
    let (count, _) = read_u32(bytes)?;
    if count as usize > TABLES + VIEWS {
        return Err(Unread::Malformed);
    }
    List::<CreateText>::read(alloc, bytes)
}

/// How many tables the creates make.
fn table_count(creates: &[CreateText]) -> usize
    ensures { result ≡ table_count creates.now }
{
    creates.iter().filter(|create| !create.view).count()
}

/// The rows of so many tables, and nothing behind them.
fn tables_of(alloc: Global, count: u32, bytes: &[u8]) -> Result<List<List<Row>>, Unread>
    ensures { Gives (λ tables. tables) result (all_of (items_at (list_at row_at) count bytes.now)) }
{
    let (tables, rest) = read_items::<List<Row>>(alloc, count, bytes)?;
    no_more(rest)?;
    Ok(tables)
}

/// The fields behind the version.
#[tactic(auto, unfolding(crate::specs::Reading::fields_of))]
fn fields_of(alloc: Global, bytes: &[u8]) -> Result<Image, Unread>
    ensures { Gives (λ image. image) result (fields_of bytes.now) }
{
    let (commits, rest) = commits_of(bytes)?;
    let (creates, rest) = creates_of(alloc, rest)?;
    let count = table_count(creates.items());
    let tables = tables_of(alloc, count as u32, rest)?;
    Ok(Image {
        commits,
        creates,
        tables,
    })
}

/// The image that the bytes are.
#[tactic(auto, unfolding(crate::specs::Reading::image_of))]
fn image_of(alloc: Global, bytes: &[u8]) -> Result<Image, Unread>
    ensures { Gives (λ image. image) result (image_of bytes.now) }
{
    match bytes {
        [1, fields @ ..] => fields_of(alloc, fields),
        _ => Err(Unread::Malformed),
    }
}

/// The image that these bytes are, or None where they are none. One pass over the bytes; of a text its bytes are copied
/// once, into the image.
pub fn decode(alloc: Global, bytes: &[u8]) -> Result<Option<Image>, AllocError>
    ensures { Decodes IsImage bytes.now result }
{
    match image_of(alloc, bytes) {
        Ok(image) => Ok(Some(image)),
        Err(Unread::Malformed) => Ok(None),
        Err(Unread::Memory) => Err(AllocError),
    }
}
