ghost use Rattle.disk_model.specs.Payload.{IsPayload};
ghost use Rattle.disk_fields.specs.Reading.{Gives, all_of, most_bytes, name_at, text_at};
ghost use Rattle.disk_fields.specs.Decoded.{Decodes};
ghost use Rattle.rec_codec.specs.Reading.{changes_of, payload_of};

use crate::rising::are_changes;
use disk_fields::{Field, Unread, no_more, read_text};
use disk_model::{Commit, Put};
use own_base::{List, RowName, Text};
use std::alloc::{AllocError, Global};

/// A text, and nothing behind it.
fn text_of(alloc: Global, bytes: &[u8]) -> Result<Text, Unread>
    ensures { Gives (λ text. text) result (all_of (text_at most_bytes bytes.now)) }
{
    let (text, rest) = read_text(alloc, u32::MAX, bytes)?;
    no_more(rest)?;
    Ok(text)
}

/// A name, and nothing behind it.
fn name_of(alloc: Global, bytes: &[u8]) -> Result<RowName, Unread>
    ensures { Gives (λ name. name) result (all_of (name_at bytes.now)) }
{
    let (name, rest) = RowName::read(alloc, bytes)?;
    no_more(rest)?;
    Ok(name)
}

/// The changes, and nothing behind them.
#[tactic(auto, unfolding(crate::specs::Reading::changes_of))]
fn changes_of(alloc: Global, bytes: &[u8]) -> Result<Commit, Unread>
    ensures { Gives (λ commit. commit) result (changes_of bytes.now) }
{
    let (puts, rest) = List::<Put>::read(alloc, bytes)?;
    no_more(rest)?;
    if are_changes(puts.items()) {
        Ok(Commit::Changes(puts))
    } else {
        Err(Unread::Malformed)
    }
}

/// The commit that the bytes are the payload of.
#[tactic(auto, unfolding(crate::specs::Reading::payload_of))]
fn commit_of(alloc: Global, payload: &[u8]) -> Result<Commit, Unread>
    ensures { Gives (λ commit. commit) result (payload_of payload.now) }
{
    match payload {
        [1, text @ ..] => Ok(Commit::CreateTable(text_of(alloc, text)?)),
        [2, text @ ..] => Ok(Commit::CreateView(text_of(alloc, text)?)),
        [3, changes @ ..] => changes_of(alloc, changes),
        [4, name @ ..] => Ok(Commit::Forget(name_of(alloc, name)?)),
        _ => Err(Unread::Malformed),
    }
}

/// The commit whose payload these bytes are, or None where they are no payload. One pass over the bytes; of a text its
/// bytes are copied once, into the commit.
pub fn decode(alloc: Global, payload: &[u8]) -> Result<Option<Commit>, AllocError>
    ensures { Decodes IsPayload payload.now result }
{
    match commit_of(alloc, payload) {
        Ok(commit) => Ok(Some(commit)),
        Err(Unread::Malformed) => Ok(None),
        Err(Unread::Memory) => Err(AllocError),
    }
}
