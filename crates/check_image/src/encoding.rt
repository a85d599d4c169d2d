ghost use Rattle.std.specs.Prelude.{◌≡◌, ◌++◌, IfOk, IsUtf8, OnOk};
ghost use Rattle.std.specs.List.{AllByRecursion};
ghost use Rattle.state_model.specs.Sound.{Sound};
ghost use Rattle.disk_model.specs.Bounds.{IsCountable};
ghost use Rattle.disk_model.specs.Spelling.{create_spelling, list_spelling};
ghost use Rattle.check_image.specs.Gated.{IsGatedImage};

use crate::tables::write_tables;
use disk_fields::{write_items, write_u32, write_u64};
use own_base::List;
use own_model::{CreateText, StoreView};
use std::alloc::{AllocError, Global};

/// Writes the creates at the end: four bytes for their number, and then one behind another.
fn write_creates(creates: &[CreateText], out: &mut Vec<u8>) -> Result<(), AllocError>
    requires few { IsCountable creates.now }
    requires each { AllByRecursion (λ create. IsCountable create.text) creates.now }
    ensures written { OnOk result (out.new.items ≡ out.old.items ++ list_spelling create_spelling creates.now) }
    ensures typed { OnOk result (AllByRecursion (λ create. IsUtf8 create.text) creates.now) }
{
    write_u32(creates.len() as u32, out)?;
    write_items(creates, out)
}

/// The image of the database that the view shows, and a closed gate, as a journal area is filled with it. The database is
/// one that a store may represent, the texts are those of its creates, and so many commits made it; the bytes are an image
/// exactly where these are at most `JOURNAL_ROOM`.
pub fn encode<V: StoreView>(
    alloc: Global,
    view: &V,
    creates: &[CreateText],
    commits: u64,
) -> Result<List<u8>, AllocError>
    requires sound { Sound (V.db view.now) }
    requires creates { creates.now ≡ (V.db view.now).creates }
    ensures { IfOk result (λ bytes. IsGatedImage (V.db view.now) commits bytes) }
{
    let mut out = Vec::new(alloc);
    out.push(1)?;
    write_u64(commits, &mut out)?;
    write_creates(creates, &mut out)?;
    write_tables(view, &mut out)?;
    out.push(0)?;
    Ok(List::from_vec(out))
}
