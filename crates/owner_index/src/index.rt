ghost use Rattle.std.specs.Prelude.{◌≡◌, [], IfOk, IfSome, OnOk};
ghost use Rattle.std.specs.Option.{option_map_or};
ghost use Rattle.owner_index.specs.Held.{SetsAt, owners_of, reach_of};

use crate::entry::Entry;
use crate::name_key::{EntryChange, NameKey};
use own_base::{List, MakeCopy, RowName, Subject};
use page_tree::Pages;
use std::alloc::{AllocError, Global};
use std::marker::Model;

/// For each row of a store the subjects that own it, and those that reach it. Versions share their pages.
#[derive(Drop)]
pub struct OwnerIndex {
    entries: Pages<Entry, NameKey>,
}

impl Model for OwnerIndex {
    ghost use Rattle.std.specs.Prelude.{List};
    ghost use Rattle.page_model.specs.Page.{joined};
    ghost use Rattle.owner_index.specs.Entry.{Entry as Seen};

    ghost Value = { List Seen };

    ghost view = { λ index. joined index.entries.pages };
}

impl OwnerIndex {
    /// That of a store without rows. Takes no memory.
    pub fn new() -> OwnerIndex
        ensures { result ≡ [] }
    {
        OwnerIndex {
            entries: Pages::new(NameKey),
        }
    }

    /// The subjects that own a row, by table, then by key; none where there is no row of the name. Takes no memory.
    pub fn owners(&self, name: &RowName) -> &[Subject]
        ensures { result.now ≡ owners_of self.now name.now }
    {
        match self.entries.get(name) {
            Some(entry) => entry.owners(),
            None => &[],
        }
    }

    /// The subjects that reach it, in the same order. Takes no memory.
    pub fn reach(&self, name: &RowName) -> &[Subject]
        ensures { result.now ≡ reach_of self.now name.now }
    {
        match self.entries.get(name) {
            Some(entry) => entry.reach(),
            None => &[],
        }
    }

    /// Holds these subjects for a row. Where there are none the row needs no entry.
    pub(crate) fn set(
        &mut self,
        alloc: Global,
        name: RowName,
        owners: List<Subject>,
        reach: List<Subject>,
    ) -> Result<(), AllocError>
        ensures { OnOk result (SetsAt name owners reach self.old self.new) }
    {
        let key = name.copy(alloc)?;
        let entry = entry_of(alloc, name, owners, reach)?;
        self.entries
            .change(alloc, &EntryChange { name: key, entry })
    }
}

impl MakeCopy for OwnerIndex {
    /// The same, which shares all pages. `AllocError` comes only where the count of those that share is full.
    fn copy(&self, alloc: Global) -> Result<OwnerIndex, AllocError> {
        let entries = self.entries.copy(alloc)?;
        Ok(OwnerIndex { entries })
    }
}

/// An entry with these subjects; none where there are none.
fn entry_of(
    alloc: Global,
    name: RowName,
    owners: List<Subject>,
    reach: List<Subject>,
) -> Result<Option<Entry>, AllocError>
    ensures name { IfOk result (λ entry. IfSome entry (λ it. it.name ≡ name)) }
    ensures owners { IfOk result (λ entry. option_map_or (λ it. it.owners) entry [] ≡ owners) }
    ensures reach { IfOk result (λ entry. option_map_or (λ it. it.reach) entry [] ≡ reach) }
{
    if owners.items().is_empty() && reach.items().is_empty() {
        return Ok(None);
    }
    Ok(Some(Entry::new(alloc, name, owners, reach)?))
}
