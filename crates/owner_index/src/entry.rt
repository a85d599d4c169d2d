ghost use Rattle.std.specs.Prelude.{◌≡◌, IfOk, List as Seq};
ghost use Rattle.own_base.specs.declared.row_name.Subject.{Subject as Seen};
ghost use Rattle.owner_index.specs.Entry.{reach_in};

use crate::subject_list::SubjectList;
use own_base::{List, MakeCopy, RowName, Subject};
use std::alloc::{AllocError, Global};
use std::marker::Model;
use std::sync::Arc;

/// The subjects that reach a row.
#[derive(Drop)]
pub(crate) enum Reach {
    /// Just those that own it, as of most rows.
    AsOwners,
    /// Others, in a list that copies share.
    Apart(Arc<List<Subject>, Global>),
}

/// Whose a row is: the subjects that own it, and those that reach it. Contracts see the row's name and both lists.
#[derive(Drop)]
pub(crate) struct Entry {
    row: RowName,
    owning: SubjectList,
    reaching: Reach,
}

/// What it takes, in bytes; more than one subject and the texts of keys lie beside it.
const _: () = prove!(size_of::<Entry>() == 72);

impl Model for Entry {
    ghost use Rattle.owner_index.specs.Entry.{Entry as Whose, reach_in};

    ghost Value = { Whose };

    ghost view = { λ entry. record { name = entry.row; owners = entry.owning; reach = reach_in entry.owning entry.reaching } };
}

/// The subjects that reach a row, kept apart where they are others than those that own it.
fn reach_beside(
    alloc: Global,
    owners: &[Subject],
    reach: List<Subject>,
) -> Result<Reach, AllocError>
    ensures { IfOk result (λ kept. reach_in owners.now kept ≡ reach) }
{
    if owners == reach.items() {
        return Ok(Reach::AsOwners);
    }
    Ok(Reach::Apart(Arc::new(alloc, reach)?))
}

impl Reach {
    /// The same. `AllocError` comes only where the count of those that share a list is full.
    fn copy(&self) -> Result<Reach, AllocError>
        ensures { IfOk result (λ copy. (owners : Seq Seen) → reach_in owners copy ≡ reach_in owners self.now) }
    {
        match self {
            Reach::AsOwners => Ok(Reach::AsOwners),
            Reach::Apart(reach) => Ok(Reach::Apart(Arc::try_clone(reach)?)),
        }
    }
}

impl Entry {
    /// That of a row, of the subjects that own it and of those that reach it.
    pub(crate) fn new(
        alloc: Global,
        name: RowName,
        owners: List<Subject>,
        reach: List<Subject>,
    ) -> Result<Entry, AllocError>
        ensures name { IfOk result (λ entry. entry.name ≡ name) }
        ensures owners { IfOk result (λ entry. entry.owners ≡ owners) }
        ensures reach { IfOk result (λ entry. entry.reach ≡ reach) }
    {
        let reaching = reach_beside(alloc, owners.items(), reach)?;
        let owning = SubjectList::from_list(alloc, owners)?;
        Ok(Entry {
            row: name,
            owning,
            reaching,
        })
    }

    /// Lends the row's name. Takes no memory.
    pub(crate) fn name(&self) -> &RowName
        ensures { result.now ≡ self.now.name }
    {
        &self.row
    }

    /// Lends the subjects that own it. Takes no memory.
    pub(crate) fn owners(&self) -> &[Subject]
        ensures { result.now ≡ self.now.owners }
    {
        self.owning.items()
    }

    /// Lends the subjects that reach it. Takes no memory.
    pub(crate) fn reach(&self) -> &[Subject]
        ensures { result.now ≡ self.now.reach }
    {
        match &self.reaching {
            Reach::AsOwners => self.owning.items(),
            Reach::Apart(reach) => reach.items(),
        }
    }
}

impl MakeCopy for Entry {
    /// Takes no memory; `AllocError` comes only where the count of those that share a text or a list is full.
    fn copy(&self, alloc: Global) -> Result<Entry, AllocError> {
        let row = self.row.copy(alloc)?;
        let owning = self.owning.copy(alloc)?;
        let reaching = self.reaching.copy()?;
        Ok(Entry {
            row,
            owning,
            reaching,
        })
    }
}
