ghost use Rattle.std.specs.Prelude.{◌≡◌, [], IfOk, length, map};
ghost use Rattle.own_model.specs.Db.{Db, IsOrdered};
ghost use Rattle.page_model.specs.Run.{IsRunFrom};
ghost use Rattle.schema_model.specs.OwnerSchema.{IsOwnerSchema};
ghost use Rattle.shelf_model.specs.Seen.{seen};
ghost use Rattle.shelf_model.specs.Shelf.{shelf};
ghost use Rattle.micro_db.specs.Before.{IsBefore};
ghost use Rattle.micro_db.specs.Kept.{StandsFor};

use crate::files::Files;
use crate::looked::looked_at;
use link_model::Linked;
use move_model::OwnerMove;
use own_base::{Change, MakeCopy, RowName, Subject};
use shelf_model::Shelved;
use std::alloc::{AllocError, Global};

/// For each data subject of a store its shelf, and the names of the rows that it sees beside that. Versions share pages.
#[derive(Drop)]
pub struct MicroDb {
    pub(crate) shelves: Files<Shelved>,
    pub(crate) seen: Files<RowName>,
}

impl MicroDb {
    /// That of a store without rows. Takes no memory.
    pub fn new() -> MicroDb
        ensures shelves { result.shelves ≡ [] }
        ensures seen { result.seen ≡ [] }
    {
        MicroDb {
            shelves: Files::new(),
            seen: Files::new(),
        }
    }

    /// How many rows a subject owns. Takes no memory.
    pub fn shelf_count(&self, subject: &Subject) -> u64
        ensures { (db : Db) → IsOrdered db → StandsFor db self.now → result ≡ length (shelf db subject.now.0) }
    {
        self.shelves.count(subject) as u64
    }

    /// A run of the copies of those rows, each behind its subject, that begins at a place of the subject's shelf, counted from
    /// 0: at least one where there is one, and none past the end. Called again behind each run, it goes over all of them.
    /// Takes no memory.
    pub fn shelf_from(&self, subject: &Subject, at: u64) -> &[(Subject, Shelved)]
        ensures { (db : Db) → IsOrdered db → StandsFor db self.now → IsRunFrom (shelf db subject.now.0) at (map (λ filed. filed.1) result.now) }
    {
        self.shelves.run_from(subject, at as usize)
    }

    /// How many rows a subject reaches and doesn't own. Takes no memory.
    pub fn seen_count(&self, subject: &Subject) -> u64
        ensures { (db : Db) → IsOrdered db → StandsFor db self.now → result ≡ length (seen db subject.now.0) }
    {
        self.seen.count(subject) as u64
    }

    /// A run of their names, each behind the subject, lent as those copies are. Takes no memory.
    pub fn seen_from(&self, subject: &Subject, at: u64) -> &[(Subject, RowName)]
        ensures { (db : Db) → IsOrdered db → StandsFor db self.now → IsRunFrom (seen db subject.now.0) at (map (λ filed. filed.1) result.now) }
    {
        self.seen.run_from(subject, at as usize)
    }

    /// What is kept after changes, given which subjects stand otherwise to which rows than before. What is shown is the state
    /// after. This stays as it is, and shares the pages in which nothing changes. Only rows are looked at that moved, that the
    /// changes touch, that are right below rows that moved, or that are right above one of these.
    pub fn with_moves<N: Linked>(
        &self,
        alloc: Global,
        after: &N,
        moves: &[OwnerMove],
        changes: &[Change],
    ) -> Result<MicroDb, AllocError>
        requires { IsOwnerSchema (N.db after.now).schema }
        // Whatever the state before was for which this stands, and from which the changes and the moves lead here.
        ensures { IfOk result (λ kept. (before : Db) → IsBefore before (N.db after.now) moves.now changes.now self.now → StandsFor (N.db after.now) kept) }
    {
        let names = looked_at(alloc, after, moves, changes)?;
        let mut kept = self.copy(alloc)?;
        kept.renew_moved(alloc, after, moves)?;
        kept.renew_rows(alloc, after, moves, names.items())?;
        Ok(kept)
    }
}

impl MakeCopy for MicroDb {
    /// The same, which shares all pages. `AllocError` comes only where the count of those that share is full.
    fn copy(&self, alloc: Global) -> Result<MicroDb, AllocError> {
        let shelves = self.shelves.copy(alloc)?;
        let seen = self.seen.copy(alloc)?;
        Ok(MicroDb { shelves, seen })
    }
}
