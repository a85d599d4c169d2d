ghost use Rattle.std.specs.Prelude.{◌≡◌, length, map};
ghost use Rattle.own_model.specs.Db.{Db};
ghost use Rattle.page_model.specs.Run.{IsRunFrom};
ghost use Rattle.shelf_model.specs.Seen.{seen};
ghost use Rattle.shelf_model.specs.Shelf.{shelf};

use crate::shelved::Shelved;
use own_base::{RowName, Subject};

/// The small database of each data subject, lent. It represents one database of the whole store, of whose rows it needs to
/// keep no more than that. None of its calls takes memory.
pub trait Shelves {
    // The database of whose rows it tells.
    ghost shelved: { Self → Db };

    /// How many rows a subject owns.
    fn shelf_count(&self, subject: &Subject) -> u64
        ensures { result ≡ length (shelf (shelved self.now) subject.now.0) };

    /// A run of the copies of those rows, each behind its subject, that begins at a place of the subject's shelf, counted from
    /// 0: at least one where there is one, and none past the end. Called again behind each run, it goes over all of them.
    fn shelf_from(&self, subject: &Subject, at: u64) -> &[(Subject, Shelved)]
        ensures { IsRunFrom (shelf (shelved self.now) subject.now.0) at (map (λ filed. filed.1) result.now) };

    /// How many rows it reaches and doesn't own.
    fn seen_count(&self, subject: &Subject) -> u64
        ensures { result ≡ length (seen (shelved self.now) subject.now.0) };

    /// A run of their names, each behind the subject, lent as those copies are.
    fn seen_from(&self, subject: &Subject, at: u64) -> &[(Subject, RowName)]
        ensures { IsRunFrom (seen (shelved self.now) subject.now.0) at (map (λ filed. filed.1) result.now) };
}
