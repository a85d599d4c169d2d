ghost use Rattle.std.specs.Prelude.{◌≡◌, IfOk, IsTrue};
ghost use Rattle.own_model.specs.Db.{IsOrdered};
ghost use Rattle.run_model.specs.Run.{show_subject};
ghost use Rattle.schema_model.specs.OwnerSchema.{IsOwnerSchema};
ghost use Rattle.schema_model.specs.WithinLimits.{IsWithinLimits};
ghost use Rattle.state_model.specs.Rows.{AreRowsOf};
ghost use Rattle.subject_model.specs.Named.{is_there};
ghost use Rattle.shelf_access.specs.Sights.{sights};

use crate::gathered::Gathered;
use crate::shown::shown_rows;
use own_base::Subject;
use own_model::{Reply, Schema};
use shelf_model::{Shelved, Shelves};
use std::alloc::{AllocError, Global};

/// The answer to a GDPR GET by a subject that is there: the rows on its shelf and those that it sees, by table, then key, each
/// as it is shown them. Nothing else of the store is looked at. The second list has copies of the rows that it sees.
pub fn collect<S: Shelves>(
    alloc: Global,
    schema: &Schema,
    shelves: &S,
    seen: &[Shelved],
    subject: &Subject,
) -> Result<Reply, AllocError>
    requires schema { schema.now ≡ (S.shelved shelves.now).schema }
    requires seen { seen.now ≡ sights (S.shelved shelves.now) subject.now.0 }
    requires there { IsTrue (is_there (S.shelved shelves.now) subject.now.0) }
    requires ordered { IsOrdered (S.shelved shelves.now) }
    requires owner { IsOwnerSchema (S.shelved shelves.now).schema }
    requires limits { IsWithinLimits (S.shelved shelves.now).schema }
    requires rows { AreRowsOf (S.shelved shelves.now).schema.tables (S.shelved shelves.now).rows }
    ensures { IfOk result (λ reply. reply ≡ (show_subject (S.shelved shelves.now) subject.now.0).reply) }
{
    let mut copies = Gathered::new();
    copies.add_shelf(alloc, shelves, subject)?;
    copies.add_all(alloc, seen)?;
    // By the clauses of `len` they rise.
    let _count = copies.len();
    let shown = shown_rows(alloc, schema, subject, &copies)?;
    Ok(Reply::Got(shown))
}
