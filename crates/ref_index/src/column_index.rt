ghost use Rattle.std.specs.Prelude.{◌≡◌, ◌∷◌, [], IfOk, Option, List, ℕ};
ghost use Rattle.own_base.specs.declared.value.Key.{Key as Seen};
ghost use Rattle.own_base.specs.declared.value.Value.{Value as SeenValue};
ghost use Rattle.ref_index.specs.AfterChanges.{after_changes, Fit};
ghost use Rattle.ref_index.specs.IndexOf.{IsIndexOf};

use crate::entries::follow;
use ordered_pairs::Pairs;
use own_base::{Change, ColNo, Key, MakeCopy, TableNo};
use std::alloc::{AllocError, Global};

/// The index of one column: its entries, each a value and the key of a row that holds it.
#[derive(Drop)]
pub(crate) struct ColumnIndex {
    pub(crate) table: TableNo,
    pub(crate) column: ColNo,
    pub(crate) pairs: Pairs<Key, Key>,
}

/// The entries after changes, one after another, of which some may be of other tables.
fn followed(
    alloc: Global,
    pairs: &Pairs<Key, Key>,
    table: TableNo,
    column: ColNo,
    changes: &[Change],
) -> Result<Pairs<Key, Key>, AllocError>
    ensures { IfOk result (λ after. (rows : Seen → Option (List SeenValue)) → Fit table.0 changes.now rows → IsIndexOf column.0 rows pairs.now → IsIndexOf column.0 (after_changes table.0 changes.now rows) after) }
{
    let mut after = pairs.copy(alloc)?;
    for change in changes {
        follow(alloc, &mut after, table, column, change)?;
    }
    Ok(after)
}

impl ColumnIndex {
    ghost use Rattle.ref_index.specs.Stands.{is_of};

    /// Whether it is the index of this column. Takes no memory.
    pub(crate) fn is_of(&self, table: TableNo, column: ColNo) -> bool
        ensures { result ≡ is_of table.0 column.0 self.now }
    {
        self.table == table && self.column == column
    }

    /// No entry. Takes no memory.
    pub(crate) fn new(table: TableNo, column: ColNo) -> ColumnIndex
        ensures table { result.table ≡ table }
        ensures column { result.column ≡ column }
        ensures pairs { result.pairs ≡ [] }
    {
        ColumnIndex {
            table,
            column,
            pairs: Pairs::new(),
        }
    }

    /// The index after changes, one after another. This one stays as it is.
    pub(crate) fn with_changes(
        &self,
        alloc: Global,
        changes: &[Change],
    ) -> Result<ColumnIndex, AllocError>
        ensures table { IfOk result (λ after. after.table ≡ self.now.table) }
        ensures column { IfOk result (λ after. after.column ≡ self.now.column) }
        ensures pairs { IfOk result (λ after. (rows : Seen → Option (List SeenValue)) → Fit self.now.table.0 changes.now rows → IsIndexOf self.now.column.0 rows self.now.pairs → IsIndexOf self.now.column.0 (after_changes self.now.table.0 changes.now rows) after.pairs) }
    {
        let pairs = followed(alloc, &self.pairs, self.table, self.column, changes)?;
        Ok(ColumnIndex {
            table: self.table,
            column: self.column,
            pairs,
        })
    }
}

impl MakeCopy for ColumnIndex {
    /// The same index, which shares its pages. Takes no memory; `AllocError` comes only where the count of those that share is
    /// full.
    fn copy(&self, alloc: Global) -> Result<ColumnIndex, AllocError> {
        let pairs = self.pairs.copy(alloc)?;
        Ok(ColumnIndex {
            table: self.table,
            column: self.column,
            pairs,
        })
    }
}
