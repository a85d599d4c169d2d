ghost use Rattle.std.specs.Prelude.{◌≡◌, ◌<◌, [], IfOk, List as Seq, length};
ghost use Rattle.own_model.specs.Db.{Row as Values};
ghost use Rattle.own_model.specs.declared.schema.TableDef.{TableDef};
ghost use Rattle.view_deltas.specs.JoinFollowed.{JoinFollows};

use crate::entries::Entries;
use crate::joined_side::JoinedSide;
use crate::side::Joins;
use ordered_pairs::Pairs;
use own_base::{Change, Key, MakeCopy, Row};
use own_model::{BoundSelect, StoreView};
use std::alloc::{AllocError, Global};

/// What is kept for a join: the pairs that it shows, and of both tables the keys of their rows, by what these hold in the column
/// that ON compares.
#[derive(Drop)]
pub(crate) struct JoinedView {
    pub(crate) entries: Entries<Row>,
    pub(crate) lefts: Pairs<Key, Key>,
    pub(crate) rights: Pairs<Key, Key>,
}

impl JoinedView {
    /// That of tables without rows. Takes no memory.
    pub(crate) fn new() -> JoinedView
        ensures entries { result.entries ≡ [] }
        ensures lefts { result.lefts ≡ [] }
        ensures rights { result.rights ≡ [] }
    {
        JoinedView {
            entries: Entries::new(),
            lefts: Pairs::new(),
            rights: Pairs::new(),
        }
    }

    /// That after changes of both tables: first those of the left one over the rows of the right one before them, then those of
    /// the right one over the rows of the left one after them. This stays as it is.
    pub(crate) fn follow_all<V: StoreView, N: StoreView>(
        &self,
        alloc: Global,
        query: &BoundSelect,
        on: Joins,
        before: &V,
        after: &N,
        lefts: &[Change],
        rights: &[Change],
    ) -> Result<JoinedView, AllocError>
        requires right { on.other.0 < length (V.db before.now).schema.tables }
        requires left { on.own.0 < length (N.db after.now).schema.tables }
        ensures { IfOk result (λ joined. JoinFollows query.now on (V.db before.now) (N.db after.now) lefts.now rights.now self.now joined) }
    {
        let entries = self.entries.copy(alloc)?;
        let keys = self.lefts.copy(alloc)?;
        let side = JoinedSide { entries, keys };
        let left = side.follow_all(alloc, query, on, before, &self.rights, lefts)?;
        let JoinedSide {
            entries: pairs,
            keys: lefts_after,
        } = left;
        let partners = self.rights.copy(alloc)?;
        let start = JoinedSide {
            entries: pairs,
            keys: partners,
        };
        let there = on.turned();
        let right = start.follow_all(alloc, query, there, after, &lefts_after, rights)?;
        let JoinedSide {
            entries: shown,
            keys: rights_after,
        } = right;
        Ok(JoinedView {
            entries: shown,
            lefts: lefts_after,
            rights: rights_after,
        })
    }
}

impl MakeCopy for JoinedView {
    /// The same, which shares all pages. `AllocError` comes only where the count of those that share is full.
    fn copy(&self, alloc: Global) -> Result<JoinedView, AllocError> {
        let entries = self.entries.copy(alloc)?;
        let lefts = self.lefts.copy(alloc)?;
        let rights = self.rights.copy(alloc)?;
        Ok(JoinedView {
            entries,
            lefts,
            rights,
        })
    }
}
