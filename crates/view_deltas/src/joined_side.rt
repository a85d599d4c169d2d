ghost use Rattle.std.specs.Prelude.{◌≡◌, ◌<◌, IfOk, List as Seq, None, OnOk, length};
ghost use Rattle.std.specs.List.{AllByRecursion};
ghost use Rattle.std.specs.Option.{option_copied};
ghost use Rattle.own_model.specs.Db.{Row as Values};
ghost use Rattle.own_model.specs.declared.schema.TableDef.{TableDef};
ghost use Rattle.query_model.specs.Stored.{IsStoredRow};
ghost use Rattle.view_deltas.specs.Changes.{FollowsAll, FollowsOne};
ghost use Rattle.view_deltas.specs.Entries.{PutsAt};
ghost use Rattle.view_deltas.specs.Joined.{AreFoundIn, KeepsSide, named, PutsPairs};
ghost use Rattle.view_deltas.specs.Keys.{held_in, keys_under, KeepsKeys};
ghost use Rattle.view_deltas.specs.Sides.{place_of, shown_both};
ghost use Rattle.view_deltas.specs.TableRows.{Follows};

use crate::entries::Entries;
use crate::keys::{held, keys_of, move_key};
use crate::side::{Joins, place_of, shown_pair};
use ordered_pairs::Pairs;
use own_base::{Change, Key, MakeCopy, Row, RowName, TableNo};
use own_model::{BoundSelect, StoreView};
use std::alloc::{AllocError, Global};

/// What is kept for a join while the rows of one of its tables change: the pairs, and the keys of this table's rows, by what they
/// hold in the column that ON compares.
#[derive(Drop)]
pub(crate) struct JoinedSide {
    pub(crate) entries: Entries<Row>,
    pub(crate) keys: Pairs<Key, Key>,
}

/// The row of a key. Takes no memory but for the key.
fn row_of<'a, V: StoreView>(
    alloc: Global,
    view: &'a V,
    table: TableNo,
    key: &Key,
) -> Result<Option<&'a Row>, AllocError>
    requires { table.0 < length (V.db view.now).schema.tables }
    ensures { IfOk result (λ row. option_copied row ≡ named (V.db view.now) table key.now) }
{
    let key = key.copy(alloc)?;
    Ok(view.row(&RowName { table, key }))
}

/// What the view shows of a row with the row of another key, where both are there.
fn shown_with<V: StoreView>(
    alloc: Global,
    query: &BoundSelect,
    on: Joins,
    view: &V,
    own: &Option<Row>,
    other: &Key,
) -> Result<Option<Row>, AllocError>
    requires { on.other.0 < length (V.db view.now).schema.tables }
    ensures { IfOk result (λ shown. shown ≡ shown_both query.now on.side own.now (named (V.db view.now) on.other other.now)) }
{
    match own {
        None => Ok(None),
        Some(own) => match row_of(alloc, view, on.other, other)? {
            None => Ok(None),
            Some(other) => shown_pair(alloc, query, on.side, own, other),
        },
    }
}

impl Entries<Row> {
    /// Keeps what the view shows of a row with the row of another key, in place of what was shown under these keys. Where the
    /// row isn't there, nothing is kept.
    fn put_pair<V: StoreView>(
        &mut self,
        alloc: Global,
        query: &BoundSelect,
        on: Joins,
        view: &V,
        key: &Key,
        row: &Option<Row>,
        other: &Key,
    ) -> Result<(), AllocError>
        requires { on.other.0 < length (V.db view.now).schema.tables }
        ensures { OnOk result (PutsAt (place_of on.side key.now other.now) (shown_both query.now on.side row.now (named (V.db view.now) on.other other.now)) self.old self.new) }
    {
        let shown = shown_with(alloc, query, on, view, row, other)?;
        let place = place_of(alloc, on.side, key, other)?;
        self.put(alloc, place, shown)
    }

    /// The same with the rows of some other keys.
    fn put_pairs<V: StoreView>(
        &mut self,
        alloc: Global,
        query: &BoundSelect,
        on: Joins,
        view: &V,
        key: &Key,
        row: &Option<Row>,
        others: &[Key],
    ) -> Result<(), AllocError>
        requires { on.other.0 < length (V.db view.now).schema.tables }
        ensures { OnOk result (PutsPairs on.side key.now others.now (λ other. shown_both query.now on.side row.now (named (V.db view.now) on.other other)) self.old self.new) }
    {
        for other in others {
            self.put_pair(alloc, query, on, view, key, row, other)?;
        }
        Ok(())
    }

    /// The same with the rows that hold a value, where there is one.
    fn put_meeting<V: StoreView>(
        &mut self,
        alloc: Global,
        query: &BoundSelect,
        on: Joins,
        view: &V,
        partners: &Pairs<Key, Key>,
        key: &Key,
        row: &Option<Row>,
        value: &Option<Key>,
    ) -> Result<(), AllocError>
        requires { on.other.0 < length (V.db view.now).schema.tables }
        ensures { OnOk result (PutsPairs on.side key.now (keys_under partners.now value.now) (λ other. shown_both query.now on.side row.now (named (V.db view.now) on.other other)) self.old self.new) }
    {
        match value {
            None => self.put_pairs(alloc, query, on, view, key, row, &[]),
            Some(value) => {
                let others = keys_of(alloc, partners, value)?;
                self.put_pairs(alloc, query, on, view, key, row, others.items())
            }
        }
    }
}

impl JoinedSide {
    /// Takes away the pairs of the row before a change, and puts those of the row after it.
    fn follow<V: StoreView>(
        &mut self,
        alloc: Global,
        query: &BoundSelect,
        on: Joins,
        view: &V,
        partners: &Pairs<Key, Key>,
        change: &Change,
    ) -> Result<(), AllocError>
        requires { on.other.0 < length (V.db view.now).schema.tables }
        ensures { OnOk result ((own other : TableDef) (others : Seq Values) → AllByRecursion IsStoredRow others → KeepsKeys other on.other_column.0 others partners.now → AreFoundIn (V.db view.now) on.other other others
            → Follows (KeepsSide own other query.now on others) own change.now.name.key change.now.before change.now.after self.old self.new) }
    {
        let key = &change.name.key;
        let held_before = held(alloc, &change.before, on.own_column)?;
        let held_after = held(alloc, &change.after, on.own_column)?;
        let entries = &mut self.entries;
        let after = &change.after;
        entries.put_meeting(alloc, query, on, view, partners, key, &None, &held_before)?;
        entries.put_meeting(alloc, query, on, view, partners, key, after, &held_after)?;
        move_key(alloc, &mut self.keys, on.own_column, change)
    }

    /// The same, where the change is of the table.
    fn follow_one<V: StoreView>(
        &mut self,
        alloc: Global,
        query: &BoundSelect,
        on: Joins,
        view: &V,
        partners: &Pairs<Key, Key>,
        change: &Change,
    ) -> Result<(), AllocError>
        requires { on.other.0 < length (V.db view.now).schema.tables }
        ensures { OnOk result ((own other : TableDef) (others : Seq Values) → AllByRecursion IsStoredRow others → KeepsKeys other on.other_column.0 others partners.now → AreFoundIn (V.db view.now) on.other other others
            → FollowsOne (KeepsSide own other query.now on others) on.own.0 own change.now self.old self.new) }
    {
        if change.name.table.0 == on.own.0 {
            self.follow(alloc, query, on, view, partners, change)
        } else {
            Ok(())
        }
    }

    /// What is kept after changes of one table, over the rows of the other. This stays as it is.
    pub(crate) fn follow_all<V: StoreView>(
        &self,
        alloc: Global,
        query: &BoundSelect,
        on: Joins,
        view: &V,
        partners: &Pairs<Key, Key>,
        changes: &[Change],
    ) -> Result<JoinedSide, AllocError>
        requires { on.other.0 < length (V.db view.now).schema.tables }
        ensures { IfOk result (λ after. (own other : TableDef) (others : Seq Values) → AllByRecursion IsStoredRow others → KeepsKeys other on.other_column.0 others partners.now → AreFoundIn (V.db view.now) on.other other others
            → FollowsAll (KeepsSide own other query.now on others) on.own.0 own changes.now self.now after) }
    {
        let mut after = self.copy(alloc)?;
        for change in changes {
            after.follow_one(alloc, query, on, view, partners, change)?;
        }
        Ok(after)
    }
}

impl MakeCopy for JoinedSide {
    /// The same, which shares all pages. `AllocError` comes only where the count of those that share is full.
    fn copy(&self, alloc: Global) -> Result<JoinedSide, AllocError> {
        let entries = self.entries.copy(alloc)?;
        let keys = self.keys.copy(alloc)?;
        Ok(JoinedSide { entries, keys })
    }
}
