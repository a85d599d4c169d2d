ghost use Rattle.std.specs.Prelude.{◌≡◌, ◌<◌, IfOk, length, map};
ghost use Rattle.page_model.specs.Rising.{IsRising};
ghost use Rattle.page_model.specs.Run.{IsRunFrom};
ghost use Rattle.view_deltas.specs.Kept.{entries_of, from_left, IsKept, IsKeptAfter};
ghost use Rattle.view_deltas.specs.Place.{place_cmp};
ghost use Rattle.view_deltas.specs.RunRows.{run_rows};
ghost use Rattle.view_deltas.specs.ViewOf.{HoldNoSums, IsSourceOf};

use crate::entries::Entries;
use crate::grouped::GroupedView;
use crate::inserted::inserts;
use crate::joined::JoinedView;
use crate::plain::follow_plain;
use crate::side::{Joins, Side};
use crate::view_run::ViewRun;
use own_base::{Change, ColNo, MakeCopy, Row, TableNo};
use own_model::{BoundSelect, Source1, StoreView};
use std::alloc::{AllocError, Global};

/// What is kept for a view.
#[derive(Drop)]
pub(crate) enum KeptView {
    /// Of one table, not grouped.
    Plain(Entries<Row>),
    /// Of one table, grouped.
    Grouped(GroupedView),
    /// Of two tables.
    Joined(JoinedView),
}

/// A join as its left table sees it. Takes no memory.
fn from_left(left: TableNo, right: TableNo, left_column: ColNo, right_column: ColNo) -> Joins
    ensures { result ≡ from_left left right left_column right_column }
{
    Joins {
        side: Side::Left,
        own: left,
        own_column: left_column,
        other: right,
        other_column: right_column,
    }
}

impl KeptView {
    /// How many rows the view shows. Takes no memory.
    pub(crate) fn len(&self) -> usize
        ensures count { result ≡ length (entries_of self.now) }
        ensures rising { IsRising (λ entry. entry.0) place_cmp (entries_of self.now) }
    {
        match self {
            KeptView::Plain(entries) => entries.len(),
            KeptView::Grouped(groups) => groups.groups.len(),
            KeptView::Joined(joined) => joined.entries.len(),
        }
    }

    /// Lends a run of them from the one of a number on, counted from 0: something where there is something, and nothing past
    /// the end. Takes no memory.
    pub(crate) fn run_from(&self, at: usize) -> ViewRun<'_>
        ensures run { IsRunFrom (map (λ entry. entry.1) (entries_of self.now)) at (run_rows result) }
        ensures rising { IsRising (λ entry. entry.0) place_cmp (entries_of self.now) }
    {
        match self {
            KeptView::Plain(entries) => ViewRun::Rows(entries.run_from(at)),
            KeptView::Grouped(groups) => ViewRun::Groups(groups.groups.run_from(at)),
            KeptView::Joined(joined) => ViewRun::Rows(joined.entries.run_from(at)),
        }
    }

    /// What is kept for a view of one table.
    fn of_table<V: StoreView>(
        alloc: Global,
        view: &V,
        query: &BoundSelect,
        table: TableNo,
    ) -> Result<KeptView, AllocError>
        requires { table.0 < length (V.db view.now).schema.tables }
        ensures { IfOk result (λ kept. HoldNoSums (V.db view.now).rows → IsKept (V.db view.now) query.now (Source1.Table table) kept) }
    {
        let changes = inserts(alloc, view, table)?;
        if query.grouped {
            let none = GroupedView::new(alloc, query)?;
            let groups = none.follow_all(alloc, table, query, changes.items())?;
            return Ok(KeptView::Grouped(groups));
        }
        let none = Entries::new();
        let entries = follow_plain(alloc, &none, table, query, changes.items())?;
        Ok(KeptView::Plain(entries))
    }

    /// What is kept for a join.
    fn of_pair<V: StoreView>(
        alloc: Global,
        view: &V,
        query: &BoundSelect,
        on: Joins,
    ) -> Result<JoinedView, AllocError>
        requires left { on.own.0 < length (V.db view.now).schema.tables }
        requires right { on.other.0 < length (V.db view.now).schema.tables }
        requires side { on.side ≡ Side.Left }
        ensures { IfOk result (λ joined. HoldNoSums (V.db view.now).rows → IsKept (V.db view.now) query.now (Source1.Pair on.own on.other on.own_column on.other_column) (KeptView.Joined joined)) }
    {
        let lefts = inserts(alloc, view, on.own)?;
        let rights = inserts(alloc, view, on.other)?;
        let none = JoinedView::new();
        none.follow_all(alloc, query, on, view, view, lefts.items(), rights.items())
    }

    /// What is kept for a view.
    pub(crate) fn of_view<V: StoreView>(
        alloc: Global,
        view: &V,
        query: &BoundSelect,
    ) -> Result<KeptView, AllocError>
        requires { IsSourceOf (V.db view.now).schema query.now.grouped query.now.source }
        ensures { IfOk result (λ kept. HoldNoSums (V.db view.now).rows → IsKept (V.db view.now) query.now query.now.source kept) }
    {
        match &query.source {
            Source1::Table(table) => KeptView::of_table(alloc, view, query, *table),
            Source1::Pair {
                left,
                right,
                left_column,
                right_column,
            } => {
                let on = from_left(*left, *right, *left_column, *right_column);
                Ok(KeptView::Joined(KeptView::of_pair(alloc, view, query, on)?))
            }
            Source1::View(_) => unreachable!(),
        }
    }

    /// What is kept for a view after changes. This stays as it is.
    pub(crate) fn with_changes<V: StoreView, N: StoreView>(
        &self,
        alloc: Global,
        query: &BoundSelect,
        before: &V,
        after: &N,
        changes: &[Change],
    ) -> Result<KeptView, AllocError>
        requires source { IsSourceOf (V.db before.now).schema query.now.grouped query.now.source }
        requires same { (N.db after.now).schema ≡ (V.db before.now).schema }
        ensures { IfOk result (λ kept. IsKeptAfter (V.db before.now) (N.db after.now) changes.now query.now self.now kept) }
    {
        match self {
            KeptView::Plain(entries) => plain_after(alloc, entries, query, before, after, changes),
            KeptView::Grouped(groups) => grouped_after(
                alloc, groups, query, before, after, changes,
            ),
            KeptView::Joined(joined) => joined_after(alloc, joined, query, before, after, changes),
        }
    }
}

/// What is kept for a view of one table that isn't grouped, after changes.
fn plain_after<V: StoreView, N: StoreView>(
    alloc: Global,
    entries: &Entries<Row>,
    query: &BoundSelect,
    before: &V,
    after: &N,
    changes: &[Change],
) -> Result<KeptView, AllocError>
    requires source { IsSourceOf (V.db before.now).schema query.now.grouped query.now.source }
    requires same { (N.db after.now).schema ≡ (V.db before.now).schema }
    ensures { IfOk result (λ kept. IsKeptAfter (V.db before.now) (N.db after.now) changes.now query.now (KeptView.Plain entries.now) kept) }
{
    match &query.source {
        Source1::Table(table) => {
            let followed = follow_plain(alloc, entries, *table, query, changes)?;
            Ok(KeptView::Plain(followed))
        }
        Source1::Pair { .. } => Ok(KeptView::Plain(entries.copy(alloc)?)),
        Source1::View(_) => unreachable!(),
    }
}

/// What is kept for a grouped view after changes.
fn grouped_after<V: StoreView, N: StoreView>(
    alloc: Global,
    groups: &GroupedView,
    query: &BoundSelect,
    before: &V,
    after: &N,
    changes: &[Change],
) -> Result<KeptView, AllocError>
    requires source { IsSourceOf (V.db before.now).schema query.now.grouped query.now.source }
    requires same { (N.db after.now).schema ≡ (V.db before.now).schema }
    ensures { IfOk result (λ kept. IsKeptAfter (V.db before.now) (N.db after.now) changes.now query.now (KeptView.Grouped groups.now) kept) }
{
    match &query.source {
        Source1::Table(table) => {
            let followed = groups.follow_all(alloc, *table, query, changes)?;
            Ok(KeptView::Grouped(followed))
        }
        Source1::Pair { .. } => Ok(KeptView::Grouped(groups.copy(alloc)?)),
        Source1::View(_) => unreachable!(),
    }
}

/// What is kept for a join after changes.
fn joined_after<V: StoreView, N: StoreView>(
    alloc: Global,
    joined: &JoinedView,
    query: &BoundSelect,
    before: &V,
    after: &N,
    changes: &[Change],
) -> Result<KeptView, AllocError>
    requires source { IsSourceOf (V.db before.now).schema query.now.grouped query.now.source }
    requires same { (N.db after.now).schema ≡ (V.db before.now).schema }
    ensures { IfOk result (λ kept. IsKeptAfter (V.db before.now) (N.db after.now) changes.now query.now (KeptView.Joined joined.now) kept) }
{
    match &query.source {
        Source1::Pair {
            left,
            right,
            left_column,
            right_column,
        } => {
            let on = from_left(*left, *right, *left_column, *right_column);
            let followed = joined.follow_all(alloc, query, on, before, after, changes, changes)?;
            Ok(KeptView::Joined(followed))
        }
        Source1::Table(_) => Ok(KeptView::Joined(joined.copy(alloc)?)),
        Source1::View(_) => unreachable!(),
    }
}

impl MakeCopy for KeptView {
    /// The same, which shares all pages. `AllocError` comes only where the count of those that share is full.
    fn copy(&self, alloc: Global) -> Result<KeptView, AllocError> {
        match self {
            KeptView::Plain(entries) => Ok(KeptView::Plain(entries.copy(alloc)?)),
            KeptView::Grouped(groups) => Ok(KeptView::Grouped(groups.copy(alloc)?)),
            KeptView::Joined(joined) => Ok(KeptView::Joined(joined.copy(alloc)?)),
        }
    }
}
