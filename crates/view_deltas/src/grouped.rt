ghost use Rattle.std.specs.Prelude.{◌≡◌, [], IfOk, OnOk, Some};
ghost use Rattle.own_model.specs.declared.schema.TableDef.{TableDef};
ghost use Rattle.view_deltas.specs.Changes.{FollowsAll, FollowsOne};
ghost use Rattle.view_deltas.specs.Entries.{kept_at};
ghost use Rattle.view_deltas.specs.Groups.{counted_in, Counts, is_shown, KeepsGroups, Renews, side_of, where_shown};
ghost use Rattle.view_deltas.specs.TableRows.{Follows};
ghost use Rattle.view_deltas.specs.Tally.{tally, with_row};

use crate::entries::Entries;
use crate::group::Group;
use crate::group_tally::GroupTally;
use crate::place::Place;
use crate::way::Way;
use own_base::{Change, ColNo, Key, MakeCopy, Row, TableNo};
use own_model::BoundSelect;
use pred_eval::keeps;
use row_reading::{cell, literal_key};
use std::alloc::{AllocError, Global};

/// What is kept for a grouped view: for each group that is shown what is counted for it, and what is shown of it.
#[derive(Drop)]
pub(crate) struct GroupedView {
    pub(crate) groups: Entries<Group>,
}

/// The group of a row, by the value that it has in the column of GROUP BY; without that all rows are of one.
fn side_of(alloc: Global, group: Option<ColNo>, row: &Row) -> Result<Option<Key>, AllocError>
    ensures { IfOk result (λ side. side ≡ side_of group row.now) }
{
    match group {
        None => Ok(None),
        Some(column) => literal_key(alloc, cell(row, column)),
    }
}

/// Whether a group of so many rows is shown. Takes no memory.
fn is_shown(group: Option<ColNo>, side: &Option<Key>, rows: u64) -> bool
    ensures { result ≡ is_shown group side.now rows }
{
    match group {
        Some(_) => rows != 0,
        None => side.is_none(),
    }
}

/// A tally and what is shown of it, where its group is shown.
fn where_shown(
    alloc: Global,
    group: Option<ColNo>,
    side: &Option<Key>,
    tally: GroupTally,
) -> Result<Option<Group>, AllocError>
    ensures { IfOk result (λ kept. kept ≡ where_shown group side.now tally) }
{
    if is_shown(group, side, tally.rows()) {
        Ok(Some(Group::new(alloc, side, tally)?))
    } else {
        Ok(None)
    }
}

impl GroupedView {
    /// The tally of a group with one row more, or one less.
    fn counted(
        &self,
        alloc: Global,
        query: &BoundSelect,
        place: &Place,
        row: &Row,
        way: Way,
    ) -> Result<GroupTally, AllocError>
        ensures { IfOk result (λ after. after ≡ with_row way row.now (counted_in query.now.items (kept_at self.now.groups place.now))) }
    {
        match self.groups.get(place) {
            Some(group) => group.tally().with_row(alloc, row, way),
            None => GroupTally::new(alloc, query.items.items())?.with_row(alloc, row, way),
        }
    }

    /// Keeps a tally and what is shown of it, in place of those of its group. Where it isn't shown, nothing is kept.
    fn renew(
        &mut self,
        alloc: Global,
        group: Option<ColNo>,
        side: Option<Key>,
        tally: GroupTally,
    ) -> Result<(), AllocError>
        ensures { OnOk result (Renews group side tally self.old self.new) }
    {
        let kept = where_shown(alloc, group, &side, tally)?;
        self.groups.put(alloc, (side, None), kept)
    }

    /// Counts a row in or out, where WHERE keeps it.
    fn count(
        &mut self,
        alloc: Global,
        query: &BoundSelect,
        row: &Row,
        way: Way,
    ) -> Result<(), AllocError>
        ensures { OnOk result (Counts query.now way (Some row.now) self.old self.new) }
    {
        if !keeps(query.cond.as_ref(), row, None) {
            return Ok(());
        }
        let side = side_of(alloc, query.group, row)?;
        let place = (side.copy(alloc)?, None);
        let tally = self.counted(alloc, query, &place, row, way)?;
        self.renew(alloc, query.group, side, tally)
    }

    /// The same, where there is a row.
    fn count_state(
        &mut self,
        alloc: Global,
        query: &BoundSelect,
        row: &Option<Row>,
        way: Way,
    ) -> Result<(), AllocError>
        ensures { OnOk result (Counts query.now way row.now self.old self.new) }
    {
        match row {
            None => Ok(()),
            Some(row) => self.count(alloc, query, row, way),
        }
    }

    /// Counts the row before a change out, and the row after it in.
    fn follow(
        &mut self,
        alloc: Global,
        query: &BoundSelect,
        change: &Change,
    ) -> Result<(), AllocError>
        ensures { OnOk result ((table : TableDef) → Follows (KeepsGroups query.now) table change.now.name.key change.now.before change.now.after self.old self.new) }
    {
        self.count_state(alloc, query, &change.before, Way::Out)?;
        self.count_state(alloc, query, &change.after, Way::In)
    }

    /// The same, where the change is of the view's table.
    fn follow_one(
        &mut self,
        alloc: Global,
        number: TableNo,
        query: &BoundSelect,
        change: &Change,
    ) -> Result<(), AllocError>
        ensures { OnOk result ((table : TableDef) → FollowsOne (KeepsGroups query.now) number.0 table change.now self.old self.new) }
    {
        if change.name.table.0 == number.0 {
            self.follow(alloc, query, change)
        } else {
            Ok(())
        }
    }

    /// That of no rows. Without GROUP BY there is one group all the same.
    pub(crate) fn new(alloc: Global, query: &BoundSelect) -> Result<GroupedView, AllocError>
        ensures { IfOk result (λ groups. KeepsGroups query.now [] groups) }
    {
        let mut groups = GroupedView {
            groups: Entries::new(),
        };
        let tally = GroupTally::new(alloc, query.items.items())?;
        groups.renew(alloc, query.group, None, tally)?;
        Ok(groups)
    }

    /// That after changes. This one stays as it is.
    pub(crate) fn follow_all(
        &self,
        alloc: Global,
        number: TableNo,
        query: &BoundSelect,
        changes: &[Change],
    ) -> Result<GroupedView, AllocError>
        ensures { IfOk result (λ after. (table : TableDef) → FollowsAll (KeepsGroups query.now) number.0 table changes.now self.now after) }
    {
        let mut after = self.copy(alloc)?;
        for change in changes {
            after.follow_one(alloc, number, query, change)?;
        }
        Ok(after)
    }
}

impl MakeCopy for GroupedView {
    /// The same, which shares all pages. `AllocError` comes only where the count of those that share is full.
    fn copy(&self, alloc: Global) -> Result<GroupedView, AllocError> {
        let groups = self.groups.copy(alloc)?;
        Ok(GroupedView { groups })
    }
}
