ghost use Rattle.std.specs.Prelude.{◌≡◌, ◌+◌, ◌<◌, ◌^◌, ◌∷◌, [], ◌++◌, List as Seq, length, map, IfOk, OnOk};
ghost use Rattle.std.specs.List.{All};
ghost use Rattle.own_model.specs.Db.{Row as Values};
ghost use Rattle.query_eval.specs.ByValue.{by_value};
ghost use Rattle.query_eval.specs.ShownEntry.{shown_entry};
ghost use Rattle.query_model.specs.Stored.{AreStored, IsStoredRow};
ghost use Rattle.query_eval.specs.Tally.{HasRoom, tally};

use crate::group_tally::GroupTally;
use crate::group_value::GroupValue;
use own_base::{ColNo, List, Row};
use own_model::BoundItem;
use pred_eval::RowPair;
use std::alloc::{AllocError, Global};
use std::collections::BTreeMap;

/// What is counted for each value of a column.
#[derive(Drop)]
pub(crate) struct ValueTallies<'a> {
    column: ColNo,
    items: &'a [BoundItem],
    groups: BTreeMap<GroupValue<'a>, GroupTally>,
}

impl<'a> ValueTallies<'a> {
    /// No rows yet. It takes no memory.
    pub(crate) fn new(alloc: Global, items: &'a [BoundItem], column: ColNo) -> ValueTallies<'a>
        ensures column { result.column ≡ column }
        ensures items { result.items.now ≡ items.now }
        ensures groups { result.groups.entries ≡ by_value (tally items.now) column.0 [] }
    {
        ValueTallies {
            column,
            items,
            groups: BTreeMap::new(alloc),
        }
    }

    /// What is counted in some rows for each value of a column.
    pub(crate) fn of_rows(
        alloc: Global,
        items: &'a [BoundItem],
        column: ColNo,
        rows: &[RowPair<'a>],
    ) -> Result<ValueTallies<'a>, AllocError>
        requires { AreStored rows.now }
        ensures { IfOk result (λ tallies. tallies.groups.entries ≡ by_value (tally items.now) column.0 rows.now) }
    {
        let mut tallies = ValueTallies::new(alloc, items, column);
        for row in rows {
            tallies.add(alloc, row)?;
        }
        Ok(tallies)
    }

    /// One row more than some: few enough that they are counted in 64 bits.
    pub(crate) fn add(&mut self, alloc: Global, row: &RowPair<'a>) -> Result<(), AllocError>
        requires few { (rows : Seq Values) × (self.old.groups.entries ≡ by_value (tally self.old.items.now) self.old.column.0 rows) × (length rows + 1 < 2 ^ 63) }
        requires stored { IsStoredRow row.now }
        ensures column { OnOk result (self.new.column ≡ self.old.column) }
        ensures items { OnOk result (self.new.items.now ≡ self.old.items.now) }
        ensures groups { OnOk result ((rows : Seq Values) → self.old.groups.entries ≡ by_value (tally self.old.items.now) self.old.column.0 rows
            → self.new.groups.entries ≡ by_value (tally self.old.items.now) self.old.column.0 (rows ++ row.now ∷ [])) }
    {
        let value = GroupValue::new(row.cell(self.column));
        if let Some(group) = self.groups.get_mut(&value) {
            group.add(row);
            return Ok(());
        }
        let mut group = GroupTally::new(alloc, self.items)?;
        group.add(row);
        self.groups.insert(value, group)?;
        Ok(())
    }

    /// How many values there are. Takes no memory.
    pub(crate) fn count(&self) -> usize
        ensures { result ≡ length self.now.groups.entries }
    {
        self.groups.len()
    }

    /// The rows that the select shows, one for each value.
    pub(crate) fn shown(&self, alloc: Global) -> Result<List<Row>, AllocError>
        requires { All (λ entry. All (HasRoom 0) entry.1) self.now.groups.entries }
        ensures { IfOk result (λ rows. rows ≡ map shown_entry self.now.groups.entries) }
    {
        let mut rows = List::new(alloc);
        for (value, group) in self.groups.iter() {
            rows.add(group.shown(alloc, value)?)?;
        }
        Ok(rows)
    }
}
