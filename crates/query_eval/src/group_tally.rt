ghost use Rattle.std.specs.Prelude.{◌≡◌, ◌∷◌, [], ◌++◌, map, IfOk};
ghost use Rattle.std.specs.List.{All};
ghost use Rattle.query_model.specs.Stored.{AreStored, IsStoredRow};
ghost use Rattle.query_eval.specs.Tally.{HasRoom, shown_tally, tally, with_row};

use crate::group_value::GroupValue;
use crate::item_tally::ItemTally;
use own_base::{List, Row};
use own_model::BoundItem;
use pred_eval::RowPair;
use std::alloc::{AllocError, Global};
use std::marker::Model;

/// What is counted for a group: something for each item of the select.
#[derive(Drop)]
pub(crate) struct GroupTally {
    items: Vec<ItemTally>,
}

impl Model for GroupTally {
    ghost use Rattle.std.specs.Prelude.{List as Seq};
    ghost use Rattle.query_eval.specs.declared.item_tally.ItemTally.{ItemTally as Seen};

    ghost Value = { Seq Seen };

    ghost view = { λ group. group.items.items };
}

impl GroupTally {
    /// No rows yet.
    pub(crate) fn new(alloc: Global, items: &[BoundItem]) -> Result<GroupTally, AllocError>
        ensures { IfOk result (λ group. group ≡ tally items.now []) }
    {
        let mut tallies = Vec::new(alloc);
        for item in items {
            tallies.push(ItemTally::new(item))?;
        }
        Ok(GroupTally { items: tallies })
    }

    /// What is counted in some rows.
    pub(crate) fn of_rows(
        alloc: Global,
        items: &[BoundItem],
        rows: &[RowPair<'_>],
    ) -> Result<GroupTally, AllocError>
        requires { AreStored rows.now }
        ensures { IfOk result (λ group. group ≡ tally items.now rows.now) }
    {
        let mut group = GroupTally::new(alloc, items)?;
        for row in rows {
            group.add(row);
        }
        Ok(group)
    }

    /// One row more. Takes no memory.
    pub(crate) fn add(&mut self, row: &RowPair<'_>)
        requires room { All (HasRoom 1) self.old }
        requires stored { IsStoredRow row.now }
        ensures { self.new ≡ map (with_row row.now) self.old }
    {
        for item in self.items.iter_mut() {
            item.add(row);
        }
    }

    /// What the select shows of a group that has this value.
    pub(crate) fn shown(&self, alloc: Global, value: &GroupValue<'_>) -> Result<Row, AllocError>
        requires { All (HasRoom 0) self.now }
        ensures { IfOk result (λ row. row ≡ map (shown_tally value.now) self.now) }
    {
        let mut shown = List::new(alloc);
        for item in self.items.iter() {
            shown.add(item.shown(alloc, value)?)?;
        }
        Ok(Row::from_values(shown))
    }
}
