ghost use Rattle.std.specs.Prelude.{◌≡◌, [], IfOk};
ghost use Rattle.query_model.specs.Stored.{IsStoredRow};
ghost use Rattle.query_eval.specs.Tally.{HasRoom, item_tally, shown_tally, with_row};

use crate::group_value::GroupValue;
use crate::number_tally::NumberTally;
use own_base::{ColNo, Value};
use own_model::BoundItem;
use pred_eval::RowPair;
use std::alloc::{AllocError, Global};

/// What is counted for an item of a grouped select.
#[derive(Drop)]
pub(crate) enum ItemTally {
    /// The group's value.
    Group,
    /// How many rows.
    Count(u64),
    /// The numbers of a column.
    Sum(ColNo, NumberTally),
}

impl ItemTally {
    /// No rows yet.
    pub(crate) fn new(item: &BoundItem) -> ItemTally
        ensures { result ≡ item_tally [] item.now }
    {
        match item {
            BoundItem::Column(_) => ItemTally::Group,
            BoundItem::Count => ItemTally::Count(0),
            BoundItem::SumOf(column) => ItemTally::Sum(*column, NumberTally::new()),
        }
    }

    /// One row more. Takes no memory.
    pub(crate) fn add(&mut self, row: &RowPair<'_>)
        requires room { HasRoom 1 self.old }
        requires stored { IsStoredRow row.now }
        ensures { self.new ≡ with_row row.now self.old }
    {
        match self {
            ItemTally::Group => {}
            ItemTally::Count(rows) => *rows += 1,
            ItemTally::Sum(column, numbers) => {
                if let Some(Value::Int(number)) = row.cell(*column) {
                    numbers.add(number);
                }
            }
        }
    }

    /// What the item shows of a group that has this value.
    pub(crate) fn shown(&self, alloc: Global, value: &GroupValue<'_>) -> Result<Value, AllocError>
        requires { HasRoom 0 self.now }
        ensures { IfOk result (λ shown. shown ≡ shown_tally value.now self.now) }
    {
        match self {
            ItemTally::Group => value.copied(alloc),
            ItemTally::Count(rows) => Ok(Value::Int(*rows as i64)),
            ItemTally::Sum(_, numbers) => numbers.shown(alloc),
        }
    }
}
