ghost use Rattle.std.specs.Prelude.{◌≡◌, [], IfOk};
ghost use Rattle.query_model.specs.Query.{number_in};
ghost use Rattle.view_deltas.specs.Tally.{item_tally, item_with, shown_item, side_value};

use crate::number_tally::NumberTally;
use crate::way::Way;
use own_base::{ColNo, Key, MakeCopy, Row, Value};
use own_model::BoundItem;
use row_reading::cell;
use std::alloc::{AllocError, Global};

/// What is counted for an item of a grouped view in the rows of a group.
#[derive(Debug, Drop)]
pub(crate) enum ItemTally {
    /// Nothing: it shows the group's value.
    Group,
    /// Nothing but the rows themselves.
    Count,
    /// The numbers of a column.
    Sum(ColNo, NumberTally),
}

/// The value of a group.
fn side_value(alloc: Global, side: &Option<Key>) -> Result<Value, AllocError>
    ensures { IfOk result (λ value. value ≡ side_value side.now) }
{
    match side {
        None => Ok(Value::Null),
        Some(Key::Int(number)) => Ok(Value::Int(*number)),
        Some(Key::Text(text)) => Ok(Value::Text(text.copy(alloc)?)),
    }
}

/// The number that stands in a column of a row; NULL is none. Takes no memory.
fn number_in(row: &Row, column: ColNo) -> Option<i128>
    ensures { result ≡ number_in column.0 row.now }
{
    match cell(row, column) {
        Some(Value::Int(number)) => Some(i128::from(*number)),
        Some(Value::Sum(sum)) => Some(sum.get()),
        Some(Value::Null | Value::Text(_)) | None => None,
    }
}

/// A number of rows, as COUNT shows it. `AllocError` comes only where it can't be counted.
fn shown_count(rows: &u64) -> Result<Value, AllocError>
    ensures { IfOk result (λ value. value ≡ shown_item Value.Null rows.now ItemTally.Count) }
{
    match i64::try_from(*rows) {
        Ok(number) => Ok(Value::Int(number)),
        Err(_) => Err(AllocError),
    }
}

impl ItemTally {
    /// What is counted in no rows.
    #[tactic(auto, unfolding(crate::specs::Numbers::numbers_in))]
    pub(crate) fn new(item: &BoundItem) -> ItemTally
        ensures { result ≡ item_tally [] item.now }
    {
        match item {
            BoundItem::Column(_) => ItemTally::Group,
            BoundItem::Count => ItemTally::Count,
            BoundItem::SumOf(column) => ItemTally::Sum(*column, NumberTally::new()),
        }
    }

    /// With one row more, or one less. `AllocError` comes only where it can't be counted. Takes no memory.
    pub(crate) fn with_row(&self, row: &Row, way: Way) -> Result<ItemTally, AllocError>
        ensures { IfOk result (λ after. after ≡ item_with way row.now self.now) }
    {
        match self {
            ItemTally::Group => Ok(ItemTally::Group),
            ItemTally::Count => Ok(ItemTally::Count),
            ItemTally::Sum(column, numbers) => {
                let number = number_in(row, *column);
                Ok(ItemTally::Sum(*column, numbers.with_number_of(number, way)?))
            }
        }
    }

    /// What the item shows of a group that has a value and so many rows.
    pub(crate) fn shown(
        &self,
        alloc: Global,
        side: &Option<Key>,
        rows: &u64,
    ) -> Result<Value, AllocError>
        ensures { IfOk result (λ value. value ≡ shown_item (side_value side.now) rows.now self.now) }
    {
        match self {
            ItemTally::Group => side_value(alloc, side),
            ItemTally::Count => shown_count(rows),
            ItemTally::Sum(_, numbers) => numbers.shown(alloc),
        }
    }
}
