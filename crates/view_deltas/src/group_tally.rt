ghost use Rattle.std.specs.Prelude.{◌≡◌, [], IfOk, map};
ghost use Rattle.view_deltas.specs.Tally.{item_tally, item_with, rows_with, shown_tally, tally, with_row};

use crate::item_tally::ItemTally;
use crate::way::Way;
use own_base::{Key, List, Row};
use own_model::BoundItem;
use std::alloc::{AllocError, Global};
use std::marker::Model;

/// What is counted for a group of a grouped view: how many rows it has, and something for each item.
#[derive(Drop)]
pub(crate) struct GroupTally {
    rows: u64,
    items: List<ItemTally>,
}

impl Model for GroupTally {
    ghost use Rattle.view_deltas.specs.Counted.{Counted};

    ghost Value = { Counted };

    ghost view = { λ group. record { rows = group.rows; items = group.items } };
}

/// One row more, or one less, where that can be counted. Takes no memory.
fn rows_with(rows: &u64, way: Way) -> Result<u64, AllocError>
    ensures { IfOk result (λ after. after ≡ rows_with way rows.now) }
{
    match way {
        Way::In => rows.checked_add(1).ok_or(AllocError),
        Way::Out => rows.checked_sub(1).ok_or(AllocError),
    }
}

/// What is counted for items in no rows.
fn new_items(alloc: Global, items: &[BoundItem]) -> Result<List<ItemTally>, AllocError>
    ensures { IfOk result (λ made. made ≡ map (item_tally []) items.now) }
{
    let mut made = List::new(alloc);
    for item in items {
        made.add(ItemTally::new(item))?;
    }
    Ok(made)
}

/// What is counted for items with one row more, or one less.
fn items_with(
    alloc: Global,
    items: &[ItemTally],
    row: &Row,
    way: Way,
) -> Result<List<ItemTally>, AllocError>
    ensures { IfOk result (λ made. made ≡ map (item_with way row.now) items.now) }
{
    let mut made = List::new(alloc);
    for item in items {
        made.add(item.with_row(row, way)?)?;
    }
    Ok(made)
}

impl GroupTally {
    /// What is counted in no rows.
    #[tactic(auto, unfolding(crate::specs::Tally::tally))]
    pub(crate) fn new(alloc: Global, items: &[BoundItem]) -> Result<GroupTally, AllocError>
        ensures { IfOk result (λ group. group ≡ tally items.now []) }
    {
        let items = new_items(alloc, items)?;
        Ok(GroupTally { rows: 0, items })
    }

    /// How many rows the group has. Takes no memory.
    pub(crate) fn rows(&self) -> u64
        ensures { result ≡ self.now.rows }
    {
        self.rows
    }

    /// With one row more, or one less. `AllocError` comes where memory is refused, or it can't be counted.
    pub(crate) fn with_row(
        &self,
        alloc: Global,
        row: &Row,
        way: Way,
    ) -> Result<GroupTally, AllocError>
        ensures { IfOk result (λ after. after ≡ with_row way row.now self.now) }
    {
        let rows = rows_with(&self.rows, way)?;
        let items = items_with(alloc, self.items.items(), row, way)?;
        Ok(GroupTally { rows, items })
    }

    /// The row that is shown of the group, whose value this is.
    pub(crate) fn shown(&self, alloc: Global, side: &Option<Key>) -> Result<Row, AllocError>
        ensures { IfOk result (λ row. row ≡ shown_tally side.now self.now) }
    {
        let mut shown = List::new(alloc);
        for item in self.items.items() {
            shown.add(item.shown(alloc, side, &self.rows)?)?;
        }
        Ok(Row::from_values(shown))
    }
}
