ghost use Rattle.std.specs.Prelude.{◌≡◌, length, map, IfOk};
ghost use Rattle.query_model.specs.Query.{grouped};
ghost use Rattle.query_model.specs.Stored.{AreStored};

use crate::group_tally::GroupTally;
use crate::group_value::GroupValue;
use crate::value_tallies::ValueTallies;
use own_base::{ColNo, List, Row};
use own_model::BoundItem;
use pred_eval::RowPair;
use std::alloc::{AllocError, Global};
use std::marker::Model;

/// What is counted for one group of all rows, or for each value of a column.
#[derive(Drop)]
enum Counted<'a> {
    Whole(GroupTally),
    ByValue(ValueTallies<'a>),
}

/// The groups of a grouped select, which contracts see as the rows that they show.
#[derive(Drop)]
pub(crate) struct Groups<'a> {
    counted: Counted<'a>,
}

impl<'a> Model for Groups<'a> {
    ghost use Rattle.std.specs.Prelude.{List};
    ghost use Rattle.own_base.specs.declared.value.Value.{Value as Seen};

    ghost Value = { List (List Seen) };

    ghost use Rattle.query_eval.specs.Groups.{shown_groups, AreCounted};

    ghost view = { λ groups. shown_groups groups.counted };

    ghost invariant = { λ groups. AreCounted groups.counted };
}

impl<'a> Groups<'a> {
    /// The groups of some rows.
    pub(crate) fn of_rows(
        alloc: Global,
        items: &'a [BoundItem],
        group: Option<ColNo>,
        rows: &[RowPair<'a>],
    ) -> Result<Groups<'a>, AllocError>
        requires { AreStored rows.now }
        ensures { IfOk result (λ groups. groups ≡ grouped items.now group rows.now) }
    {
        match group {
            None => {
                let group = GroupTally::of_rows(alloc, items, rows)?;
                Ok(Groups {
                    counted: Counted::Whole(group),
                })
            }
            Some(column) => {
                let tallies = ValueTallies::of_rows(alloc, items, column, rows)?;
                Ok(Groups {
                    counted: Counted::ByValue(tallies),
                })
            }
        }
    }

    /// How many rows they show. Takes no memory.
    pub(crate) fn count(&self) -> usize
        ensures { result ≡ length self.now }
    {
        match &self.counted {
            Counted::Whole(_) => 1,
            Counted::ByValue(tallies) => tallies.count(),
        }
    }

    /// The rows that they show.
    pub(crate) fn rows(&self, alloc: Global) -> Result<List<Row>, AllocError>
        ensures { IfOk result (λ rows. rows ≡ self.now) }
    {
        match &self.counted {
            Counted::Whole(group) => {
                let row = group.shown(alloc, &GroupValue::new(None))?;
                let mut rows = List::new(alloc);
                rows.add(row)?;
                Ok(rows)
            }
            Counted::ByValue(tallies) => tallies.shown(alloc),
        }
    }
}
