ghost use Rattle.std.specs.Prelude.{◌≡◌, IfOk};
ghost use Rattle.view_deltas.specs.Sides.{place_of, shown_pair, turned};

use crate::place::Place;
use crate::shown::shown_of;
use own_base::{ColNo, Key, MakeCopy, Row, TableNo};
use own_model::BoundSelect;
use pred_eval::RowPair;
use std::alloc::{AllocError, Global};

/// One of the two sides of a join.
#[derive(Clone, Copy, Debug)]
pub(crate) enum Side {
    Left,
    Right,
}

/// A join as one of its tables sees it: on which side this table stands, which the other one is, and the columns that ON
/// compares.
#[derive(Clone, Copy, Debug)]
pub(crate) struct Joins {
    pub(crate) side: Side,
    pub(crate) own: TableNo,
    pub(crate) own_column: ColNo,
    pub(crate) other: TableNo,
    pub(crate) other_column: ColNo,
}

impl Joins {
    /// The same join, as its other table sees it. Takes no memory.
    pub(crate) fn turned(self) -> Joins
        ensures { result ≡ turned self }
    {
        let side = match self.side {
            Side::Left => Side::Right,
            Side::Right => Side::Left,
        };
        Joins {
            side,
            own: self.other,
            own_column: self.other_column,
            other: self.own,
            other_column: self.own_column,
        }
    }
}

/// The place of a pair, by the key of its row on one side and that of the other row.
pub(crate) fn place_of(
    alloc: Global,
    side: Side,
    own: &Key,
    other: &Key,
) -> Result<Place, AllocError>
    ensures { IfOk result (λ place. place ≡ place_of side own.now other.now) }
{
    let own = own.copy(alloc)?;
    let other = other.copy(alloc)?;
    match side {
        Side::Left => Ok((Some(own), Some(other))),
        Side::Right => Ok((Some(other), Some(own))),
    }
}

/// What the view shows of a pair, by its row on one side and the other row.
pub(crate) fn shown_pair(
    alloc: Global,
    query: &BoundSelect,
    side: Side,
    own: &Row,
    other: &Row,
) -> Result<Option<Row>, AllocError>
    ensures { IfOk result (λ shown. shown ≡ shown_pair query.now side own.now other.now) }
{
    match side {
        Side::Left => shown_of(alloc, query, &RowPair::new(own, Some(other))),
        Side::Right => shown_of(alloc, query, &RowPair::new(other, Some(own))),
    }
}
