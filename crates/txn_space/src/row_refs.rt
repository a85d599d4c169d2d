ghost use Rattle.std.specs.Prelude.{◌≡◌, [], ◌∷◌, ◌++◌, OnOk, length, slice_get};
ghost use Rattle.std.specs.Option.{option_copied};
ghost use Rattle.own_model.specs.Stored.{IsRunFrom};

use own_base::Row;
use std::alloc::{AllocError, Global};
use std::marker::Model;
use std::slice;

/// Rows that lie in different places, lent in their order; contracts see the list of the rows.
#[derive(Drop)]
pub(crate) struct RowRefs<'a> {
    rows: Vec<&'a Row>,
}

impl<'a> Model for RowRefs<'a> {
    ghost use Rattle.std.specs.Prelude.{List, map};
    ghost use Rattle.own_model.specs.Db.{Row as Values};

    ghost Value = { List Values };

    ghost view = { λ refs. map (λ row. row.now) refs.rows.items };
}

impl<'a> RowRefs<'a> {
    /// No rows. Takes no memory.
    pub(crate) fn new(alloc: Global) -> RowRefs<'a>
        ensures { result ≡ [] }
    {
        RowRefs {
            rows: Vec::new(alloc),
        }
    }

    /// One row more, last.
    pub(crate) fn push(&mut self, row: &'a Row) -> Result<(), AllocError>
        ensures { OnOk result (self.new ≡ self.old ++ row.now ∷ []) }
    {
        self.rows.push(row)?;
        Ok(())
    }

    /// How many rows there are. Takes no memory.
    pub(crate) fn count(&self) -> u64
        ensures { result ≡ length self.now }
    {
        self.rows.len() as u64
    }

    /// The row at a place. Takes no memory.
    pub(crate) fn at(&self, place: u64) -> Option<&'a Row>
        ensures { option_copied result ≡ slice_get self.now place }
    {
        self.rows.get(place as usize).copied()
    }

    /// A run of one row, where there is one at the place. Takes no memory.
    pub(crate) fn run_from(&self, place: u64) -> &[Row]
        ensures { IsRunFrom self.now place result.now }
    {
        match self.at(place) {
            Some(row) => slice::from_ref(row),
            None => &[],
        }
    }
}
