ghost use Rattle.std.specs.Prelude.{◌≡◌, [], ◌∷◌, ◌++◌, length, map, OnOk};

use own_base::Row;
use std::alloc::{AllocError, Global};
use std::marker::Model;

/// Rows of a table that are lent, in order; contracts see the list of the rows.
#[derive(Drop)]
pub struct RowList<'a> {
    rows: Vec<&'a Row>,
}

impl<'a> Model for RowList<'a> {
    ghost use Rattle.std.specs.Prelude.{List, map};
    ghost use Rattle.own_base.specs.declared.value.Value.{Value as Seen};

    ghost Value = { List (List Seen) };

    ghost view = { λ lent. map (λ row. row.now) lent.rows.items };
}

impl<'a> RowList<'a> {
    /// No rows. It takes no memory.
    pub fn new(alloc: Global) -> RowList<'a>
        ensures { result ≡ [] }
    {
        RowList {
            rows: Vec::new(alloc),
        }
    }

    /// One row more, last.
    pub fn push(&mut self, row: &'a Row) -> Result<(), AllocError>
        ensures { OnOk result (self.new ≡ self.old ++ row.now ∷ []) }
    {
        self.rows.push(row)?;
        Ok(())
    }

    /// How many rows there are. Takes no memory.
    pub fn count(&self) -> u64
        ensures { result ≡ length self.now }
    {
        self.rows.len() as u64
    }

    /// Lends the rows, in order. Takes no memory.
    pub fn rows(&self) -> &[&'a Row]
        ensures { map (λ row. row.now) result.now ≡ self.now }
    {
        self.rows.as_slice()
    }
}
