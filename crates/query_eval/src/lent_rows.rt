ghost use Rattle.std.specs.Prelude.{◌≡◌, [], ◌∷◌, ◌++◌, IfOk, OnOk};
ghost use Rattle.query_model.specs.Order.{ordered_by};
ghost use Rattle.query_eval.specs.Enough.{is_past};

use crate::group_value::GroupValue;
use crate::row_list::RowList;
use own_base::ColNo;
use pred_eval::RowPair;
use std::alloc::{AllocError, Global};
use std::cmp::Reverse;
use std::marker::Model;

/// Rows of a source that are lent, in order; contracts see the list of the rows.
#[derive(Drop)]
pub(crate) struct LentRows<'a> {
    rows: Vec<RowPair<'a>>,
}

impl<'a> Model for LentRows<'a> {
    ghost use Rattle.std.specs.Prelude.{List};
    ghost use Rattle.own_base.specs.declared.value.Value.{Value as Seen};

    ghost Value = { List (List Seen) };

    ghost view = { λ lent. lent.rows.items };
}

impl<'a> LentRows<'a> {
    /// No rows. It takes no memory.
    pub(crate) fn new(alloc: Global) -> LentRows<'a>
        ensures { result ≡ [] }
    {
        LentRows {
            rows: Vec::new(alloc),
        }
    }

    /// The rows of a list, each by itself.
    pub(crate) fn of_list(alloc: Global, list: &RowList<'a>) -> Result<LentRows<'a>, AllocError>
        ensures { IfOk result (λ lent. lent ≡ list.now) }
    {
        let mut lent = LentRows::new(alloc);
        for row in list.rows() {
            lent.push(RowPair::new(*row, None))?;
        }
        Ok(lent)
    }

    /// One row more, last.
    pub(crate) fn push(&mut self, row: RowPair<'a>) -> Result<(), AllocError>
        ensures { OnOk result (self.new ≡ self.old ++ row.entry ∷ []) }
    {
        self.rows.push(row)?;
        Ok(())
    }

    /// Whether there are more than are asked for; with None there never are. Takes no memory.
    pub(crate) fn is_past(&self, most: Option<u64>) -> bool
        ensures { result ≡ is_past most self.now }
    {
        match most {
            Some(most) => self.rows.len() as u64 > most,
            None => false,
        }
    }

    /// Puts the rows in order by a column, rising or with DESC. Where neither of two comes first, they stay
    /// as they stood. What stands in the column is looked up once a row.
    pub(crate) fn sort(&mut self, column: ColNo, down: bool) -> Result<(), AllocError>
        ensures { OnOk result (self.new ≡ ordered_by column.0 down self.old) }
    {
        if down {
            self.rows
                .sort_by_cached_key(|row| Reverse(GroupValue::new(row.cell(column))))
        } else {
            self.rows
                .sort_by_cached_key(|row| GroupValue::new(row.cell(column)))
        }
    }

    /// Lends the rows, in order. Takes no memory.
    pub(crate) fn rows(&self) -> &[RowPair<'a>]
        ensures { result.now ≡ self.now }
    {
        self.rows.as_slice()
    }
}
