ghost use Rattle.std.specs.Prelude.{◌≡◌, IfOk, IfSome, unwrap_or};
ghost use Rattle.std.specs.Option.{option_copied};
ghost use Rattle.pred_eval.specs.RowPair.{whole_row};
ghost use Rattle.query_model.specs.Order.{value_cmp};
ghost use Rattle.query_model.specs.Truth.{cell};

use crate::compare::compare_values;
use own_base::{ColNo, MakeCopy, Row, Value};
use std::alloc::{AllocError, Global};
use std::cmp::Ordering;
use std::marker::Model;

/// A row of a source, lent: a row of a table, or in a join the left table's row with the right one's behind it.
/// Contracts see the list of all its values.
#[derive(Drop)]
pub struct RowPair<'a> {
    left: &'a Row,
    right: Option<&'a Row>,
}

impl<'a> Model for RowPair<'a> {
    ghost use Rattle.std.specs.Prelude.{List};
    ghost use Rattle.std.specs.Option.{option_copied};
    ghost use Rattle.own_base.specs.declared.value.Value.{Value as Seen};
    ghost use Rattle.pred_eval.specs.RowPair.{whole_row};

    ghost Value = { List Seen };

    ghost view = { λ pair. whole_row pair.left.now (option_copied pair.right) };
}

impl<'a> RowPair<'a> {
    /// The row of the left table and, in a join, that of the right one behind it. Takes no memory.
    pub fn new(left: &'a Row, right: Option<&'a Row>) -> RowPair<'a>
        ensures { result ≡ whole_row left.now (option_copied right.entry) }
    {
        RowPair { left, right }
    }

    /// The row, where it is a table's and no join's. Takes no memory.
    pub fn alone(&self) -> Option<&'a Row>
        ensures { IfSome result (λ row. row.now ≡ self.now) }
    {
        match self.right {
            Some(_) => None,
            None => Some(self.left),
        }
    }

    /// What stands in a column, counted over both rows; none is NULL. Takes no memory.
    pub fn cell(&self, column: ColNo) -> Option<&'a Value>
        ensures { unwrap_or (option_copied result) Value.Null ≡ cell self.now column.0 }
    {
        let left = self.left.values();
        let column = column.0 as usize;
        if column < left.len() {
            return left.get(column);
        }
        match self.right {
            Some(right) => right.values().get(column - left.len()),
            None => None,
        }
    }

    /// A copy of what stands in a column.
    pub fn copied_cell(&self, alloc: Global, column: ColNo) -> Result<Value, AllocError>
        ensures { IfOk result (λ copy. copy ≡ cell self.now column.0) }
    {
        match self.cell(column) {
            Some(value) => value.copy(alloc),
            None => Ok(Value::Null),
        }
    }

    /// How what stands in a column of this row and of another stands to each other in an order. Takes no memory.
    pub fn compare(&self, other: &RowPair<'_>, column: ColNo) -> Ordering
        ensures { result ≡ value_cmp (cell self.now column.0) (cell other.now column.0) }
    {
        let null = Value::Null;
        let left = self.cell(column).unwrap_or(&null);
        let right = other.cell(column).unwrap_or(&null);
        compare_values(left, right)
    }
}
