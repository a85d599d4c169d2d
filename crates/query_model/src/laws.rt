//! Laws of the definitions in `specs/`: each function does nothing, and what it ensures holds of all rows.
ghost use Rattle.std.specs.Prelude.{ℕ, List, Bool, Some};
ghost use Rattle.own_base.specs.declared.number.ColNo.{ColNo};
ghost use Rattle.own_model.specs.declared.bound.BoundItem.{BoundItem};
ghost use Rattle.own_model.specs.Db.{Row};
ghost use Rattle.query_model.specs.GroupRows.{AreGroupRows};
ghost use Rattle.query_model.specs.InOrder.{ArePutInOrder};
ghost use Rattle.query_model.specs.Order.{ordered_by, precedes};
ghost use Rattle.query_model.specs.Query.{grouped};
ghost use Rattle.query_model.specs.Truth.{cell};

/// ORDER BY gives the same rows, in the order of the column, rising or with DESC. Rows that are equal there stand as they
/// stood.
pub fn ordered_rows_are_in_order()
    ensures { (column : ℕ) (down : Bool) (rows : List Row)
        → ArePutInOrder (λ left right. precedes down (cell left column) (cell right column)) rows (ordered_by column down rows) }
{}

/// GROUP BY shows a row for each value of the column, and these rise by that value, NULL first.
pub fn grouped_rows_rise_by_value()
    ensures { (items : List BoundItem) (column : ColNo) (rows : List Row) → AreGroupRows items column.0 rows (grouped items (Some column) rows) }
{}
