ghost use Rattle.std.specs.Prelude.{◌≡◌, OnOk};
ghost use Rattle.std.specs.Ordering.{is_lt};
ghost use Rattle.query_model.specs.Order.{precedes};
ghost use Rattle.query_model.specs.Truth.{cell};

use own_base::ColNo;
use pred_eval::RowPair;
use std::cmp::Ordering;

/// How two rows stand to each other by a column, rising or with DESC: the lesser comes first.
pub(crate) fn row_order(
    left: &RowPair<'_>,
    right: &RowPair<'_>,
    column: ColNo,
    down: bool,
) -> Ordering
    ensures { is_lt result ≡ precedes down (cell left.now column.0) (cell right.now column.0) }
{
    if down {
        right.compare(left, column)
    } else {
        left.compare(right, column)
    }
}
