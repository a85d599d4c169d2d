ghost use Rattle.std.specs.Prelude.{◌≡◌, IfOk, OnOk};
ghost use Rattle.query_model.specs.Order.{ordered_by};
ghost use Rattle.query_model.specs.Query.{in_order};

use crate::lent_rows::LentRows;
use crate::row_order::row_order;
use own_base::{ColNo, List, Row};
use pred_eval::RowPair;
use std::alloc::AllocError;

/// Puts rows in the order of ORDER BY, where there is one: by the column, and with true by DESC.
pub(crate) fn put_in_order(
    rows: &mut LentRows<'_>,
    order: Option<(ColNo, bool)>,
) -> Result<(), AllocError>
    ensures { OnOk result (rows.new ≡ in_order order rows.old) }
{
    match order {
        Some((column, down)) => rows.sort(column, down),
        None => Ok(()),
    }
}

/// Rows in order by a column, rising or with DESC. Where neither of two comes first, they stay as they stood.
fn sorted_rows(rows: List<Row>, column: ColNo, down: bool) -> Result<List<Row>, AllocError>
    ensures { IfOk result (λ ordered. ordered ≡ ordered_by column.0 down rows) }
{
    let mut rows = rows.into_vec();
    rows.sort_by(|left, right| {
        row_order(
            &RowPair::new(left, None),
            &RowPair::new(right, None),
            column,
            down,
        )
    })?;
    Ok(List::from_vec(rows))
}

/// Rows in the order of ORDER BY, where there is one: by the column, and with true by DESC.
pub(crate) fn rows_in_order(
    rows: List<Row>,
    order: Option<(ColNo, bool)>,
) -> Result<List<Row>, AllocError>
    ensures { IfOk result (λ ordered. ordered ≡ in_order order rows) }
{
    match order {
        Some((column, down)) => sorted_rows(rows, column, down),
        None => Ok(rows),
    }
}
