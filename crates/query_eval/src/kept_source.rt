ghost use Rattle.std.specs.Prelude.{filter, IfOk};
ghost use Rattle.std.specs.Option.{option_copied};
ghost use Rattle.query_model.specs.Query.{base_rows};
ghost use Rattle.query_model.specs.Truth.{keeps};
ghost use Rattle.query_eval.specs.Enough.{IsEnough};
ghost use Rattle.query_eval.specs.Sources.{IsBaseOf};
ghost use Rattle.query_eval.specs.Tables.{AreTables};

use crate::kept::kept_in_table;
use crate::lent_rows::LentRows;
use crate::pairs::{Joined, kept_pairs};
use own_model::{BoundCond, Source1, StoreView};
use std::alloc::{AllocError, Global};

/// The rows of a source that WHERE keeps: of a table, or the pairs of a join, of which no more are made once more than are
/// asked for are kept; with None all are.
pub(crate) fn kept_in_source<'a, V: StoreView>(
    alloc: Global,
    view: &'a V,
    source: &Source1,
    cond: Option<&BoundCond>,
    most: Option<u64>,
) -> Result<LentRows<'a>, AllocError>
    requires source { IsBaseOf (V.db view.now).schema source.now }
    requires tables { AreTables (V.db view.now).schema (V.db view.now).rows }
    ensures { IfOk result (λ kept. IsEnough most (filter (keeps (option_copied cond.entry)) (base_rows (V.db view.now).rows source.now)) kept) }
{
    match source {
        Source1::Table(table) => {
            let kept = kept_in_table(alloc, view, *table, cond)?;
            LentRows::of_list(alloc, &kept)
        }
        Source1::Pair {
            left,
            right,
            left_column,
            right_column,
        } => {
            let tables = Joined {
                left: *left,
                right: *right,
                left_column: *left_column,
                right_column: *right_column,
            };
            kept_pairs(alloc, view, tables, cond, most)
        }
        Source1::View(_) => unreachable!(),
    }
}
