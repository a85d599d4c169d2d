ghost use Rattle.std.specs.Prelude.{◌≡◌, IfOk, OnOk};
ghost use Rattle.std.specs.Option.{option_and_then, option_copied};
ghost use Rattle.own_model.specs.declared.schema.TableDef.{TableDef};
ghost use Rattle.view_deltas.specs.Changes.{FollowsAll, FollowsOne};
ghost use Rattle.view_deltas.specs.Plain.{KeepsPlain};
ghost use Rattle.view_deltas.specs.Shown.{shown_of};
ghost use Rattle.view_deltas.specs.TableRows.{Follows};

use crate::entries::Entries;
use crate::shown::shown_of;
use own_base::{Change, Key, MakeCopy, Row, TableNo};
use own_model::BoundSelect;
use pred_eval::RowPair;
use std::alloc::{AllocError, Global};

/// What a view of one table that isn't grouped shows of a row of it, where there is one.
fn shown_alone(
    alloc: Global,
    query: &BoundSelect,
    row: &Option<Row>,
) -> Result<Option<Row>, AllocError>
    ensures { IfOk result (λ shown. shown ≡ option_and_then (shown_of query.now) row.now) }
{
    match row {
        None => Ok(None),
        Some(row) => shown_of(alloc, query, &RowPair::new(row, None)),
    }
}

/// Puts what the view shows of the row after a change in the place of what it showed of the row before it.
fn follow(
    alloc: Global,
    entries: &mut Entries<Row>,
    query: &BoundSelect,
    change: &Change,
) -> Result<(), AllocError>
    ensures { OnOk result ((table : TableDef) → Follows (KeepsPlain table query.now) table change.now.name.key change.now.before change.now.after entries.old entries.new) }
{
    let shown = shown_alone(alloc, query, &change.after)?;
    let key = change.name.key.copy(alloc)?;
    entries.put(alloc, (Some(key), None), shown)
}

/// The same, where the change is of the view's table.
fn follow_one(
    alloc: Global,
    entries: &mut Entries<Row>,
    number: TableNo,
    query: &BoundSelect,
    change: &Change,
) -> Result<(), AllocError>
    ensures { OnOk result ((table : TableDef) → FollowsOne (KeepsPlain table query.now) number.0 table change.now entries.old entries.new) }
{
    if change.name.table.0 == number.0 {
        follow(alloc, entries, query, change)
    } else {
        Ok(())
    }
}

/// What is kept for a view of one table that isn't grouped, after changes. What was kept stays as it is.
pub(crate) fn follow_plain(
    alloc: Global,
    entries: &Entries<Row>,
    number: TableNo,
    query: &BoundSelect,
    changes: &[Change],
) -> Result<Entries<Row>, AllocError>
    ensures { IfOk result (λ after. (table : TableDef) → FollowsAll (KeepsPlain table query.now) number.0 table changes.now entries.now after) }
{
    let mut after = entries.copy(alloc)?;
    for change in changes {
        follow_one(alloc, &mut after, number, query, change)?;
    }
    Ok(after)
}
