ghost use Rattle.std.specs.Prelude.{◌≡◌, ◌++◌, filter, map, IfOk, OnOk};
ghost use Rattle.std.specs.Option.{option_copied};
ghost use Rattle.own_model.specs.declared.bound.Source1.TheVariants.{View};
ghost use Rattle.query_model.specs.Query.{source_rows};
ghost use Rattle.query_model.specs.Truth.{keeps};
ghost use Rattle.state_model.specs.Sound.{IsWellFormed};
ghost use Rattle.view_deltas.specs.RunRows.{run_rows};
ghost use Rattle.view_select.specs.ShowsViews.{ShowsViews};

use own_base::{Row, ViewNo};
use own_model::{BoundCond, StoreView};
use query_eval::{RowList, keep};
use std::alloc::{AllocError, Global};
use view_deltas::{Group, Place, ViewRun, Views};

/// Those of some more rows of a view that WHERE keeps, behind the rows so far.
fn keep_rows<'a>(
    kept: &mut RowList<'a>,
    entries: &'a [(Place, Row)],
    cond: Option<&BoundCond>,
) -> Result<(), AllocError>
    ensures { OnOk result (kept.new ≡ kept.old ++ filter (keeps (option_copied cond.entry)) (map (λ entry. entry.1) entries.now)) }
{
    for entry in entries {
        keep(kept, &entry.1, cond)?;
    }
    Ok(())
}

/// The same of a grouped view.
fn keep_groups<'a>(
    kept: &mut RowList<'a>,
    groups: &'a [(Place, Group)],
    cond: Option<&BoundCond>,
) -> Result<(), AllocError>
    ensures { OnOk result (kept.new ≡ kept.old ++ filter (keeps (option_copied cond.entry)) (map (λ group. group.1.1) groups.now)) }
{
    for group in groups {
        keep(kept, group.1.row(), cond)?;
    }
    Ok(())
}

/// The same of any view.
fn keep_run<'a>(
    kept: &mut RowList<'a>,
    run: ViewRun<'a>,
    cond: Option<&BoundCond>,
) -> Result<(), AllocError>
    ensures { OnOk result (kept.new ≡ kept.old ++ filter (keeps (option_copied cond.entry)) (run_rows run.entry)) }
{
    match run {
        ViewRun::Rows(entries) => keep_rows(kept, entries, cond),
        ViewRun::Groups(groups) => keep_groups(kept, groups, cond),
    }
}

/// The rows of a view that WHERE keeps, in the view's order, run by run. No row of a table is looked at.
pub(crate) fn kept_in_view<'a, V: StoreView>(
    alloc: Global,
    store: &V,
    views: &'a Views,
    number: ViewNo,
    cond: Option<&BoundCond>,
) -> Result<RowList<'a>, AllocError>
    requires well_formed { IsWellFormed (V.db store.now) }
    requires shows { ShowsViews (V.db store.now) views.now }
    ensures { IfOk result (λ kept. kept ≡ filter (keeps (option_copied cond.entry)) (source_rows (V.db store.now).schema (V.db store.now).rows (View number))) }
{
    let _ = store;
    let mut kept = RowList::new(alloc);
    let count = views.view_count(number);
    let mut at = 0;
    while at < count {
        let run = views.view_from(number, at);
        keep_run(&mut kept, run, cond)?;
        at += run.len() as u64;
    }
    Ok(kept)
}
