ghost use Rattle.std.specs.Prelude.{◌≡◌, map, None, Some, IfOk, OnOk};
ghost use Rattle.std.specs.Option.{option_map_or};
ghost use Rattle.schema_model.specs.WithinLimits.{IsWithinLimits};
ghost use Rattle.query_model.specs.ConditionFaults.{column_no};
ghost use Rattle.query_model.specs.SelectFaults.{group_faults, scoped_faults, select_faults, select_scope};
ghost use Rattle.query_model.specs.SelectMeaning as spec;
ghost use Rattle.query_model.specs.WithinLimits.{AreViewsWithin, IsSelectWithin};
ghost use Rattle.bind_scope.specs.After.{after};
ghost use Rattle.bind_select.specs.On.{scoped_from};
ghost use Rattle.bind_select.specs.Rows.{rows_of};

use crate::from::{Rows, Sources, bind_from};
use crate::grouping::is_grouped;
use crate::items::bind_items;
use crate::join::bind_join;
use crate::order::bind_order;
use bind_scope::{Least, Scope, bind_column, bind_where};
use own_base::ColNo;
use own_model::{BoundSelect, ColRef, Schema, Select};
use std::alloc::{AllocError, Global};

/// The column of GROUP BY.
fn bind_group<'a>(
    scope: &Scope<'a>,
    group: &'a Option<ColRef>,
    least: &mut Least<'a>,
) -> Option<ColNo>
    ensures bound { result ≡ option_map_or (λ reference. Some (column_no scope.now reference)) group.now None }
    ensures noted { least.new ≡ after least.old (group_faults scope.now group.now) }
{
    match group {
        None => None,
        Some(reference) => Some(bind_column(scope, reference, least).number()),
    }
}

/// A select over the columns that it can name.
pub fn bind_scoped<'a>(
    alloc: Global,
    scope: &Scope<'a>,
    rows: Rows,
    select: &'a Select,
    least: &mut Least<'a>,
) -> Result<BoundSelect, AllocError>
    requires { IsSelectWithin select.now }
    ensures bound { IfOk result (λ bound. bound ≡ scoped_from rows scope.now select.now) }
    ensures noted { OnOk result (least.new ≡ after least.old (scoped_faults scope.now select.now)) }
{
    let grouped = is_grouped(select);
    let items = bind_items(alloc, scope, grouped, &select.group, &select.items, least)?;
    let source = bind_join(scope, rows, &select.join, least);
    let cond = bind_where(alloc, scope, &select.cond, least)?;
    let group = bind_group(scope, &select.group, least);
    let order = bind_order(scope, select, grouped, least);
    Ok(BoundSelect {
        source,
        items,
        cond,
        grouped,
        group,
        order,
    })
}

/// A select. What is wrong with it is noted.
#[tactic(auto, using(crate::proofs::Selects::selects), unfolding(query_model::specs::SelectFaults::select_faults))]
pub fn bind_select<'a>(
    alloc: Global,
    schema: &'a Schema,
    select: &'a Select,
    least: &mut Least<'a>,
) -> Result<BoundSelect, AllocError>
    requires tables { IsWithinLimits schema.now }
    requires views { AreViewsWithin schema.now }
    requires items { IsSelectWithin select.now }
    ensures bound { IfOk result (λ bound. bound ≡ spec.bound_select schema.now select.now) }
    ensures noted { OnOk result (least.new ≡ after least.old (select_faults schema.now select.now)) }
{
    let Sources { scope, rows } = bind_from(schema, select, least);
    bind_scoped(alloc, &scope, rows, select, least)
}
