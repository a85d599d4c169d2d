ghost use Rattle.std.specs.Prelude.{◌≡◌, IfOk, OnOk};
ghost use Rattle.own_model.specs.declared.bound.Bound.TheVariants as meant;
ghost use Rattle.schema_model.specs.WithinLimits.{IsWithinLimits};
ghost use Rattle.query_model.specs.ConditionFaults.{bound_where};
ghost use Rattle.query_model.specs.Scope.{table_scope};
ghost use Rattle.query_model.specs.SelectMeaning.{table_number};
ghost use Rattle.query_model.specs.WriteFaults.{delete_faults};
ghost use Rattle.bind_scope.specs.After.{after};

use crate::target::target_scope;
use bind_scope::{Least, bind_table, bind_where, number_of};
use own_base::{Boxed, Name};
use own_model::{Bound, Cond, Schema};
use std::alloc::{AllocError, Global};

/// A DELETE. What is wrong with it is noted.
#[tactic(auto, unfolding(query_model::specs::WriteFaults::delete_faults))]
pub fn bind_delete<'a>(
    alloc: Global,
    schema: &'a Schema,
    table: &'a Name,
    cond: &'a Option<Boxed<Cond>>,
    least: &mut Least<'a>,
) -> Result<Bound, AllocError>
    requires tables { IsWithinLimits schema.now }
    ensures bound { IfOk result (λ bound. bound ≡ meant.Delete (table_number schema.now table.now) (bound_where (table_scope schema.now table.now) cond.now)) }
    ensures noted { OnOk result (least.new ≡ after least.old (delete_faults schema.now table.now cond.now)) }
{
    let found = bind_table(schema, table, least);
    let cond = bind_where(alloc, &target_scope(table, found), cond, least)?;
    Ok(Bound::Delete {
        table: number_of(found),
        cond,
    })
}
