ghost use Rattle.std.specs.Prelude.{◌≡◌, ◌≢◌, Ok, Err, IfOk, IfErr, OnOk};
ghost use Rattle.own_model.specs.declared.refusal.Refusal.TheVariants.{Memory};
ghost use Rattle.schema_model.specs.WithinLimits.{IsWithinLimits};
ghost use Rattle.query_model.specs.BoundStatement.{bound_statement, faults, meaning};
ghost use Rattle.query_model.specs.WithinLimits.{AreViewsWithin, IsStatementWithin};
ghost use Rattle.bind_scope.specs.After.{after};

use crate::delete::bind_delete;
use crate::insert::bind_insert;
use crate::subject::bind_subject;
use crate::update::bind_update;
use bind_scope::Least;
use bind_select::bind_select;
use own_model::{Bound, Refusal, Schema, Statement};
use std::alloc::{AllocError, Global};

/// What a statement means. What is wrong with it is noted.
#[tactic(auto, unfolding(query_model::specs::BoundStatement::faults, query_model::specs::BoundStatement::meaning))]
fn bind_meaning<'a>(
    alloc: Global,
    schema: &'a Schema,
    statement: &'a Statement,
    least: &mut Least<'a>,
) -> Result<Bound, AllocError>
    requires tables { IsWithinLimits schema.now }
    requires views { AreViewsWithin schema.now }
    requires statement { IsStatementWithin statement.now }
    ensures bound { IfOk result (λ bound. bound ≡ meaning schema.now statement.now) }
    ensures noted { OnOk result (least.new ≡ after least.old (faults schema.now statement.now)) }
{
    match statement {
        Statement::Select(select) => Ok(Bound::Select(bind_select(
            alloc,
            schema,
            select.get(),
            least,
        )?)),
        Statement::Insert {
            table,
            columns,
            rows,
        } => bind_insert(alloc, schema, table, columns, rows, least),
        Statement::Update { table, sets, cond } => {
            bind_update(alloc, schema, table, sets, cond, least)
        }
        Statement::Delete { table, cond } => bind_delete(alloc, schema, table, cond, least),
        Statement::GdprGet { table, key } => {
            Ok(Bound::Get(bind_subject(alloc, schema, table, key, least)?))
        }
        Statement::GdprForget { table, key } => {
            Ok(Bound::Forget(bind_subject(alloc, schema, table, key, least)?))
        }
        _ => Ok(Bound::Explain),
    }
}

/// What a statement means, or the fault that is reported.
#[tactic(auto, unfolding(query_model::specs::BoundStatement::bound_statement, query_model::specs::Refused::lowest))]
fn meaning_or_fault(
    alloc: Global,
    schema: &Schema,
    statement: &Statement,
) -> Result<Result<Bound, Refusal>, AllocError>
    requires tables { IsWithinLimits schema.now }
    requires views { AreViewsWithin schema.now }
    requires statement { IsStatementWithin statement.now }
    ensures { IfOk result (λ answer. answer ≡ bound_statement schema.now statement.now) }
{
    let mut least = Least::new();
    let bound = bind_meaning(alloc, schema, statement, &mut least)?;
    match least.refusal(alloc)? {
        Some(refusal) => Ok(Err(refusal)),
        None => Ok(Ok(bound)),
    }
}

/// What a statement means over a schema, or why it is refused. Where memory is refused, it is `Memory`.
///
/// CREATE, CHECKPOINT and what begins and ends transactions have no names to bind; they count as EXPLAIN.
pub fn bind(alloc: Global, schema: &Schema, statement: &Statement) -> Result<Bound, Refusal>
    requires tables { IsWithinLimits schema.now }
    requires views { AreViewsWithin schema.now }
    requires statement { IsStatementWithin statement.now }
    ensures ok { IfOk result (λ bound. bound_statement schema.now statement.now ≡ Ok bound) }
    ensures err { IfErr result (λ why. why ≢ Memory → bound_statement schema.now statement.now ≡ Err why) }
{
    match meaning_or_fault(alloc, schema, statement) {
        Ok(answer) => answer,
        Err(_) => Err(Refusal::Memory),
    }
}
