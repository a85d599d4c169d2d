ghost use Rattle.std.specs.Prelude.{◌≡◌, map, IfOk, OnOk};
ghost use Rattle.std.specs.List.{flat_map};
ghost use Rattle.own_model.specs.declared.condition.Cond.TheVariants as cond;
ghost use Rattle.own_model.specs.declared.bound.BoundCond.TheVariants as bound;
ghost use Rattle.query_model.specs.ConditionFaults.{bound_condition, bound_operand, bound_where, condition_faults, operand_faults, operand_kind, where_faults};
ghost use Rattle.bind_scope.specs.After.{after};

use crate::kinds::kind_of;
use crate::least::Least;
use crate::reference::{bind_column, note_unlike};
use crate::scope::Scope;
use own_base::{Boxed, List, MakeCopy};
use own_model::{BoundCond, BoundOperand, Cmp, ColRef, Cond, Kind, Operand};
use std::alloc::{AllocError, Global};

/// The right side of a comparison, with its kind.
fn bind_operand<'a>(
    alloc: Global,
    scope: &Scope<'a>,
    operand: &'a Operand,
    least: &mut Least<'a>,
) -> Result<(BoundOperand, Option<Kind>), AllocError>
    ensures noted { OnOk result (least.new ≡ after least.old (operand_faults scope.now operand.now)) }
    ensures bound { IfOk result (λ side. side.0 ≡ bound_operand scope.now operand.now) }
    ensures kind { IfOk result (λ side. side.1 ≡ operand_kind scope.now operand.now) }
{
    match operand {
        Operand::Column(reference) => {
            let meant = bind_column(scope, reference, least);
            Ok((BoundOperand::Column(meant.number()), meant.kind()))
        }
        Operand::Literal(value) => Ok((BoundOperand::Literal(value.copy(alloc)?), kind_of(value))),
    }
}

/// A comparison.
#[tactic(auto, using(crate::proofs::Conditions::conditions))]
fn bind_comparison<'a>(
    alloc: Global,
    scope: &Scope<'a>,
    left: &'a ColRef,
    comparison: Cmp,
    right: &'a Operand,
    least: &mut Least<'a>,
) -> Result<BoundCond, AllocError>
    ensures noted { OnOk result (least.new ≡ after least.old (condition_faults scope.now (cond.Compare left.now comparison right.now))) }
    ensures bound { IfOk result (λ bound. bound ≡ bound_condition scope.now (cond.Compare left.now comparison right.now)) }
{
    let column = bind_column(scope, left, least);
    let (operand, kind) = bind_operand(alloc, scope, right, least)?;
    note_unlike(left, column.kind(), kind, least);
    Ok(BoundCond::Compare(column.number(), comparison, operand))
}

/// The parts of a condition, in order.
#[cycle(condition)]
#[tactic(auto, using(crate::proofs::Conditions::conditions))]
fn bind_parts<'a>(
    alloc: Global,
    scope: &Scope<'a>,
    parts: &'a [Cond],
    least: &mut Least<'a>,
) -> Result<List<BoundCond>, AllocError>
    ensures noted { OnOk result (least.new ≡ after least.old (flat_map (condition_faults scope.now) parts.now)) }
    ensures bound { IfOk result (λ bound. bound ≡ map (bound_condition scope.now) parts.now) }
{
    let mut bound = List::new(alloc);
    for part in parts {
        bound.add(bind_condition(alloc, scope, part, least)?)?;
    }
    Ok(bound)
}

/// A condition.
#[cycle(condition)]
#[tactic(auto, using(crate::proofs::Conditions::conditions))]
pub fn bind_condition<'a>(
    alloc: Global,
    scope: &Scope<'a>,
    cond: &'a Cond,
    least: &mut Least<'a>,
) -> Result<BoundCond, AllocError>
    ensures noted { OnOk result (least.new ≡ after least.old (condition_faults scope.now cond.now)) }
    ensures bound { IfOk result (λ bound. bound ≡ bound_condition scope.now cond.now) }
{
    match cond {
        Cond::Every(parts) => Ok(BoundCond::Every(bind_parts(alloc, scope, parts.items(), least)?)),
        Cond::Some1(parts) => Ok(BoundCond::Some1(bind_parts(alloc, scope, parts.items(), least)?)),
        Cond::Not(part) => {
            let inner = bind_condition(alloc, scope, part.get(), least)?;
            Ok(BoundCond::Not(Boxed::new(alloc, inner)?))
        }
        Cond::Compare(left, comparison, right) => {
            bind_comparison(alloc, scope, left, *comparison, right, least)
        }
        Cond::IsNull(column, negated) => {
            let meant = bind_column(scope, column, least);
            Ok(BoundCond::IsNull(meant.number(), *negated))
        }
    }
}

/// The condition of WHERE, where there is one.
pub fn bind_where<'a>(
    alloc: Global,
    scope: &Scope<'a>,
    cond: &'a Option<Boxed<Cond>>,
    least: &mut Least<'a>,
) -> Result<Option<BoundCond>, AllocError>
    ensures noted { OnOk result (least.new ≡ after least.old (where_faults scope.now cond.now)) }
    ensures bound { IfOk result (λ bound. bound ≡ bound_where scope.now cond.now) }
{
    match cond {
        None => Ok(None),
        Some(cond) => Ok(Some(bind_condition(alloc, scope, cond.get(), least)?)),
    }
}
