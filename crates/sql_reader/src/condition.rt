ghost use Rattle.std.specs.Prelude.{◌≡◌};
ghost use Rattle.own_model.specs.declared.limit.TheConstants.{NESTING_LEVELS};
ghost use Rattle.grammar_model.specs.Parts.{list_of};
ghost use Rattle.grammar_model.specs.Limits.{store_limits};
ghost use Rattle.sql_reader.specs.reading.Reader.{Does};
ghost use Rattle.sql_reader.specs.reading.Condition as rules;

use crate::cursor::Cursor;
use crate::fault::RuleFault;
use crate::list::list_of_one;
use crate::rule::{col, literal};
use own_base::{Boxed, List};
use own_model::{Cmp, ColRef, Cond, LimitName, NESTING_LEVELS, Operand};
use std::alloc::Global;

/// The sign of a comparison.
#[tactic(auto, unfolding(crate::specs::reading::Condition::comparison_sign))]
pub fn comparison_sign(cursor: &mut Cursor) -> Result<Cmp, RuleFault>
    ensures { Does rules.comparison_sign cursor.old result cursor.new }
{
    if cursor.next_is_mark(b"=") {
        cursor.mark(b"=")?;
        return Ok(Cmp::Eq);
    }
    if cursor.next_is_mark(b"<>") {
        cursor.mark(b"<>")?;
        return Ok(Cmp::Ne);
    }
    if cursor.next_is_mark(b"!=") {
        cursor.mark(b"!=")?;
        return Ok(Cmp::Ne);
    }
    if cursor.next_is_mark(b"<") {
        cursor.mark(b"<")?;
        return Ok(Cmp::Lt);
    }
    if cursor.next_is_mark(b"<=") {
        cursor.mark(b"<=")?;
        return Ok(Cmp::Le);
    }
    if cursor.next_is_mark(b">") {
        cursor.mark(b">")?;
        return Ok(Cmp::Gt);
    }
    cursor.mark(b">=")?;
    Ok(Cmp::Ge)
}

/// The right side of a comparison.
#[tactic(auto, unfolding(crate::specs::reading::Condition::operand_rule))]
pub fn operand(cursor: &mut Cursor, alloc: Global) -> Result<Operand, RuleFault>
    ensures { Does (rules.operand_rule store_limits) cursor.old result cursor.new }
{
    if cursor.next_is_name() {
        let column = col(cursor, alloc)?;
        return Ok(Operand::Column(column));
    }
    let value = literal(cursor, alloc)?;
    Ok(Operand::Literal(value))
}

/// The comparison that begins with this column.
#[tactic(auto, unfolding(crate::specs::reading::Condition::compared))]
pub fn compared(cursor: &mut Cursor, alloc: Global, column: ColRef) -> Result<Cond, RuleFault>
    ensures { Does (rules.compared store_limits column) cursor.old result cursor.new }
{
    if cursor.next_is_word(b"IS") {
        cursor.word(b"IS")?;
        let negated = cursor.next_is_word(b"NOT");
        if negated {
            cursor.word(b"NOT")?;
        }
        cursor.word(b"NULL")?;
        return Ok(Cond::IsNull(column, negated));
    }
    let sign = comparison_sign(cursor)?;
    let right = operand(cursor, alloc)?;
    Ok(Cond::Compare(column, sign, right))
}

/// A comparison.
#[tactic(auto, unfolding(crate::specs::reading::Condition::comparison))]
pub fn comparison(cursor: &mut Cursor, alloc: Global) -> Result<Cond, RuleFault>
    ensures { Does (rules.comparison store_limits) cursor.old result cursor.new }
{
    let column = col(cursor, alloc)?;
    compared(cursor, alloc, column)
}

/// AND of the parts, where they are several.
fn every(parts: List<Cond>) -> Cond
    ensures { result ≡ list_of Cond.Every parts }
{
    let mut parts = parts.into_vec();
    if parts.len() == 1 {
        if let Some(part) = parts.pop() {
            return part;
        }
    }
    Cond::Every(List::from_vec(parts))
}

/// OR of the parts, where they are several.
fn some(parts: List<Cond>) -> Cond
    ensures { result ≡ list_of Cond.Some1 parts }
{
    let mut parts = parts.into_vec();
    if parts.len() == 1 {
        if let Some(part) = parts.pop() {
            return part;
        }
    }
    Cond::Some1(List::from_vec(parts))
}

/// The parts of an AND, with that many levels of NOT and brackets in each.
#[cycle(condition)]
#[tactic(auto, unfolding(crate::specs::reading::Condition::conj_parts))]
fn conj_parts(cursor: &mut Cursor, alloc: Global, levels: u32) -> Result<List<Cond>, RuleFault>
    ensures { Does (rules.conj_parts (rules.neg store_limits levels)) cursor.old result cursor.new }
{
    let first = neg(cursor, alloc, levels)?;
    let mut parts = list_of_one(alloc, first)?;
    while cursor.next_is_word(b"AND") {
        cursor.word(b"AND")?;
        let part = neg(cursor, alloc, levels)?;
        parts.add(part)?;
    }
    Ok(parts)
}

/// A condition without OR outside brackets.
#[cycle(condition)]
#[tactic(auto, unfolding(crate::specs::reading::Condition::conj_over))]
fn conj(cursor: &mut Cursor, alloc: Global, levels: u32) -> Result<Cond, RuleFault>
    ensures { Does (rules.conj_over (rules.neg store_limits levels)) cursor.old result cursor.new }
{
    let parts = conj_parts(cursor, alloc, levels)?;
    Ok(every(parts))
}

/// The parts of an OR, with that many levels of NOT and brackets in each.
#[cycle(condition)]
#[tactic(auto, unfolding(crate::specs::reading::Condition::cond_parts))]
fn cond_parts(cursor: &mut Cursor, alloc: Global, levels: u32) -> Result<List<Cond>, RuleFault>
    ensures { Does (rules.cond_parts (rules.neg store_limits levels)) cursor.old result cursor.new }
{
    let first = conj(cursor, alloc, levels)?;
    let mut parts = list_of_one(alloc, first)?;
    while cursor.next_is_word(b"OR") {
        cursor.word(b"OR")?;
        let part = conj(cursor, alloc, levels)?;
        parts.add(part)?;
    }
    Ok(parts)
}

/// A condition, with that many levels of NOT and brackets.
#[cycle(condition)]
#[tactic(auto, unfolding(crate::specs::reading::Condition::cond_over))]
fn cond(cursor: &mut Cursor, alloc: Global, levels: u32) -> Result<Cond, RuleFault>
    ensures { Does (rules.cond_over (rules.neg store_limits levels)) cursor.old result cursor.new }
{
    let parts = cond_parts(cursor, alloc, levels)?;
    Ok(some(parts))
}

/// A condition without AND and OR outside brackets, with that many levels of NOT and brackets.
#[cycle(condition)]
#[tactic(auto, unfolding(crate::specs::reading::Condition::neg))]
fn neg(cursor: &mut Cursor, alloc: Global, levels: u32) -> Result<Cond, RuleFault>
    ensures { Does (rules.neg store_limits levels) cursor.old result cursor.new }
{
    if cursor.next_is_word(b"NOT") {
        if levels == 0 {
            return Err(RuleFault::Limit(LimitName::Nesting));
        }
        cursor.word(b"NOT")?;
        let inner = neg(cursor, alloc, levels - 1)?;
        let inner = Boxed::new(alloc, inner)?;
        return Ok(Cond::Not(inner));
    }
    if cursor.next_is_mark(b"(") {
        if levels == 0 {
            return Err(RuleFault::Limit(LimitName::Nesting));
        }
        cursor.mark(b"(")?;
        let inner = cond(cursor, alloc, levels - 1)?;
        cursor.mark(b")")?;
        return Ok(inner);
    }
    comparison(cursor, alloc)
}

/// The condition of a WHERE, if one stands there.
#[tactic(auto, unfolding(crate::specs::reading::Condition::condition, crate::specs::reading::Condition::cond_rule))]
pub fn condition(cursor: &mut Cursor, alloc: Global) -> Result<Option<Boxed<Cond>>, RuleFault>
    ensures { Does (rules.condition store_limits NESTING_LEVELS) cursor.old result cursor.new }
{
    if cursor.next_is_word(b"WHERE") {
        cursor.word(b"WHERE")?;
        let found = cond(cursor, alloc, NESTING_LEVELS as u32)?;
        let found = Boxed::new(alloc, found)?;
        return Ok(Some(found));
    }
    Ok(None)
}
