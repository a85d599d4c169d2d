ghost use Rattle.grammar_model.specs.Limits.{store_limits};
ghost use Rattle.sql_reader.specs.reading.Reader.{Does};
ghost use Rattle.sql_reader.specs.reading.Rules as rules;

use crate::cursor::Cursor;
use crate::fault::RuleFault;
use crate::list::list_of_one;
use own_base::{List, Name, Value};
use own_model::{ColRef, Expr};
use std::alloc::Global;

/// A number with its sign.
#[tactic(auto, unfolding(crate::specs::reading::Rules::int))]
pub fn int(cursor: &mut Cursor) -> Result<i64, RuleFault>
    ensures { Does rules.int cursor.old result cursor.new }
{
    if cursor.next_is_mark(b"-") {
        cursor.mark(b"-")?;
        return cursor.number(true);
    }
    cursor.number(false)
}

/// Names, parted by commas.
#[tactic(auto, unfolding(crate::specs::reading::Rules::names))]
pub fn names(cursor: &mut Cursor, alloc: Global) -> Result<List<Name>, RuleFault>
    ensures { Does (rules.names store_limits) cursor.old result cursor.new }
{
    let first = cursor.name(alloc)?;
    let mut names = list_of_one(alloc, first)?;
    while cursor.next_is_mark(b",") {
        cursor.mark(b",")?;
        let name = cursor.name(alloc)?;
        names.add(name)?;
    }
    Ok(names)
}

/// A name in brackets.
#[tactic(auto, unfolding(crate::specs::reading::Rules::one_name))]
pub fn one_name(cursor: &mut Cursor, alloc: Global) -> Result<Name, RuleFault>
    ensures { Does (rules.one_name store_limits) cursor.old result cursor.new }
{
    cursor.mark(b"(")?;
    let column = cursor.name(alloc)?;
    cursor.mark(b")")?;
    Ok(column)
}

/// Names in brackets.
#[tactic(auto, unfolding(crate::specs::reading::Rules::bracketed_names))]
pub fn bracketed_names(cursor: &mut Cursor, alloc: Global) -> Result<List<Name>, RuleFault>
    ensures { Does (rules.bracketed_names store_limits) cursor.old result cursor.new }
{
    cursor.mark(b"(")?;
    let columns = names(cursor, alloc)?;
    cursor.mark(b")")?;
    Ok(columns)
}

/// The column that begins with this name.
#[tactic(auto, unfolding(crate::specs::reading::Rules::col_after))]
pub fn col_after(cursor: &mut Cursor, alloc: Global, first: Name) -> Result<ColRef, RuleFault>
    ensures { Does (rules.col_after store_limits first) cursor.old result cursor.new }
{
    if cursor.next_is_mark(b".") {
        cursor.mark(b".")?;
        let column = cursor.name(alloc)?;
        return Ok(ColRef {
            table: Some(first),
            column,
        });
    }
    Ok(ColRef {
        table: None,
        column: first,
    })
}

/// A column.
#[tactic(auto, unfolding(crate::specs::reading::Rules::col))]
pub fn col(cursor: &mut Cursor, alloc: Global) -> Result<ColRef, RuleFault>
    ensures { Does (rules.col store_limits) cursor.old result cursor.new }
{
    let first = cursor.name(alloc)?;
    col_after(cursor, alloc, first)
}

/// NULL, a number or a text.
#[tactic(auto, unfolding(crate::specs::reading::Rules::literal))]
pub fn literal(cursor: &mut Cursor, alloc: Global) -> Result<Value, RuleFault>
    ensures { Does (rules.literal store_limits) cursor.old result cursor.new }
{
    if cursor.next_is_word(b"NULL") {
        cursor.word(b"NULL")?;
        return Ok(Value::Null);
    }
    if cursor.next_is_quoted() {
        let text = cursor.text(alloc)?;
        return Ok(Value::Text(text));
    }
    let number = int(cursor)?;
    Ok(Value::Int(number))
}

/// A tuple of values.
#[tactic(auto, unfolding(crate::specs::reading::Rules::tuple))]
pub fn tuple(cursor: &mut Cursor, alloc: Global) -> Result<List<Value>, RuleFault>
    ensures { Does (rules.tuple store_limits) cursor.old result cursor.new }
{
    cursor.mark(b"(")?;
    let values = values(cursor, alloc)?;
    cursor.mark(b")")?;
    Ok(values)
}

/// Values, parted by commas.
#[tactic(auto, unfolding(crate::specs::reading::Rules::values))]
pub fn values(cursor: &mut Cursor, alloc: Global) -> Result<List<Value>, RuleFault>
    ensures { Does (rules.values store_limits) cursor.old result cursor.new }
{
    let first = literal(cursor, alloc)?;
    let mut values = list_of_one(alloc, first)?;
    while cursor.next_is_mark(b",") {
        cursor.mark(b",")?;
        let value = literal(cursor, alloc)?;
        values.add(value)?;
    }
    values.shrink_to_fit();
    Ok(values)
}

/// The expression that begins with this column.
#[tactic(auto, unfolding(crate::specs::reading::Rules::sum_after))]
pub fn sum_after(cursor: &mut Cursor, column: Name) -> Result<Expr, RuleFault>
    ensures { Does (rules.sum_after column) cursor.old result cursor.new }
{
    if cursor.next_is_mark(b"+") {
        cursor.mark(b"+")?;
        let more = int(cursor)?;
        return Ok(Expr::Plus(column, more));
    }
    if cursor.next_is_mark(b"-") {
        cursor.mark(b"-")?;
        let less = int(cursor)?;
        return Ok(Expr::Minus(column, less));
    }
    Ok(Expr::Column(column))
}

/// What an UPDATE sets a column to.
#[tactic(auto, unfolding(crate::specs::reading::Rules::expr_rule))]
pub fn expr(cursor: &mut Cursor, alloc: Global) -> Result<Expr, RuleFault>
    ensures { Does (rules.expr_rule store_limits) cursor.old result cursor.new }
{
    if cursor.next_is_name() {
        let column = cursor.name(alloc)?;
        return sum_after(cursor, column);
    }
    let found = literal(cursor, alloc)?;
    Ok(Expr::Literal(found))
}
