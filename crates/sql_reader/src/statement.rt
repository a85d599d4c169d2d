ghost use Rattle.std.specs.Prelude.{◌≡◌};
ghost use Rattle.own_model.specs.declared.limit.TheConstants.{NESTING_LEVELS};
ghost use Rattle.grammar_model.specs.Limits.{store_limits};
ghost use Rattle.sql_reader.specs.reading.Reader.{Does};
ghost use Rattle.sql_reader.specs.reading.Statements as rules;

use crate::condition::condition;
use crate::create::create;
use crate::cursor::Cursor;
use crate::fault::RuleFault;
use crate::list::list_of_one;
use crate::rule::{bracketed_names, expr, int, tuple};
use crate::select::select;
use own_base::{Boxed, Key, List, Name, Value};
use own_model::{Expr, Statement};
use std::alloc::Global;

/// Tuples, parted by commas.
#[tactic(auto, unfolding(crate::specs::reading::Statements::tuples))]
fn tuples(cursor: &mut Cursor, alloc: Global) -> Result<List<List<Value>>, RuleFault>
    ensures { Does (rules.tuples store_limits) cursor.old result cursor.new }
{
    let first = tuple(cursor, alloc)?;
    let mut rows = list_of_one(alloc, first)?;
    while cursor.next_is_mark(b",") {
        cursor.mark(b",")?;
        let row = tuple(cursor, alloc)?;
        rows.add(row)?;
    }
    rows.shrink_to_fit();
    Ok(rows)
}

/// The columns of an INSERT, if they stand there.
#[tactic(auto, unfolding(crate::specs::reading::Statements::columns))]
fn columns(cursor: &mut Cursor, alloc: Global) -> Result<Option<List<Name>>, RuleFault>
    ensures { Does (rules.columns store_limits) cursor.old result cursor.new }
{
    if cursor.next_is_mark(b"(") {
        let found = bracketed_names(cursor, alloc)?;
        return Ok(Some(found));
    }
    Ok(None)
}

/// An INSERT.
#[tactic(auto, unfolding(crate::specs::reading::Statements::insert))]
fn insert(cursor: &mut Cursor, alloc: Global) -> Result<Statement, RuleFault>
    ensures { Does (rules.insert store_limits) cursor.old result cursor.new }
{
    cursor.word(b"INSERT")?;
    cursor.word(b"INTO")?;
    let table = cursor.name(alloc)?;
    let columns = columns(cursor, alloc)?;
    cursor.word(b"VALUES")?;
    let rows = tuples(cursor, alloc)?;
    Ok(Statement::Insert {
        table,
        columns,
        rows,
    })
}

/// What a column is set to.
#[tactic(auto, unfolding(crate::specs::reading::Statements::set))]
fn set(cursor: &mut Cursor, alloc: Global) -> Result<(Name, Expr), RuleFault>
    ensures { Does (rules.set store_limits) cursor.old result cursor.new }
{
    let column = cursor.name(alloc)?;
    cursor.mark(b"=")?;
    let value = expr(cursor, alloc)?;
    Ok((column, value))
}

/// What columns are set to.
#[tactic(auto, unfolding(crate::specs::reading::Statements::sets))]
fn sets(cursor: &mut Cursor, alloc: Global) -> Result<List<(Name, Expr)>, RuleFault>
    ensures { Does (rules.sets store_limits) cursor.old result cursor.new }
{
    let first = set(cursor, alloc)?;
    let mut sets = list_of_one(alloc, first)?;
    while cursor.next_is_mark(b",") {
        cursor.mark(b",")?;
        let next = set(cursor, alloc)?;
        sets.add(next)?;
    }
    Ok(sets)
}

/// An UPDATE.
#[tactic(auto, unfolding(crate::specs::reading::Statements::update))]
fn update(cursor: &mut Cursor, alloc: Global) -> Result<Statement, RuleFault>
    ensures { Does (rules.update store_limits NESTING_LEVELS) cursor.old result cursor.new }
{
    cursor.word(b"UPDATE")?;
    let table = cursor.name(alloc)?;
    cursor.word(b"SET")?;
    let sets = sets(cursor, alloc)?;
    let cond = condition(cursor, alloc)?;
    Ok(Statement::Update { table, sets, cond })
}

/// A DELETE.
#[tactic(auto, unfolding(crate::specs::reading::Statements::delete))]
fn delete(cursor: &mut Cursor, alloc: Global) -> Result<Statement, RuleFault>
    ensures { Does (rules.delete store_limits NESTING_LEVELS) cursor.old result cursor.new }
{
    cursor.word(b"DELETE")?;
    cursor.word(b"FROM")?;
    let table = cursor.name(alloc)?;
    let cond = condition(cursor, alloc)?;
    Ok(Statement::Delete { table, cond })
}

/// A transaction's statement that begins with CTX.
#[tactic(auto, unfolding(crate::specs::reading::Statements::context))]
fn context(cursor: &mut Cursor) -> Result<Statement, RuleFault>
    ensures { Does rules.context cursor.old result cursor.new }
{
    cursor.word(b"CTX")?;
    if cursor.next_is_word(b"START") {
        cursor.word(b"START")?;
        return Ok(Statement::Begin);
    }
    if cursor.next_is_word(b"COMMIT") {
        cursor.word(b"COMMIT")?;
        return Ok(Statement::Commit);
    }
    cursor.word(b"ROLLBACK")?;
    Ok(Statement::Rollback)
}

/// A BEGIN.
#[tactic(auto, unfolding(crate::specs::reading::Statements::begin))]
fn begin(cursor: &mut Cursor) -> Result<Statement, RuleFault>
    ensures { Does rules.begin cursor.old result cursor.new }
{
    cursor.word(b"BEGIN")?;
    if cursor.next_is_word(b"TRANSACTION") {
        cursor.word(b"TRANSACTION")?;
    }
    Ok(Statement::Begin)
}

/// A statement that names no table.
#[tactic(auto, unfolding(crate::specs::reading::Statements::control))]
fn control(cursor: &mut Cursor) -> Result<Statement, RuleFault>
    ensures { Does rules.control cursor.old result cursor.new }
{
    if cursor.next_is_word(b"BEGIN") {
        return begin(cursor);
    }
    if cursor.next_is_word(b"COMMIT") {
        cursor.word(b"COMMIT")?;
        return Ok(Statement::Commit);
    }
    if cursor.next_is_word(b"ROLLBACK") {
        cursor.word(b"ROLLBACK")?;
        return Ok(Statement::Rollback);
    }
    if cursor.next_is_word(b"CTX") {
        return context(cursor);
    }
    if cursor.next_is_word(b"CHECKPOINT") {
        cursor.word(b"CHECKPOINT")?;
        return Ok(Statement::Checkpoint);
    }
    cursor.word(b"EXPLAIN")?;
    cursor.word(b"COMPLIANCE")?;
    Ok(Statement::Explain)
}

/// A key.
#[tactic(auto, unfolding(crate::specs::reading::Statements::key_rule))]
fn key(cursor: &mut Cursor, alloc: Global) -> Result<Key, RuleFault>
    ensures { Does (rules.key_rule store_limits) cursor.old result cursor.new }
{
    if cursor.next_is_quoted() {
        let text = cursor.text(alloc)?;
        return Ok(Key::Text(text));
    }
    let number = int(cursor)?;
    Ok(Key::Int(number))
}

/// A GDPR call.
#[tactic(auto, unfolding(crate::specs::reading::Statements::gdpr))]
fn gdpr(cursor: &mut Cursor, alloc: Global) -> Result<Statement, RuleFault>
    ensures { Does (rules.gdpr store_limits) cursor.old result cursor.new }
{
    cursor.word(b"GDPR")?;
    if cursor.next_is_word(b"GET") {
        cursor.word(b"GET")?;
        let table = cursor.name(alloc)?;
        let key = key(cursor, alloc)?;
        return Ok(Statement::GdprGet { table, key });
    }
    cursor.word(b"FORGET")?;
    let table = cursor.name(alloc)?;
    let key = key(cursor, alloc)?;
    Ok(Statement::GdprForget { table, key })
}

/// A statement.
#[tactic(auto, unfolding(crate::specs::reading::Statements::statement_rule))]
pub fn statement(cursor: &mut Cursor, alloc: Global) -> Result<Statement, RuleFault>
    ensures { Does (rules.statement_rule store_limits NESTING_LEVELS) cursor.old result cursor.new }
{
    if cursor.next_is_word(b"CREATE") {
        return create(cursor, alloc);
    }
    if cursor.next_is_word(b"SELECT") {
        let found = select(cursor, alloc)?;
        let found = Boxed::new(alloc, found)?;
        return Ok(Statement::Select(found));
    }
    if cursor.next_is_word(b"INSERT") {
        return insert(cursor, alloc);
    }
    if cursor.next_is_word(b"UPDATE") {
        return update(cursor, alloc);
    }
    if cursor.next_is_word(b"DELETE") {
        return delete(cursor, alloc);
    }
    if cursor.next_is_word(b"GDPR") {
        return gdpr(cursor, alloc);
    }
    control(cursor)
}
