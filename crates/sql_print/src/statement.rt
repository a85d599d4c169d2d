ghost use Rattle.std.specs.Prelude.{◌≡◌, ◌++◌, ◌∷◌, [], codes, IfOk, OnOk};
ghost use Rattle.std.specs.Fmt.{signed_decimal};
ghost use Rattle.text_model.specs.Canonical.{canonical, expr_words, set_words, statement_words, tuple_words, where_words};
ghost use Rattle.text_model.specs.Words.{bracketed, key_word, listed, names_words, spaced, words_of};
ghost use Rattle.sql_print.specs.Parts.{columns_words, values_words};
ghost use Rattle.sql_print.specs.Spaces.{after_spaces};

use crate::create::{push_create, push_view};
use crate::select::{push_select, push_where};
use crate::text_buffer::TextBuffer;
use crate::word::{Worded, push_bracketed, push_listed};
use own_base::{Boxed, Key, List, Name, Text, Value};
use own_model::{Cond, Expr, Statement};
use std::alloc::{AllocError, Global};

impl Worded for List<Value> {
    ghost words = { tuple_words };

    #[tactic(auto, unfolding(text_model::specs::Canonical::tuple_words))]
    fn push_words(&self, buffer: &mut TextBuffer) -> Result<(), AllocError> {
        push_bracketed(buffer, self.items())
    }
}

/// Writes a column, a sign, and a number.
fn push_sum(
    buffer: &mut TextBuffer,
    column: &Name,
    sign: &str,
    number: i64,
) -> Result<(), AllocError>
    ensures { OnOk result (buffer.new ≡ buffer.old ++ (32 ∷ column.now ++ (sign.now ++ signed_decimal number))) }
{
    column.push_words(buffer)?;
    buffer.push(sign)?;
    buffer.push_signed(number)?;
    Ok(())
}

impl Worded for Expr {
    ghost words = { expr_words };

    #[tactic(auto, unfolding(text_model::specs::Canonical::expr_words))]
    fn push_words(&self, buffer: &mut TextBuffer) -> Result<(), AllocError> {
        match self {
            Expr::Literal(value) => value.push_words(buffer),
            Expr::Column(column) => column.push_words(buffer),
            Expr::Plus(column, more) => push_sum(buffer, column, " + ", *more),
            Expr::Minus(column, fewer) => push_sum(buffer, column, " - ", *fewer),
        }
    }
}

impl Worded for (Name, Expr) {
    ghost words = { set_words };

    #[tactic(auto, unfolding(text_model::specs::Canonical::set_words))]
    fn push_words(&self, buffer: &mut TextBuffer) -> Result<(), AllocError> {
        self.0.push_words(buffer)?;
        buffer.push(" =")?;
        self.1.push_words(buffer)?;
        Ok(())
    }
}

/// Writes the columns that an INSERT names, if it does.
fn push_columns(buffer: &mut TextBuffer, columns: &Option<List<Name>>) -> Result<(), AllocError>
    ensures { OnOk result (buffer.new ≡ buffer.old ++ after_spaces (columns_words columns.now)) }
{
    match columns {
        Some(columns) => push_bracketed(buffer, columns.items()),
        None => Ok(()),
    }
}

/// Writes an INSERT.

fn push_insert(
    buffer: &mut TextBuffer,
    table: &Name,
    columns: &Option<List<Name>>,
    rows: &List<List<Value>>,
) -> Result<(), AllocError>
    ensures { OnOk result (buffer.new ≡ buffer.old ++ spaced (codes "INSERT" ∷ codes "INTO" ∷ table.now ∷ (columns_words columns.now ++ values_words rows.now))) }
{
    buffer.push("INSERT INTO")?;
    table.push_words(buffer)?;
    push_columns(buffer, columns)?;
    buffer.push(" VALUES")?;
    push_listed(buffer, rows.items())?;
    Ok(())
}

/// Writes an UPDATE.

fn push_update(
    buffer: &mut TextBuffer,
    table: &Name,
    sets: &List<(Name, Expr)>,
    cond: &Option<Boxed<Cond>>,
) -> Result<(), AllocError>
    ensures { OnOk result (buffer.new ≡ buffer.old ++ spaced (codes "UPDATE" ∷ table.now ∷ codes "SET" ∷ (listed set_words sets.now ++ where_words cond.now))) }
{
    buffer.push("UPDATE")?;
    table.push_words(buffer)?;
    buffer.push(" SET")?;
    push_listed(buffer, sets.items())?;
    push_where(buffer, cond)?;
    Ok(())
}

/// Writes a DELETE.

fn push_delete(
    buffer: &mut TextBuffer,
    table: &Name,
    cond: &Option<Boxed<Cond>>,
) -> Result<(), AllocError>
    ensures { OnOk result (buffer.new ≡ buffer.old ++ spaced (codes "DELETE" ∷ codes "FROM" ∷ table.now ∷ where_words cond.now)) }
{
    buffer.push("DELETE FROM")?;
    table.push_words(buffer)?;
    push_where(buffer, cond)?;
    Ok(())
}

/// Writes a GDPR call.
fn push_gdpr(buffer: &mut TextBuffer, call: &str, table: &Name, key: &Key) -> Result<(), AllocError>
    ensures { OnOk result (buffer.new ≡ buffer.old ++ (call.now ++ after_spaces (table.now ∷ key_word key.now ∷ []))) }
{
    buffer.push(call)?;
    table.push_words(buffer)?;
    key.push_words(buffer)?;
    Ok(())
}

/// Writes a statement.
#[tactic(auto, unfolding(text_model::specs::Canonical::statement_words))]
fn push_statement(buffer: &mut TextBuffer, statement: &Statement) -> Result<(), AllocError>
    ensures { OnOk result (buffer.new ≡ buffer.old ++ spaced (statement_words statement.now)) }
{
    match statement {
        Statement::CreateTable(create) => push_create(buffer, create),
        Statement::CreateView(view) => push_view(buffer, view.get()),
        Statement::Insert {
            table,
            columns,
            rows,
        } => push_insert(buffer, table, columns, rows),
        Statement::Update { table, sets, cond } => push_update(buffer, table, sets, cond),
        Statement::Delete { table, cond } => push_delete(buffer, table, cond),
        Statement::Select(select) => push_select(buffer, select.get()),
        Statement::Begin => buffer.push("BEGIN"),
        Statement::Commit => buffer.push("COMMIT"),
        Statement::Rollback => buffer.push("ROLLBACK"),
        Statement::GdprGet { table, key } => push_gdpr(buffer, "GDPR GET", table, key),
        Statement::GdprForget { table, key } => push_gdpr(buffer, "GDPR FORGET", table, key),
        Statement::Explain => buffer.push("EXPLAIN COMPLIANCE"),
        Statement::Checkpoint => buffer.push("CHECKPOINT"),
    }
}

/// The canonical text of a statement: its tokens with one space between, keywords in capitals, without the words that
/// mean nothing, a sign joined to its number, each quote in a text doubled.
#[tactic(auto, unfolding(text_model::specs::Canonical::canonical))]
pub fn print_statement(alloc: Global, statement: &Statement) -> Result<Text, AllocError>
    ensures { IfOk result (λ text. text ≡ canonical statement.now) }
{
    let mut buffer = TextBuffer::new(alloc);
    push_statement(&mut buffer, statement)?;
    Ok(buffer.into_text()?)
}
