ghost use Rattle.std.specs.Prelude.{◌≡◌, IfOk, IsUtf8};
ghost use Rattle.grammar_model.specs.Answer.{GivesStatement, IsAnswer};
ghost use Rattle.disk_model.specs.Bounds.{IsCountable};
ghost use Rattle.commit_replay.specs.Creates.{Reads, TellsOf, is_create_of};

use own_base::Text;
use own_model::Statement;
use sql_print::print_statement;
use sql_reader::{ReadFault, read_statement};
use std::alloc::{AllocError, Global};
use std::mem::drop;

/// Whether it is a CREATE VIEW, where a view is meant, else whether it is a CREATE TABLE. Takes no memory.
fn is_create_of(view: bool, statement: &Statement) -> bool
    ensures { result ≡ is_create_of view statement.now }
{
    match statement {
        Statement::CreateTable(_) => !view,
        Statement::CreateView(_) => view,
        _ => false,
    }
}

/// Whether a text that is read as a statement is kept for it: as its canonical text, of a CREATE of what is meant.
fn is_kept(
    alloc: Global,
    view: bool,
    text: &Text,
    statement: &Statement,
) -> Result<bool, AllocError>
    requires countable { IsCountable text.now }
    requires utf8 { IsUtf8 text.now }
    requires read { IsAnswer text.now (GivesStatement statement.now) }
    ensures { IfOk result (TellsOf (record { view = view; text = text.now }) statement.now) }
{
    if !is_create_of(view, statement) {
        return Ok(false);
    }
    let printed = print_statement(alloc, statement)?;
    Ok(printed == *text)
}

/// The CREATE, of a view or of a table, whose canonical text this is, if there is one: the text is read, and printed again.
pub(crate) fn read_create(
    alloc: Global,
    view: bool,
    text: &Text,
) -> Result<Option<Statement>, AllocError>
    requires { IsCountable text.now }
    ensures { IfOk result (Reads (record { view = view; text = text.now })) }
{
    match read_statement(alloc, text.as_str()) {
        Ok(statement) => match is_kept(alloc, view, text, &statement) {
            Ok(true) => Ok(Some(statement)),
            Ok(false) => {
                drop(statement);
                Ok(None)
            }
            Err(refused) => {
                drop(statement);
                Err(refused)
            }
        },
        Err(ReadFault::Memory) => Err(AllocError),
        Err(ReadFault::Syntax(_)) => Ok(None),
        Err(ReadFault::Limit(_)) => Ok(None),
    }
}
