ghost use Rattle.std.specs.Prelude.{◌≡◌, ◌<◌, ◌^◌, length, IfSome};
ghost use Rattle.grammar_model.specs.Answer.{IsAnswer};
ghost use Rattle.sql_reader.specs.AnswerOf.{answer_of, read_fault};
ghost use Rattle.sql_reader.specs.reading.Whole.{whole};
ghost use Rattle.sql_reader.specs.reading.Reader.{Does};

use crate::cursor::Cursor;
use crate::fault::{ReadFault, RuleFault};
use crate::names::Names;
use crate::statement::statement;
use crate::tokens::tokens;
use own_model::Statement;
use std::alloc::Global;
use std::mem::{drop, replace};

/// A statement, and nothing after it.
#[tactic(auto, unfolding(crate::specs::reading::Whole::whole))]
fn whole(cursor: &mut Cursor, alloc: Global) -> Result<Statement, RuleFault>
    ensures { Does whole cursor.old result cursor.new }
{
    let found = statement(cursor, alloc)?;
    cursor.ended()?;
    Ok(found)
}

/// What a fault of the rules is for a text that stops being a statement at a byte.
fn fault_at(fault: RuleFault, place: u32) -> ReadFault
    ensures { result ≡ read_fault fault place }
{
    match fault {
        RuleFault::Memory => ReadFault::Memory,
        RuleFault::Limit(limit) => ReadFault::Limit(limit),
        RuleFault::Syntax => ReadFault::Syntax(place),
    }
}

/// The statement that a text is, as `read_statement` reads it. Its names are shared with those that were read before, and with what
/// is read after it.
pub(crate) fn read_sharing(
    alloc: Global,
    text: &str,
    names: &mut Names,
) -> Result<Statement, ReadFault>
    requires { length text.now < 2 ^ 32 }
    // Only memory, refused, keeps the answer from coming.
    ensures { IfSome (answer_of result) (λ answer. IsAnswer text.now answer) }
{
    let Ok(found) = tokens(alloc, text) else {
        return Err(ReadFault::Memory);
    };
    let mut cursor = Cursor::new(found.as_slice(), replace(names, Names::new(alloc)));
    let read = whole(&mut cursor, alloc);
    let place = cursor.place(text.len() as u32);
    drop(replace(names, cursor.into_names()));
    match read {
        Ok(statement) => Ok(statement),
        Err(fault) => Err(fault_at(fault, place)),
    }
}

/// The statement that a text is. No statement is read in part: `Syntax` tells the byte at which the first token stands
/// with which no statement goes on, or the text's length, and `Limit` the limit that is passed there. Takes memory for
/// the text's tokens and for the statement.
pub fn read_statement(alloc: Global, text: &str) -> Result<Statement, ReadFault>
    requires { length text.now < 2 ^ 32 }
    // Only memory, refused, keeps the answer from coming.
    ensures { IfSome (answer_of result) (λ answer. IsAnswer text.now answer) }
{
    let mut names = Names::new(alloc);
    let read = read_sharing(alloc, text, &mut names);
    drop(names);
    read
}
