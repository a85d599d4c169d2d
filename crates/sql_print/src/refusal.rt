ghost use Rattle.std.specs.Prelude.{◌≡◌, ◌++◌, OnOk};
ghost use Rattle.std.specs.Fmt.{decimal};
ghost use Rattle.text_model.specs.Refused.{◌<+>◌, held_key, limit_name, limit_number, refusal_text};
ghost use Rattle.text_model.specs.Shown.{shown_key};

use crate::text_buffer::TextBuffer;
use crate::value::push_key;
use own_base::{Key, NAME_BYTES, Name};
use own_model::{
    JOURNAL_ROOM, LimitName, NESTING_LEVELS, REPLY_ROWS, Refusal, SELECT_ITEMS, STATEMENT_BYTES,
    STORE_ROWS, STORE_WEIGHT, TABLE_COLUMNS, TABLES, TEXT_BYTES, VIEWS,
};
use std::alloc::AllocError;

/// What a reply calls a limit.
#[tactic(auto, unfolding(text_model::specs::Refused::limit_name))]
fn limit_name(limit: LimitName) -> &'static str
    ensures { result.now ≡ limit_name limit }
{
    match limit {
        LimitName::Statement => "statement",
        LimitName::Nesting => "nesting",
        LimitName::Text => "text",
        LimitName::Items => "items",
        LimitName::Name => "name",
        LimitName::Columns => "columns",
        LimitName::Tables => "tables",
        LimitName::Views => "views",
        LimitName::Reply => "reply",
        LimitName::Rows => "rows",
        LimitName::Weight => "weight",
        LimitName::Room => "room",
    }
}

/// The number that a limit is.
#[tactic(auto, unfolding(text_model::specs::Refused::limit_number))]
fn limit_number(limit: LimitName) -> u64
    ensures { result ≡ limit_number limit }
{
    match limit {
        LimitName::Statement => STATEMENT_BYTES as u64,
        LimitName::Nesting => NESTING_LEVELS as u64,
        LimitName::Text => TEXT_BYTES as u64,
        LimitName::Items => SELECT_ITEMS as u64,
        LimitName::Name => NAME_BYTES as u64,
        LimitName::Columns => TABLE_COLUMNS as u64,
        LimitName::Tables => TABLES as u64,
        LimitName::Views => VIEWS as u64,
        LimitName::Reply => REPLY_ROWS,
        LimitName::Rows => STORE_ROWS,
        LimitName::Weight => STORE_WEIGHT,
        LimitName::Room => JOURNAL_ROOM,
    }
}

/// Writes the key of a row that is held, or `*` for a whole table.
#[tactic(auto, unfolding(text_model::specs::Refused::held_key))]
fn push_held_key(buffer: &mut TextBuffer, key: &Option<Key>) -> Result<(), AllocError>
    ensures { OnOk result (buffer.new ≡ buffer.old ++ held_key key.now) }
{
    match key {
        Some(key) => push_key(buffer, key),
        None => buffer.push("*"),
    }
}

/// Writes the row that is held, or the whole table, with `*` for the key.
fn push_held(buffer: &mut TextBuffer, table: &Name, key: &Option<Key>) -> Result<(), AllocError>
    ensures { OnOk result (buffer.new ≡ buffer.old ++ (table.now <+> held_key key.now)) }
{
    buffer.push(table.as_str())?;
    buffer.push(" ")?;
    push_held_key(buffer, key)
}

/// Writes what stands before a name, and the name.
fn push_named(buffer: &mut TextBuffer, before: &str, name: &Name) -> Result<(), AllocError>
    ensures { OnOk result (buffer.new ≡ buffer.old ++ (before.now ++ name.now)) }
{
    buffer.push(before)?;
    buffer.push(name.as_str())
}

/// Writes what stands before a number, and the number.
fn push_numbered(buffer: &mut TextBuffer, before: &str, number: u64) -> Result<(), AllocError>
    ensures { OnOk result (buffer.new ≡ buffer.old ++ (before.now ++ decimal number)) }
{
    buffer.push(before)?;
    buffer.push_number(number)
}

/// Writes what stands before a row, and the row's table and key.
fn push_row(
    buffer: &mut TextBuffer,
    before: &str,
    table: &Name,
    key: &Key,
) -> Result<(), AllocError>
    ensures { OnOk result (buffer.new ≡ buffer.old ++ (before.now ++ (table.now <+> shown_key key.now))) }
{
    push_named(buffer, before, table)?;
    buffer.push(" ")?;
    push_key(buffer, key)
}

/// Writes what stands before a column of a row, and the row's table and key and the column.
fn push_column_of_row(
    buffer: &mut TextBuffer,
    before: &str,
    table: &Name,
    key: &Key,
    column: &Name,
) -> Result<(), AllocError>
    ensures { OnOk result (buffer.new ≡ buffer.old ++ (before.now ++ (table.now <+> shown_key key.now <+> column.now))) }
{
    push_row(buffer, before, table, key)?;
    buffer.push(" ")?;
    buffer.push(column.as_str())
}

/// Writes why a call was refused.
#[tactic(auto, unfolding(text_model::specs::Refused::refusal_text))]
pub fn push_refusal(buffer: &mut TextBuffer, refusal: &Refusal) -> Result<(), AllocError>
    ensures { OnOk result (buffer.new ≡ buffer.old ++ refusal_text refusal.now) }
{
    match refusal {
        Refusal::Syntax(byte) => push_numbered(buffer, "refused syntax ", u64::from(*byte)),
        Refusal::NoTable(table) => push_named(buffer, "refused table ", table),
        Refusal::NoColumn(column) => push_named(buffer, "refused column ", column),
        Refusal::WrongKind(column) => push_named(buffer, "refused kind ", column),
        Refusal::Count { got, wanted } => {
            push_numbered(buffer, "refused count ", u64::from(*got))?;
            push_numbered(buffer, " ", u64::from(*wanted))
        }
        Refusal::NameTaken(name) => push_named(buffer, "refused taken ", name),
        Refusal::BadSchema { rule, name } => {
            push_numbered(buffer, "refused schema ", u64::from(*rule))?;
            push_named(buffer, " ", name)?;
            Ok(())
        }
        Refusal::Cycle { table, through } => {
            push_named(buffer, "refused cycle ", table)?;
            push_named(buffer, " ", through)
        }
        Refusal::HasRows(table) => push_named(buffer, "refused rows ", table),
        Refusal::KeyWrite(column) => push_named(buffer, "refused key ", column),
        Refusal::NotSubject(table) => push_named(buffer, "refused subject ", table),
        Refusal::NullValue(column) => push_named(buffer, "refused null ", column),
        Refusal::Duplicate { table, key } => push_row(buffer, "refused duplicate ", table, key),
        Refusal::Range(column) => push_named(buffer, "refused range ", column),
        Refusal::Inside => buffer.push("refused inside"),
        Refusal::Outside => buffer.push("refused outside"),
        Refusal::Busy(session) => push_numbered(buffer, "refused busy ", u64::from(session.0)),
        Refusal::Conflict {
            session,
            table,
            key,
        } => {
            push_numbered(buffer, "refused conflict ", u64::from(session.0))?;
            buffer.push(" ")?;
            push_held(buffer, table, key)?;
            Ok(())
        }
        Refusal::Doomed(place) => push_numbered(buffer, "refused doomed ", place.0),
        Refusal::NoSubject { table, key } => push_row(buffer, "refused absent ", table, key),
        Refusal::Unique { table, key, column } => {
            push_column_of_row(buffer, "refused unique ", table, key, column)
        }
        Refusal::Reference { table, key, column } => {
            push_column_of_row(buffer, "refused reference ", table, key, column)
        }
        Refusal::Owner { table, key } => push_row(buffer, "refused owner ", table, key),
        Refusal::TooBig(bytes) => push_numbered(buffer, "refused big ", *bytes),
        Refusal::Limit(limit) => {
            buffer.push("refused limit ")?;
            buffer.push(limit_name(*limit))?;
            push_numbered(buffer, " ", limit_number(*limit))?;
            Ok(())
        }
        Refusal::Disk => buffer.push("disk"),
        Refusal::Down(place) => push_numbered(buffer, "down ", place.0),
        Refusal::Memory => buffer.push("memory"),
    }
}
