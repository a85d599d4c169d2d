ghost use Rattle.std.specs.Prelude.{◌≡◌, IfOk, OnOk};
ghost use Rattle.serde_json.specs.View.{members_view, view};
ghost use Rattle.text_model.specs.Refused.{limit_name, limit_number};
ghost use Rattle.reply_json.specs.Refused.{refused_data, with_column_of_row, with_facts, with_held, with_limit, with_row};

use crate::members::{put_number, put_text};
use crate::values::key_json;
use crate::wording::{refusal_name, refusal_number, refusal_sentence};
use own_base::{Key, NAME_BYTES, Name, SessionNo};
use own_model::{
    JOURNAL_ROOM, LimitName, NESTING_LEVELS, REPLY_ROWS, Refusal, SELECT_ITEMS, STATEMENT_BYTES,
    STORE_ROWS, STORE_WEIGHT, TABLE_COLUMNS, TABLES, TEXT_BYTES, VIEWS,
};
use serde_json::{Map, Value as Json};
use std::alloc::{AllocError, Global};

/// What a reply calls a limit.
#[tactic(auto, unfolding(text_model::specs::Refused::limit_name))]
fn limit_name(limit: LimitName) -> &'static str
    ensures { result.now ≡ limit_name limit }
{
    match limit {
        LimitName::Statement => "statement",
        LimitName::Nesting => "nesting",
        LimitName::Text => "text",
        LimitName::Items => "items",
        LimitName::Name => "name",
        LimitName::Columns => "columns",
        LimitName::Tables => "tables",
        LimitName::Views => "views",
        LimitName::Reply => "reply",
        LimitName::Rows => "rows",
        LimitName::Weight => "weight",
        LimitName::Room => "room",
    }
}

/// The number that a limit is.
#[tactic(auto, unfolding(text_model::specs::Refused::limit_number))]
fn limit_number(limit: LimitName) -> u64
    ensures { result ≡ limit_number limit }
{
    match limit {
        LimitName::Statement => STATEMENT_BYTES as u64,
        LimitName::Nesting => NESTING_LEVELS as u64,
        LimitName::Text => TEXT_BYTES as u64,
        LimitName::Items => SELECT_ITEMS as u64,
        LimitName::Name => NAME_BYTES as u64,
        LimitName::Columns => TABLE_COLUMNS as u64,
        LimitName::Tables => TABLES as u64,
        LimitName::Views => VIEWS as u64,
        LimitName::Reply => REPLY_ROWS,
        LimitName::Rows => STORE_ROWS,
        LimitName::Weight => STORE_WEIGHT,
        LimitName::Room => JOURNAL_ROOM,
    }
}

/// Puts a row's table and key.
#[tactic(auto, unfolding(crate::specs::Refused::with_row))]
fn put_row(
    members: &mut Map<String, Json>,
    alloc: Global,
    table: &Name,
    key: &Key,
) -> Result<(), AllocError>
    ensures { OnOk result (members_view members.new.entries ≡ with_row table.now key.now (members_view members.old.entries)) }
{
    put_text(members, alloc, "table", table.as_str())?;
    serde_json::put(members, alloc, "key", key_json(alloc, key)?)
}

/// Puts a row's table and key, and one of its columns.
#[tactic(auto, unfolding(crate::specs::Refused::with_column_of_row))]
fn put_column_of_row(
    members: &mut Map<String, Json>,
    alloc: Global,
    table: &Name,
    key: &Key,
    column: &Name,
) -> Result<(), AllocError>
    ensures { OnOk result (members_view members.new.entries ≡ with_column_of_row table.now key.now column.now (members_view members.old.entries)) }
{
    put_row(members, alloc, table, key)?;
    put_text(members, alloc, "column", column.as_str())
}

/// Puts which session holds which row, or which whole table, whose key is null.
#[tactic(auto, unfolding(crate::specs::Refused::with_held))]
fn put_held(
    members: &mut Map<String, Json>,
    alloc: Global,
    session: SessionNo,
    table: &Name,
    key: &Option<Key>,
) -> Result<(), AllocError>
    ensures { OnOk result (members_view members.new.entries ≡ with_held session.0 table.now key.now (members_view members.old.entries)) }
{
    put_number(members, alloc, "session", u64::from(session.0))?;
    put_text(members, alloc, "table", table.as_str())?;
    let key = match key {
        Some(key) => key_json(alloc, key)?,
        None => Json::Null,
    };
    serde_json::put(members, alloc, "key", key)
}

/// Puts a limit and its number.
#[tactic(auto, unfolding(crate::specs::Refused::with_limit))]
fn put_limit(
    members: &mut Map<String, Json>,
    alloc: Global,
    limit: LimitName,
) -> Result<(), AllocError>
    ensures { OnOk result (members_view members.new.entries ≡ with_limit limit (members_view members.old.entries)) }
{
    put_text(members, alloc, "limit", limit_name(limit))?;
    put_number(members, alloc, "most", limit_number(limit))
}

/// Puts what shows why a call was refused.
fn put_facts(
    members: &mut Map<String, Json>,
    alloc: Global,
    refusal: &Refusal,
) -> Result<(), AllocError>
    ensures { OnOk result (members_view members.new.entries ≡ with_facts refusal.now (members_view members.old.entries)) }
{
    match refusal {
        Refusal::Syntax(byte) => put_number(members, alloc, "byte", u64::from(*byte)),
        Refusal::NoTable(table) => put_text(members, alloc, "table", table.as_str()),
        Refusal::NoColumn(column) => put_text(members, alloc, "column", column.as_str()),
        Refusal::WrongKind(column) => put_text(members, alloc, "column", column.as_str()),
        Refusal::Count { got, wanted } => {
            put_number(members, alloc, "got", u64::from(*got))?;
            put_number(members, alloc, "wanted", u64::from(*wanted))
        }
        Refusal::NameTaken(name) => put_text(members, alloc, "taken", name.as_str()),
        Refusal::BadSchema { rule, name } => {
            put_number(members, alloc, "rule", u64::from(*rule))?;
            put_text(members, alloc, "at", name.as_str())
        }
        Refusal::Cycle { table, through } => {
            put_text(members, alloc, "table", table.as_str())?;
            put_text(members, alloc, "through", through.as_str())
        }
        Refusal::HasRows(table) => put_text(members, alloc, "table", table.as_str()),
        Refusal::KeyWrite(column) => put_text(members, alloc, "column", column.as_str()),
        Refusal::NotSubject(table) => put_text(members, alloc, "table", table.as_str()),
        Refusal::NullValue(column) => put_text(members, alloc, "column", column.as_str()),
        Refusal::Duplicate { table, key } => put_row(members, alloc, table, key),
        Refusal::Range(column) => put_text(members, alloc, "column", column.as_str()),
        Refusal::Busy(session) => put_number(members, alloc, "session", u64::from(session.0)),
        Refusal::Conflict {
            session,
            table,
            key,
        } => put_held(members, alloc, *session, table, key),
        Refusal::Doomed(place) => put_number(members, alloc, "place", place.0),
        Refusal::NoSubject { table, key } => put_row(members, alloc, table, key),
        Refusal::Unique { table, key, column } => put_column_of_row(
            members, alloc, table, key, column,
        ),
        Refusal::Reference { table, key, column } => put_column_of_row(
            members, alloc, table, key, column,
        ),
        Refusal::Owner { table, key } => put_row(members, alloc, table, key),
        Refusal::TooBig(bytes) => put_number(members, alloc, "bytes", *bytes),
        Refusal::Limit(limit) => put_limit(members, alloc, *limit),
        Refusal::Down(place) => put_number(members, alloc, "place", place.0),
        Refusal::Inside | Refusal::Outside | Refusal::Disk | Refusal::Memory => Ok(()),
    }
}

/// A refusal: its number, word and sentence, and what shows it.
#[tactic(auto, unfolding(crate::specs::Refused::refused_data))]
pub(crate) fn refused_json(alloc: Global, refusal: &Refusal) -> Result<Json, AllocError>
    ensures { IfOk result (λ json. view json ≡ refused_data refusal.now) }
{
    let mut members = Map::new(alloc);
    put_number(
        &mut members,
        alloc,
        "number",
        u64::from(refusal_number(refusal)),
    )?;
    put_text(&mut members, alloc, "name", refusal_name(refusal))?;
    put_text(&mut members, alloc, "sentence", refusal_sentence(refusal))?;
    put_facts(&mut members, alloc, refusal)?;
    Ok(Json::Object(members))
}
