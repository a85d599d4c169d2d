ghost use Rattle.std.specs.Prelude.{◌≡◌, ◌++◌, ◌∷◌, [], option_map, IfOk, OnOk, string_bytes, false};
ghost use Rattle.serde_json.specs.View.{members_view, view};
ghost use Rattle.serde_json.specs.Written.{compact_text, has_float};
ghost use Rattle.reply_json.specs.Line.{call_members, place_data, reply_data, with_reply};

use crate::members::{put_number, put_text};
use crate::refused::refused_json;
use crate::rows::{got_rows_json, lines_json, names_json, rows_json};
use crate::told::Told;
use own_base::Place;
use own_model::Reply;
use serde_json::{Map, Value as Json};
use std::alloc::{AllocError, Global};

/// A place, or null for none.
fn place_json(place: Option<Place>) -> Json
    ensures { view result ≡ place_data (option_map (λ place. place.0) place) }
{
    match place {
        Some(place) => Json::from(place.0),
        None => Json::Null,
    }
}

/// Which call a reply is to.
#[tactic(auto, unfolding(crate::specs::Line::call_members))]
fn call_json(alloc: Global, told: &Told<'_>) -> Result<Map<String, Json>, AllocError>
    ensures { IfOk result (λ members. members_view members.entries
        ≡ call_members (option_map (λ place. place.0) told.now.place) told.now.session.0 told.now.call told.now.line) }
{
    let mut members = Map::new(alloc);
    serde_json::put(&mut members, alloc, "place", place_json(told.place))?;
    put_number(&mut members, alloc, "session", u64::from(told.session.0))?;
    put_number(&mut members, alloc, "call", u64::from(told.call))?;
    put_number(&mut members, alloc, "line", told.line)?;
    Ok(members)
}

/// Puts the reply.
fn put_reply(
    members: &mut Map<String, Json>,
    alloc: Global,
    told: &Told<'_>,
    reply: &Reply,
) -> Result<(), AllocError>
    ensures { OnOk result (members_view members.new.entries ≡ with_reply told.now.columns.now told.now.tables.now reply.now (members_view members.old.entries)) }
{
    match reply {
        Reply::Done => put_text(members, alloc, "kind", "ok"),
        Reply::Counted(count) => {
            put_text(members, alloc, "kind", "counted")?;
            put_number(members, alloc, "count", *count)
        }
        Reply::Rows(rows) => {
            put_text(members, alloc, "kind", "rows")?;
            serde_json::put(members, alloc, "columns", names_json(alloc, told.columns)?)?;
            serde_json::put(members, alloc, "rows", rows_json(alloc, rows.items())?)
        }
        Reply::Got(rows) => {
            put_text(members, alloc, "kind", "got")?;
            let rows = got_rows_json(alloc, told.tables, rows.items())?;
            serde_json::put(members, alloc, "rows", rows)
        }
        Reply::Forgot { removed, changed } => {
            put_text(members, alloc, "kind", "forgot")?;
            put_number(members, alloc, "removed", u64::from(*removed))?;
            put_number(members, alloc, "changed", u64::from(*changed))
        }
        Reply::Graph(lines) => {
            put_text(members, alloc, "kind", "graph")?;
            serde_json::put(members, alloc, "lines", lines_json(alloc, lines.items())?)
        }
        Reply::Ended => put_text(members, alloc, "kind", "end"),
        Reply::Refused(refusal) => {
            put_text(members, alloc, "kind", "refused")?;
            serde_json::put(members, alloc, "refused", refused_json(alloc, refusal)?)
        }
    }
}

/// A reply as JSON.
#[tactic(auto, unfolding(crate::specs::Line::reply_data))]
fn reply_json(alloc: Global, told: &Told<'_>, reply: &Reply) -> Result<Json, AllocError>
    ensures { IfOk result (λ json. view json ≡ reply_data (option_map (λ place. place.0) told.now.place)
        told.now.session.0 told.now.call told.now.line told.now.columns.now told.now.tables.now reply.now) }
{
    let mut members = call_json(alloc, told)?;
    put_reply(&mut members, alloc, told, reply)?;
    Ok(Json::Object(members))
}

/// The text of JSON, and a line feed.
fn line_of(alloc: Global, json: Json) -> Result<String, AllocError>
    requires { has_float (view json) ≡ false }
    ensures { IfOk result (λ line. string_bytes line ≡ compact_text (view json) ++ 10 ∷ []) }
{
    let mut line = json.to_string(alloc)?;
    line.push('\n')?;
    Ok(line)
}

/// A reply as a line of JSON: one object, and a line feed.
pub fn json_line(alloc: Global, told: &Told<'_>, reply: &Reply) -> Result<String, AllocError>
    ensures { IfOk result (λ line. string_bytes line ≡ compact_text (reply_data (option_map (λ place. place.0) told.now.place)
        told.now.session.0 told.now.call told.now.line told.now.columns.now told.now.tables.now reply.now) ++ 10 ∷ []) }
{
    let json = reply_json(alloc, told, reply)?;
    line_of(alloc, json)
}
