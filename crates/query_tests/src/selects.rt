//! The reply to a select over a small store.

ghost use Rattle.std.specs.Prelude.{◌≡◌, ◌<◌, false, length, MatchBool, ⊤};
ghost use Rattle.std.specs.List.{AllByRecursion};
ghost use Rattle.query_eval.specs.Sources.{IsBaseOf};
ghost use Rattle.query_eval.specs.Views.{AreViewsThere, ReadsTables};
ghost use Rattle.readable_model.specs.Sources.{IsThere};

use crate::small::{Shown, Small};
use crate::tables::are_tables;
use own_base::TableNo;
use own_model::{BoundSelect, Reply, Schema, Source1, ViewDef};
use query_eval::select_reply;
use std::process::Abort;

fn is_there(schema: &Schema, table: TableNo) -> bool
    ensures { MatchBool result (table.0 < length schema.now.tables) ⊤ }
{
    (table.0 as usize) < schema.tables.items().len()
}

/// Whether a source is a table that is there, or two.
fn is_base_of(schema: &Schema, source: &Source1) -> bool
    ensures { MatchBool result (IsBaseOf schema.now source.now) ⊤ }
{
    match source {
        Source1::Table(table) => is_there(schema, *table),
        Source1::Pair { left, right, .. } => is_there(schema, *left) && is_there(schema, *right),
        Source1::View(_) => false,
    }
}

/// Whether each of these views reads tables that are there.
fn read_tables(schema: &Schema, views: &[ViewDef]) -> bool
    ensures { MatchBool result (AllByRecursion (ReadsTables schema.now) views.now) ⊤ }
{
    match views.split_first() {
        Some((view, rest)) => {
            is_base_of(schema, &view.query.source) && read_tables(schema, rest)
        }
        None => true,
    }
}

/// Whether each view reads tables that are there.
pub fn are_views_there(schema: &Schema) -> bool
    ensures { MatchBool result (AreViewsThere schema.now) ⊤ }
{
    read_tables(schema, schema.views.items())
}

/// Whether the source of a select is there.
pub fn is_source_there(schema: &Schema, query: &BoundSelect) -> bool
    ensures { MatchBool result (IsThere schema.now query.now) ⊤ }
{
    match &query.source {
        Source1::Table(table) => is_there(schema, *table),
        Source1::Pair { left, right, .. } => is_there(schema, *left) && is_there(schema, *right),
        Source1::View(view) => { (view.0 as usize) < schema.views.items().len() && !query.grouped }
    }
}

/// The reply to a select.
pub fn reply_to(rt: &(impl Abort + AllocGlobal), small: &Small, query: &BoundSelect) -> Reply {
    assert!(rt; are_tables(small));
    assert!(rt; are_views_there(&small.schema));
    assert!(rt; is_source_there(&small.schema, query));
    let shown = Shown { small };
    select_reply(rt.alloc(), &shown, query).expect(rt, "memory")
}
