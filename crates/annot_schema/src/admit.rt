//! Whether a CREATE TABLE is admitted over a schema.
ghost use Rattle.std.specs.Prelude.{◌≡◌, ◌<◌, ◌^◌, length, None, IfOk, IfErr};
ghost use Rattle.std.specs.Option.{option_or};
ghost use Rattle.own_model.specs.Stored.{holds_rows};
ghost use Rattle.own_model.specs.declared.schema.Schema.{Schema as Tables};
ghost use Rattle.schema_draft.specs.Names.{AreNamesOf};
ghost use Rattle.schema_model.specs.Columns.{columns_of};
ghost use Rattle.schema_model.specs.NewEdges as edges_spec;
ghost use Rattle.schema_model.specs.NewTable as table_spec;
ghost use Rattle.schema_model.specs.Refusal.{broken, closed, first_broken, owned_rows, past_limits, refusal_of, taken};
ghost use Rattle.annot_schema.specs.Created.{IsAdmitted, IsSound};
ghost use Rattle.annot_schema.specs.Reported.{IsCause, Tells};

use crate::admitted::Admitted;
use crate::fault::SchemaFault;
use crate::limits::check_limits;
use crate::rows::check_rows;
use crate::walks::check_walks;
use own_base::{List, MakeCopy};
use own_model::{CreateTable, Edge, Schema, StoreView, TableDef};
use schema_draft::{Draft, Names, new_edges, new_table};
use schema_rules::{Broken, broken_rule};
use std::alloc::Global;

/// Refuses a CREATE TABLE whose name is taken.
fn check_name(alloc: Global, names: &Names, create: &CreateTable) -> Result<(), SchemaFault>
    ensures { (schema : Tables) → AreNamesOf names.now schema → Tells (taken schema create.now) result }
{
    if names.is_taken(&create.name) {
        Err(SchemaFault::NameTaken(create.name.copy(alloc)?))
    } else {
        Ok(())
    }
}

/// Refuses a CREATE TABLE that breaks a rule.
fn check_rules(
    alloc: Global,
    schema: &Schema,
    names: &Names,
    draft: &Draft<'_>,
    table: &TableDef,
) -> Result<(), SchemaFault>
    requires named { AreNamesOf names.now schema.now }
    requires made { table.now ≡ table_spec.new_table schema.now draft.now }
    ensures { Tells (first_broken 1 (broken schema.now draft.now)) result }
{
    match broken_rule(schema, names, draft, table) {
        Some(Broken { rule, name }) => Err(SchemaFault::BadSchema {
            rule,
            name: name.copy(alloc)?,
        }),
        None => Ok(()),
    }
}

/// Refuses a CREATE TABLE that breaks no rule, for its edges, for the rows of tables that it would own, or for a limit.
fn check_additions<V: StoreView>(
    alloc: Global,
    view: &V,
    schema: &Schema,
    names: &Names,
    draft: &Draft<'_>,
    edges: &List<Edge>,
) -> Result<(), SchemaFault>
    requires viewed { (V.db view.now).schema ≡ schema.now }
    requires named { AreNamesOf names.now schema.now }
    requires sound { IsSound schema.now }
    requires unbroken { first_broken 1 (broken schema.now draft.now) ≡ None }
    requires new { edges.now ≡ edges_spec.new_edges schema.now draft.now }
    ensures { Tells (option_or (closed schema.now draft.now)
        (option_or (owned_rows schema.now (holds_rows (V.db view.now).rows) draft.now) (past_limits schema.now draft.now))) result }
{
    check_walks(alloc, schema, draft.create(), edges)?;
    check_rows(alloc, view, names, draft)?;
    check_limits(schema, draft)
}

/// The table and the edges of a CREATE TABLE, where it is admitted over the schema. The names are those of the schema, and
/// the view is of it.
#[tactic(auto, unfolding(schema_model::specs::Refusal::refusal_of))]
pub fn admit<V: StoreView>(
    alloc: Global,
    view: &V,
    schema: &Schema,
    names: &Names,
    create: &CreateTable,
) -> Result<Admitted, SchemaFault>
    requires viewed { (V.db view.now).schema ≡ schema.now }
    requires named { AreNamesOf names.now schema.now }
    requires sound { IsSound schema.now }
    requires columns { length (columns_of create.now) < 2 ^ 31 }
    ensures admitted { IfOk result (IsAdmitted schema.now (holds_rows (V.db view.now).rows) create.now) }
    ensures refused { IfErr result (IsCause (refusal_of schema.now (holds_rows (V.db view.now).rows) create.now)) }
{
    check_name(alloc, names, create)?;
    let draft = Draft::of(alloc, create)?;
    let table = new_table(alloc, schema, names, &draft)?;
    check_rules(alloc, schema, names, &draft, &table)?;
    let edges = new_edges(alloc, schema, &draft, &table)?;
    check_additions(alloc, view, schema, names, &draft, &edges)?;
    Ok(Admitted { table, edges })
}
