ghost use Rattle.std.specs.Prelude.{◌≡◌, ◌<◌, ◌^◌, ◌∷◌, [], ◌++◌, ℕ, Bool, bytes_eq, length, option_map, position, IfOk, IfErr};
ghost use Rattle.own_model.specs.Stored.{holds_rows};
ghost use Rattle.own_model.specs.declared.create.CreateTable.{CreateTable};
ghost use Rattle.own_model.specs.declared.reply.Reply.TheVariants as reply;
ghost use Rattle.owner_graph.specs.Graph.{IsGraphOf};
ghost use Rattle.schema_model.specs.Columns.{columns_of};
ghost use Rattle.schema_model.specs.Explained.{explained};
ghost use Rattle.schema_model.specs.Refusal.{refusal_of};
ghost use Rattle.schema_model.specs.WithTable.{with_table};
ghost use Rattle.annot_schema.specs.Created.{IsAdmissible, IsAdmitted, IsSound, created_viewed, created_with, nothing_created, schema_viewed, schema_with};
ghost use Rattle.annot_schema.specs.Reported.{IsCause};

use crate::admit::admit;
use crate::admitted::Admitted;
use crate::explain::explained;
use crate::fault::SchemaFault;
use crate::longer::{with_item, with_items};
use own_base::{List, MakeCopy, Name, TableNo, Text};
use own_model::{CreateTable, CreateText, Reply, Schema, StoreView, VIEWS, ViewDef};
use owner_graph::{Graph, graph_of};
use schema_draft::Names;
use std::alloc::{AllocError, Global};
use std::marker::Model;

/// The schema of a store, the texts of the creates that gave it, its names, and the graph of its edges. Contracts see the
/// schema and the texts.
#[derive(Drop)]
pub struct Catalog {
    schema: Schema,
    creates: List<CreateText>,
    names: Names,
    graph: Graph,
}

impl Model for Catalog {
    ghost use Rattle.std.specs.Coded.{codes};
    ghost use Rattle.own_model.specs.contracts.bound.BoundCond as condition;
    ghost use Rattle.annot_schema.specs.Created.{Created, IsCatalog};

    ghost Value = { Created };

    ghost coded = { Prim.hlevel (codes, condition.the_row.coded) };

    ghost view = { λ catalog. record { schema = catalog.schema; creates = catalog.creates } };

    ghost invariant = { λ catalog. IsCatalog catalog.names catalog.graph catalog.schema };
}

/// The schema with a table and its edges at the end.
fn schema_with(alloc: Global, schema: &Schema, admitted: Admitted) -> Result<Schema, AllocError>
    ensures { IfOk result (λ all. all ≡ schema_with schema.now admitted) }
{
    let Admitted { table, edges } = admitted;
    let tables = with_item(alloc, &schema.tables, table)?;
    let views = schema.views.copy(alloc)?;
    let edges = with_items(alloc, &schema.edges, edges)?;
    Ok(Schema {
        tables,
        views,
        edges,
    })
}

/// The schema with a view at the end.
fn schema_viewed(alloc: Global, schema: &Schema, view: ViewDef) -> Result<Schema, AllocError>
    ensures { IfOk result (λ all. all ≡ schema_viewed schema.now view) }
{
    let tables = schema.tables.copy(alloc)?;
    let views = with_item(alloc, &schema.views, view)?;
    let edges = schema.edges.copy(alloc)?;
    Ok(Schema {
        tables,
        views,
        edges,
    })
}

impl Catalog {
    /// No create yet. Takes no memory.
    pub fn new(alloc: Global) -> Catalog
        ensures { result ≡ nothing_created }
    {
        Catalog {
            schema: Schema {
                tables: List::new(alloc),
                views: List::new(alloc),
                edges: List::new(alloc),
            },
            creates: List::new(alloc),
            names: Names::new(alloc),
            graph: Graph::new(alloc),
        }
    }

    /// Lends the schema. Takes no memory.
    pub fn schema(&self) -> &Schema
        ensures same { result.now ≡ self.now.schema }
        ensures sound { IsSound self.now.schema }
    {
        &self.schema
    }

    /// Lends the texts of the creates, in order. Takes no memory.
    pub fn creates(&self) -> &[CreateText]
        ensures { result.now ≡ self.now.creates }
    {
        self.creates.items()
    }

    /// Lends the graph of the schema's edges. Takes no memory.
    pub fn graph(&self) -> &Graph
        ensures { IsGraphOf (length self.now.schema.tables) self.now.schema.edges result.now }
    {
        &self.graph
    }

    /// The number of the table of this name. Takes no memory.
    pub fn table(&self, name: &Name) -> Option<TableNo>
        ensures { option_map (λ number. number.0) result ≡ position (λ table. bytes_eq table.name name.now) self.now.schema.tables }
    {
        self.names.table(name)
    }

    /// The answer to EXPLAIN COMPLIANCE.
    pub fn explain(&self, alloc: Global) -> Result<Reply, AllocError>
        ensures { IfOk result (λ shown. shown ≡ reply.Graph (explained self.now.schema)) }
    {
        Ok(Reply::Graph(explained(alloc, &self.schema)?))
    }

    /// The table and the edges that a CREATE TABLE adds, where it is admitted over the rows that the view has; else the
    /// first cause for which it isn't.
    pub fn admit<V: StoreView>(
        &self,
        alloc: Global,
        view: &V,
        create: &CreateTable,
    ) -> Result<Admitted, SchemaFault>
        requires viewed { (V.db view.now).schema ≡ self.now.schema }
        requires columns { length (columns_of create.now) < 2 ^ 31 }
        ensures admitted { IfOk result (IsAdmitted self.now.schema (holds_rows (V.db view.now).rows) create.now) }
        ensures admissible { IfOk result (IsAdmissible self.now.schema) }
        ensures refused { IfErr result (IsCause (refusal_of self.now.schema (holds_rows (V.db view.now).rows) create.now)) }
    {
        admit(alloc, view, &self.schema, &self.names, create)
    }

    /// This catalog with a table and edges that were admitted over its schema, and with the text of their create.
    pub fn with_table(
        &self,
        alloc: Global,
        admitted: Admitted,
        text: Text,
    ) -> Result<Catalog, AllocError>
        requires { IsAdmissible self.now.schema admitted }
        ensures whole { IfOk result (λ catalog. catalog ≡ created_with self.now admitted text) }
        ensures schema { IfOk result (λ catalog. (holds_rows : ℕ → Bool) (create : CreateTable)
            → IsAdmitted self.now.schema holds_rows create admitted → catalog.schema ≡ with_table self.now.schema create) }
    {
        let schema = schema_with(alloc, &self.schema, admitted)?;
        let creates = with_item(alloc, &self.creates, CreateText { view: false, text })?;
        let names = Names::of(alloc, &schema)?;
        let graph = graph_of(alloc, &schema)?;
        Ok(Catalog {
            schema,
            creates,
            names,
            graph,
        })
    }
    /// This catalog with a view at the end, and with the text of its create. There is room for one view more.
    pub fn with_view(&self, alloc: Global, view: ViewDef, text: Text) -> Result<Catalog, AllocError>
        requires { length self.now.schema.views < VIEWS }
        ensures { IfOk result (λ catalog. catalog ≡ created_viewed self.now view text) }
    {
        let schema = schema_viewed(alloc, &self.schema, view)?;
        let creates = with_item(alloc, &self.creates, CreateText { view: true, text })?;
        let names = Names::of(alloc, &schema)?;
        let graph = graph_of(alloc, &schema)?;
        Ok(Catalog {
            schema,
            creates,
            names,
            graph,
        })
    }
}
