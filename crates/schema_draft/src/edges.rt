//! The edges that a CREATE TABLE adds.
ghost use Rattle.std.specs.Prelude.{◌≡◌, ◌<◌, ◌≤◌, ◌+◌, ◌^◌, length, option_map, IfOk};
ghost use Rattle.std.specs.Option.{option_copied};
ghost use Rattle.schema_draft.specs.EdgeColumn.{edge_column_seen};
ghost use Rattle.schema_draft.specs.Lent.{is_effect};
ghost use Rattle.schema_model.specs.Columns.{columns_of};
ghost use Rattle.schema_model.specs.NewEdges as spec;
ghost use Rattle.schema_model.specs.NewTable.{new_table};
ghost use Rattle.schema_model.specs.OnRules.{ruled_by};

use crate::draft::{Draft, Effect};
use crate::kinds::{gives_edge, gives_ownership, is_upward};
use crate::named_table::table_at;
use crate::ruled::{is_struck, ruled_columns};
use own_base::{ColNo, ColumnSet, EdgeNo, List, Name, TableNo};
use own_model::{Column, Edge, RefKind, Schema, TableDef};
use std::alloc::{AllocError, Global};

/// What an edge is made of: the number and the name of the new table's column, and what the column refers to.
#[derive(Clone, Copy)]
struct EdgeColumn<'a> {
    column: ColNo,
    name: &'a Name,
    kind: RefKind,
    target: TableNo,
}

/// The edge that a column gives, by the column's number.
fn edge_column(number: usize, column: &Column) -> Option<EdgeColumn<'_>>
    requires { number < 2 ^ 32 }
    ensures { option_map edge_column_seen result ≡ spec.edge_column number column.now }
{
    match column.refers {
        Some((kind, target)) if gives_edge(kind) => Some(EdgeColumn {
            column: ColNo(number as u32),
            name: &column.name,
            kind,
            target,
        }),
        _ => None,
    }
}

/// The columns of an edge's lower table that the rules of an effect on a column name.
fn ruled_below(draft: &Draft, effect: Effect, column: &Name, below: Option<&TableDef>) -> ColumnSet
    ensures { result ≡ spec.set_named (option_copied below.entry) (ruled_by (is_effect effect) draft.now column.now) }
{
    match below {
        Some(table) => ruled_columns(draft, effect, column, table),
        None => ColumnSet(0),
    }
}

/// The edge of such a column.
#[tactic(auto, unfolding(schema_model::specs::NewEdges::new_edge))]
fn new_edge(
    schema: &Schema,
    draft: &Draft,
    table: &TableDef,
    number: EdgeNo,
    column: EdgeColumn,
) -> Edge
    requires made { table.now ≡ new_table schema.now draft.now }
    requires tables { length schema.now.tables < 2 ^ 32 }
    ensures { result ≡ spec.new_edge schema.now draft.now number.0 (edge_column_seen column.entry) }
{
    let itself = TableNo(schema.tables.items().len() as u32);
    let (lower, upper) = if is_upward(column.kind) {
        (itself, column.target)
    } else {
        (column.target, itself)
    };
    let below = table_at(schema, table, lower);
    Edge {
        number,
        lower,
        upper,
        holder: itself,
        column: column.column,
        owner: gives_ownership(column.kind),
        get: ruled_below(draft, Effect::Hide, column.name, below),
        del: ruled_below(draft, Effect::Blank, column.name, below),
        strike: is_struck(draft, column.name),
    }
}

/// The edges that the CREATE adds to a schema, numbered as they follow those of the schema. The table is the one that
/// it adds.
#[tactic(auto, unfolding(schema_model::specs::NewEdges::new_edges))]
pub fn new_edges(
    alloc: Global,
    schema: &Schema,
    draft: &Draft,
    table: &TableDef,
) -> Result<List<Edge>, AllocError>
    requires made { table.now ≡ new_table schema.now draft.now }
    requires tables { length schema.now.tables < 2 ^ 32 }
    requires room { length schema.now.edges + length (columns_of draft.now) ≤ 2 ^ 32 }
    ensures { IfOk result (λ edges. edges ≡ spec.new_edges schema.now draft.now) }
{
    let first = schema.edges.items().len();
    let mut edges = List::new(alloc);
    for (number, column) in table.columns.items().iter().enumerate() {
        if let Some(column) = edge_column(number, column) {
            let number = EdgeNo((first + edges.items().len()) as u32);
            edges.add(new_edge(schema, draft, table, number, column))?;
        }
    }
    Ok(edges)
}
