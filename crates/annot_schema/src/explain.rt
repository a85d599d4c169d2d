ghost use Rattle.std.specs.Prelude.{◌≡◌, [], ◌++◌, ◌==◌, codes, filter, map, IfOk, OnOk, if◌then◌else◌};
ghost use Rattle.std.specs.Option.{option_map_or};
ghost use Rattle.schema_model.specs.Explained.{class_word, column_at, column_name, edge_line, explained, link_word, names_in, rule_text, rules_text, table_line, table_lines};
ghost use Rattle.schema_model.specs.OwnerSchema.{named_table};
ghost use Rattle.text_model.specs.Canonical.{ref_kind_word};

use crate::line::Line;
use crate::look_up::{column_at, columns_at, table_name};
use own_base::{ColumnSet, List, Name, TableNo, Text};
use own_model::{Column, Edge, RefKind, Schema, TableDef};
use row_reading::{has_column, is_private, is_subject};
use std::alloc::{AllocError, Global};

/// What a table is to data subjects.
#[tactic(auto, unfolding(schema_model::specs::Explained::class_word))]
fn class_word(schema: &Schema, table: usize) -> &'static str
    ensures { result.now ≡ class_word schema.now table }
{
    if is_subject(schema, table) {
        "subject"
    } else if is_private(schema, table) {
        "private"
    } else {
        "public"
    }
}

/// The line of a table: its name and its class.
fn table_line(
    alloc: Global,
    schema: &Schema,
    number: usize,
    table: &TableDef,
) -> Result<Text, AllocError>
    ensures { IfOk result (λ line. line ≡ table_line schema.now number table.now) }
{
    let mut line = Line::new(alloc);
    line.push(table.name.as_str())?;
    line.push(" ")?;
    line.push(class_word(schema, number))?;
    Ok(line.into_text()?)
}

/// The word of a kind of references.
#[tactic(auto, unfolding(text_model::specs::Canonical::ref_kind_word))]
fn ref_kind_word(kind: RefKind) -> &'static str
    ensures { result.now ≡ ref_kind_word kind }
{
    match kind {
        RefKind::Plain => "REFERENCES",
        RefKind::OwnedBy => "OWNED_BY",
        RefKind::Owns => "OWNS",
        RefKind::AccessedBy => "ACCESSED_BY",
        RefKind::Accesses => "ACCESSES",
    }
}

/// Writes the name of an edge's column, and how it refers.
fn push_column(line: &mut Line, schema: &Schema, edge: &Edge) -> Result<(), AllocError>
    ensures { OnOk result (line.new ≡ line.old ++ (column_name schema.now edge.now.holder.0 edge.now.column.0
        ++ (codes " " ++ option_map_or (λ column. link_word column.refers) (column_at schema.now edge.now.holder.0 edge.now.column.0) []))) }
{
    match column_at(schema, edge.holder, edge.column) {
        Some(column) => {
            line.push(column.name.as_str())?;
            line.push(" ")?;
            match &column.refers {
                Some((kind, _)) => line.push(ref_kind_word(*kind)),
                None => Ok(()),
            }
        }
        None => line.push(" "),
    }
}

/// Writes what stands before a name of a rule: a comma, or before the first one the rule's word and a bracket.
fn push_opening(line: &mut Line, word: &str, begun: bool) -> Result<(), AllocError>
    ensures { OnOk result (line.new ≡ line.old ++ (if begun then codes ", " else codes " " ++ word.now ++ codes " (")) }
{
    if begun {
        line.push(", ")
    } else {
        line.push(" ")?;
        line.push(word)?;
        line.push(" (")
    }
}

/// Writes the names of a set of columns in brackets after a rule's word, where it has any.
fn push_rule(
    line: &mut Line,
    word: &str,
    columns: &[Column],
    set: ColumnSet,
) -> Result<(), AllocError>
    ensures { OnOk result (line.new ≡ line.old ++ rule_text word.now (names_in columns.now set)) }
{
    let mut begun = false;
    for (number, column) in columns.iter().enumerate() {
        if has_column(set, number) {
            push_opening(line, word, begun)?;
            line.push(column.name.as_str())?;
            begun = true;
        }
    }
    if begun {
        line.push(")")?;
    }
    Ok(())
}

/// Writes the rules of an edge.
fn push_rules(line: &mut Line, schema: &Schema, edge: &Edge) -> Result<(), AllocError>
    ensures { OnOk result (line.new ≡ line.old ++ rules_text schema.now edge.now) }
{
    let columns = columns_at(schema, edge.lower);
    push_rule(line, "GET", columns, edge.get)?;
    push_rule(line, "DEL", columns, edge.del)?;
    if edge.strike {
        line.push(" DEL ROW")?;
    }
    Ok(())
}

/// The table that an edge's column names.
fn named_table(edge: &Edge) -> TableNo
    ensures { result ≡ named_table edge.now }
{
    if edge.holder == edge.lower {
        edge.upper
    } else {
        edge.lower
    }
}

/// The line of an edge.
#[tactic(auto, unfolding(schema_model::specs::Explained::edge_line))]
fn edge_line(alloc: Global, schema: &Schema, edge: &Edge) -> Result<Text, AllocError>
    ensures { IfOk result (λ line. line ≡ edge_line schema.now edge.now) }
{
    let mut line = Line::new(alloc);
    line.push(table_name(schema, edge.holder))?;
    line.push(".")?;
    push_column(&mut line, schema, edge)?;
    line.push(" ")?;
    line.push(table_name(schema, named_table(edge)))?;
    push_rules(&mut line, schema, edge)?;
    Ok(line.into_text()?)
}

/// Adds the lines of the edges that a table holds.
fn add_edge_lines(
    alloc: Global,
    lines: &mut List<Text>,
    schema: &Schema,
    number: usize,
) -> Result<(), AllocError>
    ensures { OnOk result (lines.new ≡ lines.old ++ map (edge_line schema.now) (filter (λ edge. edge.holder.0 == number) schema.now.edges)) }
{
    for edge in schema.edges.items() {
        if edge.holder.0 as usize == number {
            lines.add(edge_line(alloc, schema, edge)?)?;
        }
    }
    Ok(())
}

/// Adds the line of a table, and those of the edges that it holds.
fn add_table_lines(
    alloc: Global,
    lines: &mut List<Text>,
    schema: &Schema,
    number: usize,
    table: &TableDef,
) -> Result<(), AllocError>
    ensures { OnOk result (lines.new ≡ lines.old ++ table_lines schema.now (number, table.now)) }
{
    lines.add(table_line(alloc, schema, number, table)?)?;
    add_edge_lines(alloc, lines, schema, number)
}

/// The lines of EXPLAIN COMPLIANCE: for each table its name and its class, and the columns of it that give edges.
#[tactic(auto, unfolding(schema_model::specs::Explained::explained))]
pub fn explained(alloc: Global, schema: &Schema) -> Result<List<Text>, AllocError>
    ensures { IfOk result (λ lines. lines ≡ explained schema.now) }
{
    let mut lines = List::new(alloc);
    for (number, table) in schema.tables.items().iter().enumerate() {
        add_table_lines(alloc, &mut lines, schema, number, table)?;
    }
    Ok(lines)
}
