//! The parts of a CREATE TABLE by what they are, lent, each kind in the text's order.
ghost use Rattle.std.specs.Prelude.{◌≡◌, ◌++◌, IfOk, OnOk, filter_map, flat_map, map, option_map};
ghost use Rattle.schema_draft.specs.Lent.{reference_seen, rule_seen};
ghost use Rattle.schema_model.specs.Columns as spec;
ghost use Rattle.schema_model.specs.OnRules.{rule_of};
ghost use Rattle.schema_model.specs.References.{part_references, reference_after};

use crate::draft::{Effect, OnRule, Reference};
use own_base::Name;
use own_model::{Attr, ColumnDef, Part};
use std::alloc::{AllocError, Global};

/// The columns.
pub fn columns<'a>(alloc: Global, parts: &'a [Part]) -> Result<Vec<&'a ColumnDef>, AllocError>
    ensures { IfOk result (λ found. map (λ column. column.now) found.items ≡ filter_map spec.column_of parts.now) }
{
    let mut columns = Vec::new(alloc);
    for part in parts {
        if let Part::Column(column) = part {
            columns.push(column)?;
        }
    }
    Ok(columns)
}

/// Adds the column, once for each PRIMARY KEY after its kind.
fn push_keys_after<'a>(
    keys: &mut Vec<&'a Name>,
    column: &'a Name,
    attrs: &'a [Attr],
) -> Result<(), AllocError>
    ensures { OnOk result (map (λ key. key.now) keys.new.items ≡ map (λ key. key.now) keys.old.items ++ spec.keys_after column.now attrs.now) }
{
    for attr in attrs {
        if let Attr::Key = attr {
            keys.push(column)?;
        }
    }
    Ok(())
}

/// Adds the columns of a part that PRIMARY KEY is given to.
fn push_keys<'a>(keys: &mut Vec<&'a Name>, part: &'a Part) -> Result<(), AllocError>
    ensures { OnOk result (map (λ key. key.now) keys.new.items ≡ map (λ key. key.now) keys.old.items ++ spec.keys_of part.now) }
{
    match part {
        Part::Column(column) => push_keys_after(keys, &column.name, column.attrs.items()),
        Part::Key(column) => {
            keys.push(column)?;
            Ok(())
        }
        _ => Ok(()),
    }
}

/// The columns that PRIMARY KEY is given to, each as often as it is.
pub fn keys<'a>(alloc: Global, parts: &'a [Part]) -> Result<Vec<&'a Name>, AllocError>
    ensures { IfOk result (λ found. map (λ key. key.now) found.items ≡ flat_map spec.keys_of parts.now) }
{
    let mut keys = Vec::new(alloc);
    for part in parts {
        push_keys(&mut keys, part)?;
    }
    Ok(keys)
}

/// Adds the references that stand after the kind of a column.
fn push_references_after<'a>(
    references: &mut Vec<Reference<'a>>,
    column: &'a Name,
    attrs: &'a [Attr],
) -> Result<(), AllocError>
    ensures { OnOk result (map reference_seen references.new.items
        ≡ map reference_seen references.old.items ++ filter_map (reference_after column.now) attrs.now) }
{
    for attr in attrs {
        if let Attr::Refers(refers) = attr {
            references.push(Reference { column, refers })?;
        }
    }
    Ok(())
}

/// Adds those of a part.
fn push_references<'a>(
    references: &mut Vec<Reference<'a>>,
    part: &'a Part,
) -> Result<(), AllocError>
    ensures { OnOk result (map reference_seen references.new.items
        ≡ map reference_seen references.old.items ++ part_references part.now) }
{
    match part {
        Part::Column(column) => {
            push_references_after(references, &column.name, column.attrs.items())
        }
        Part::Foreign(column, refers) => {
            references.push(Reference { column, refers })?;
            Ok(())
        }
        _ => Ok(()),
    }
}

/// The references.
pub fn references<'a>(alloc: Global, parts: &'a [Part]) -> Result<Vec<Reference<'a>>, AllocError>
    ensures { IfOk result (λ found. map reference_seen found.items ≡ flat_map part_references parts.now) }
{
    let mut references = Vec::new(alloc);
    for part in parts {
        push_references(&mut references, part)?;
    }
    Ok(references)
}

/// The rule that a part is.
fn rule<'a>(part: &'a Part) -> Option<OnRule<'a>>
    ensures { option_map rule_seen result ≡ rule_of part.now }
{
    match part {
        Part::Get(column, hidden) => Some(OnRule {
            column,
            effect: Effect::Hide,
            ruled: hidden.items(),
        }),
        Part::Del(column, blanked) => Some(OnRule {
            column,
            effect: Effect::Blank,
            ruled: blanked.items(),
        }),
        Part::DelRow(column) => Some(OnRule {
            column,
            effect: Effect::Strike,
            ruled: &[],
        }),
        _ => None,
    }
}

/// The ON rules.
pub fn rules<'a>(alloc: Global, parts: &'a [Part]) -> Result<Vec<OnRule<'a>>, AllocError>
    ensures { IfOk result (λ found. map rule_seen found.items ≡ filter_map rule_of parts.now) }
{
    let mut rules = Vec::new(alloc);
    for part in parts {
        if let Some(rule) = rule(part) {
            rules.push(rule)?;
        }
    }
    Ok(rules)
}
