//! The rules of ON rules: they stand on edges, once for each kind, and name columns that may be ruled.
ghost use Rattle.std.specs.Prelude.{◌≡◌, ◌||◌, bytes_eq, is_none, map, position, slice_get};
ghost use Rattle.std.specs.Option.{option_copied};
ghost use Rattle.schema_draft.specs.Lent.{effect_seen, reference_seen, rule_seen};
ghost use Rattle.schema_model.specs.OnRules as on;
ghost use Rattle.schema_model.specs.OnRules.{edge_on};
ghost use Rattle.schema_model.specs.rules.ColumnsNotToRule as ruled;
ghost use Rattle.schema_model.specs.rules.ColumnsNotToRule.{columns_not_to_rule};
ghost use Rattle.schema_model.specs.rules.MisplacedRules as placed;
ghost use Rattle.schema_model.specs.rules.MisplacedRules.{misplaced_rules};
ghost use Rattle.schema_model.specs.rules.RowsStruckByAccess as struck;
ghost use Rattle.schema_model.specs.rules.RowsStruckByAccess.{rows_struck_by_access};

use crate::scene::Scene;
use own_base::Name;
use own_model::{Column, TableDef};
use row_reading::is_same_name;
use schema_draft::{Draft, Effect, OnRule, Reference, gives_edge, gives_ownership, is_upward};

/// Whether both are ON GET, or both ON DEL.
fn are_of_one_kind(one: Effect, other: Effect) -> bool
    ensures { result ≡ on.are_of_one_kind (effect_seen one) (effect_seen other) }
{
    match one {
        Effect::Hide => matches!(other, Effect::Hide),
        Effect::Blank | Effect::Strike => matches!(other, Effect::Blank | Effect::Strike),
    }
}

/// Whether one of these rules is of the kind of another, GET or DEL, on its column.
fn repeats_one_of(before: &[OnRule], rule: &OnRule) -> bool
    ensures { result ≡ placed.repeats_one_of (map rule_seen before.now) (rule_seen rule.now) }
{
    before.iter().any(|other| {
        are_of_one_kind(other.effect, rule.effect) && is_same_name(other.column, rule.column)
    })
}

/// Whether a rule stands on no edge, or repeats one of those before it.
fn is_misplaced(draft: &Draft, before: &[OnRule], rule: &OnRule) -> bool
    ensures { result ≡ (is_none (edge_on draft.now rule.now.column.now)
        || placed.repeats_one_of (map rule_seen before.now) (rule_seen rule.now)) }
{
    draft.edge_on(rule.column).is_none() || repeats_one_of(before, rule)
}

/// Rule 12: an ON rule stands on a column that gives an edge, and a column has one of each kind at most.
pub(crate) fn misplaced_rules<'a>(draft: &Draft<'a>) -> Option<&'a Name>
    ensures { option_copied result ≡ slice_get (misplaced_rules draft.now) 0 }
{
    let rules = draft.rules();
    for (index, rule) in rules.iter().enumerate() {
        if is_misplaced(draft, &rules[..index], rule) {
            return Some(rule.column);
        }
    }
    None
}

/// Whether a column gives an edge.
fn has_edge(column: &Column) -> bool
    ensures { result ≡ ruled.has_edge column.now }
{
    match column.refers {
        Some((kind, _)) => gives_edge(kind),
        None => false,
    }
}

/// Whether the column of this number may be ruled: it isn't the primary key and has no edge.
fn is_open(table: &TableDef, number: usize) -> bool
    ensures { result ≡ ruled.is_open table.now number }
{
    number != table.key.0 as usize
        && table
            .columns
            .items()
            .get(number)
            .is_some_and(|column| !has_edge(column))
}

/// The number of the first column of this name.
fn column_number(table: &TableDef, name: &Name) -> Option<usize>
    ensures { result ≡ position (λ column. bytes_eq column.name name.now) table.now.columns }
{
    table
        .columns
        .items()
        .iter()
        .position(|column| is_same_name(&column.name, name))
}

/// Whether a table has a column of this name that may be ruled.
fn has_open_column(table: &TableDef, name: &Name) -> bool
    ensures { result ≡ ruled.has_open_column name.now table.now }
{
    column_number(table, name).is_some_and(|number| is_open(table, number))
}

/// The lower table of the edge that a reference gives: the new one, or the one that it names.
fn lower_table<'s>(scene: &Scene<'s, '_>, reference: &Reference) -> Option<&'s TableDef>
    ensures { option_copied result ≡ ruled.lower_table scene.now.schema.now scene.now.draft.now (reference_seen reference.now) }
{
    if is_upward(reference.refers.kind) {
        Some(scene.table)
    } else {
        scene.target(reference.refers)
    }
}

/// Whether a rule on this reference's column may name its own column.
fn may_rule_itself(scene: &Scene, reference: &Reference) -> bool
    ensures { result ≡ ruled.may_rule_itself scene.now.schema.now scene.now.draft.now (reference_seen reference.now) }
{
    is_upward(reference.refers.kind) && scene.names_subjects(reference)
}

/// Whether a rule on this reference's column may name a column.
fn may_rule(scene: &Scene, reference: &Reference, name: &Name) -> bool
    ensures { result ≡ ruled.may_rule scene.now.schema.now scene.now.draft.now (reference_seen reference.now) name.now }
{
    lower_table(scene, reference).is_some_and(|table| has_open_column(table, name))
        || (is_same_name(name, reference.column) && may_rule_itself(scene, reference))
}

/// The first column that a rule names and may not.
fn not_to_rule_by<'a>(scene: &Scene<'_, 'a>, rule: &OnRule<'a>) -> Option<&'a Name>
    ensures { option_copied result ≡ slice_get (ruled.not_to_rule_by scene.now.schema.now scene.now.draft.now (rule_seen rule.now)) 0 }
{
    match scene.draft.edge_on(rule.column) {
        Some(reference) => rule
            .ruled
            .iter()
            .find(|name| !may_rule(scene, &reference, name)),
        None => None,
    }
}

/// Rule 13: an ON rule names columns of its edge's lower table that are neither its primary key nor have an edge. Its
/// own column it may name where that is OWNED_BY or ACCESSED_BY a table of data subjects.
pub(crate) fn columns_not_to_rule<'a>(scene: &Scene<'_, 'a>) -> Option<&'a Name>
    ensures { option_copied result ≡ slice_get (columns_not_to_rule scene.now.schema.now scene.now.draft.now) 0 }
{
    for rule in scene.draft.rules() {
        if let Some(name) = not_to_rule_by(scene, rule) {
            return Some(name);
        }
    }
    None
}

/// Whether a rule is DELETE_ROW on a column that gives access alone.
fn strikes_by_access(draft: &Draft, rule: &OnRule) -> bool
    ensures { result ≡ struck.strikes_by_access draft.now (rule_seen rule.now) }
{
    rule.effect == Effect::Strike
        && draft
            .edge_on(rule.column)
            .is_some_and(|reference| !gives_ownership(reference.refers.kind))
}

/// Rule 14: DELETE_ROW stands on a column that gives ownership.
pub(crate) fn rows_struck_by_access<'a>(draft: &Draft<'a>) -> Option<&'a Name>
    ensures { option_copied result ≡ slice_get (rows_struck_by_access draft.now) 0 }
{
    draft
        .rules()
        .iter()
        .find(|rule| strikes_by_access(draft, rule))
        .map(|rule| rule.column)
}
