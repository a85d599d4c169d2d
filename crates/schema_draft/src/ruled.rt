//! The columns that the ON rules of a CREATE TABLE name.
ghost use Rattle.std.specs.Prelude.{◌≡◌, ◌++◌, ◌==◌, ℕ, Bool, [], List, Some, ◌&&◌, ◌||◌, bytes_eq, if◌then◌else◌};
ghost use Rattle.std.specs.List.{list_any};
ghost use Rattle.std.specs.Option.{option_copied};
ghost use Rattle.owner_model.specs.ColumnSets.{set_of};
ghost use Rattle.schema_draft.specs.Lent.{effect_seen, is_effect};
ghost use Rattle.schema_model.specs.Columns.{NameBytes};
ghost use Rattle.schema_model.specs.NewEdges.{set_named};
ghost use Rattle.schema_model.specs.OnRules.{is_strike, rules_of, ruled_by};

use crate::draft::{Draft, Effect, OnRule};
use own_base::{ColumnSet, Name};
use own_model::{TABLE_COLUMNS, TableDef};
use row_reading::{is_among, is_same_name};

/// Whether two effects are one.
fn is_same_effect(one: Effect, other: Effect) -> bool
    ensures { result ≡ is_effect one (effect_seen other) }
{
    match one {
        Effect::Hide => matches!(other, Effect::Hide),
        Effect::Blank => matches!(other, Effect::Blank),
        Effect::Strike => matches!(other, Effect::Strike),
    }
}

/// Whether a rule has this effect and stands on this column.
fn stands_on(rule: &OnRule, effect: Effect, column: &Name) -> bool
    ensures { result ≡ (is_effect effect (effect_seen rule.now.effect) && bytes_eq rule.now.column.now column.now) }
{
    is_same_effect(effect, rule.effect) && is_same_name(rule.column, column)
}

/// The set with a column more, where it is wanted. A column past the last that a set can have is in none.
fn with_column(set: ColumnSet, number: usize, wanted: bool) -> ColumnSet
    ensures { (had : ℕ → Bool) → set ≡ set_of had → result ≡ set_of (λ other. had other || (wanted && other == number)) }
{
    if wanted && number < TABLE_COLUMNS {
        ColumnSet(set.0 | 1 << number)
    } else {
        set
    }
}

/// The columns of a table that have one of these names.
fn columns_named(table: &TableDef, names: &[Name]) -> ColumnSet
    ensures { result ≡ set_named (Some table.now) names.now }
{
    let mut set = ColumnSet(0);
    for (number, column) in table.columns.items().iter().enumerate() {
        set = with_column(set, number, is_among(names, &column.name));
    }
    set
}

/// The set with the columns of a table that a rule names, where the rule has this effect and stands on this column.
fn with_rule(
    set: ColumnSet,
    table: &TableDef,
    rule: &OnRule,
    effect: Effect,
    column: &Name,
) -> ColumnSet
    ensures { (before : List NameBytes) → set ≡ set_named (Some table.now) before
        → result ≡ set_named (Some table.now) (before ++ (if is_effect effect (effect_seen rule.now.effect) && bytes_eq rule.now.column.now column.now then rule.now.ruled.now else [])) }
{
    if stands_on(rule, effect, column) {
        ColumnSet(set.0 | columns_named(table, rule.ruled).0)
    } else {
        set
    }
}

/// The columns of a table that the rules of an effect on a column name.
pub fn ruled_columns(draft: &Draft, effect: Effect, column: &Name, table: &TableDef) -> ColumnSet
    ensures { result ≡ set_named (Some table.now) (ruled_by (is_effect effect) draft.now column.now) }
{
    let mut set = ColumnSet(0);
    for rule in draft.rules() {
        set = with_rule(set, table, rule, effect, column);
    }
    set
}

/// Whether DELETE_ROW stands on a column.
pub fn is_struck(draft: &Draft, column: &Name) -> bool
    ensures { result ≡ list_any (λ rule. is_strike rule.effect && bytes_eq rule.column column.now) (rules_of draft.now) }
{
    draft
        .rules()
        .iter()
        .any(|rule| stands_on(rule, Effect::Strike, column))
}
