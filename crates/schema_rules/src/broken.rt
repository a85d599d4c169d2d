ghost use Rattle.std.specs.Prelude.{◌≡◌, ◌-◌, ◌<◌, [], option_map, slice_get, slice_index_or};
ghost use Rattle.std.specs.Option.{option_copied};
ghost use Rattle.schema_draft.specs.Names.{AreNamesOf};
ghost use Rattle.schema_model.specs.NewTable.{new_table};
ghost use Rattle.schema_model.specs.Refusal.{broken, first_broken};
ghost use Rattle.schema_rules.specs.Broken.{broken_seen};

use crate::scene::Scene;
use crate::{columns, keys, on_rules, owners, references};
use own_base::Name;
use own_model::{Schema, TableDef};
use schema_draft::{Draft, Names};

/// A rule that a CREATE TABLE breaks, and the first name that breaks it.
#[derive(Clone, Copy, Debug)]
pub struct Broken<'a> {
    pub rule: u32,
    pub name: &'a Name,
}

/// How many rules there are, numbered from 1.
const RULES: u32 = 14;

/// The first name that breaks the rule of this number.
#[tactic(auto, unfolding(schema_model::specs::Refusal::broken))]
fn first_to_break<'a>(scene: &Scene<'_, 'a>, rule: u32) -> Option<&'a Name>
    requires { 0 < rule }
    ensures { option_copied result ≡ slice_get (slice_index_or (broken scene.now.schema.now scene.now.draft.now) (rule - 1) []) 0 }
{
    let draft = scene.draft;
    match rule {
        1 => keys::not_one_primary_key(draft),
        2 => columns::repeated_columns(draft),
        3 => columns::missing_columns(draft),
        4 => references::second_references(draft),
        5 => references::missing_tables(scene),
        6 => references::past_the_key(scene),
        7 => references::unequal_kinds(scene),
        8 => keys::primary_keys_that_refer(draft),
        9 => owners::owned_subjects(scene),
        10 => owners::owned_by_public(scene),
        11 => owners::owners_without_owner(draft),
        12 => on_rules::misplaced_rules(draft),
        13 => on_rules::columns_not_to_rule(scene),
        14 => on_rules::rows_struck_by_access(draft),
        _ => None,
    }
}

/// The first rule that the CREATE breaks over the schema, and the first name that breaks it; none where it breaks no
/// rule. The table is the one that the CREATE adds.
pub fn broken_rule<'a>(
    schema: &Schema,
    names: &Names,
    draft: &Draft<'a>,
    table: &TableDef,
) -> Option<Broken<'a>>
    requires named { AreNamesOf names.now schema.now }
    requires made { table.now ≡ new_table schema.now draft.now }
    ensures { option_map broken_seen result ≡ first_broken 1 (broken schema.now draft.now) }
{
    let scene = Scene {
        schema,
        names,
        draft,
        table,
    };
    for rule in 1..=RULES {
        if let Some(name) = first_to_break(&scene, rule) {
            return Some(Broken { rule, name });
        }
    }
    None
}
