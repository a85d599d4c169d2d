//! The rules of primary keys: a table has one, and it is no reference.
ghost use Rattle.std.specs.Prelude.{◌≡◌, slice_get};
ghost use Rattle.std.specs.Option.{option_copied};
ghost use Rattle.schema_model.specs.Columns.{key_name};
ghost use Rattle.schema_model.specs.rules.NotOnePrimaryKey.{not_one_primary_key};
ghost use Rattle.schema_model.specs.rules.PrimaryKeysThatRefer.{primary_keys_that_refer};

use own_base::Name;
use schema_draft::Draft;

/// Rule 1: a table has PRIMARY KEY once.
#[tactic(auto, unfolding(schema_model::specs::rules::NotOnePrimaryKey::not_one_primary_key))]
pub(crate) fn not_one_primary_key<'a>(draft: &Draft<'a>) -> Option<&'a Name>
    ensures { option_copied result ≡ slice_get (not_one_primary_key draft.now) 0 }
{
    if draft.keys().len() == 1 {
        None
    } else {
        Some(&draft.create().name)
    }
}

/// The primary key's bytes, and no bytes where there is no key.
fn key_bytes<'a>(draft: &Draft<'a>) -> &'a [u8]
    ensures { result.now ≡ key_name draft.now }
{
    match draft.key_name() {
        Some(key) => key.bytes(),
        None => &[],
    }
}

/// Rule 8: a primary key is no reference.
pub(crate) fn primary_keys_that_refer<'a>(draft: &Draft<'a>) -> Option<&'a Name>
    ensures { option_copied result ≡ slice_get (primary_keys_that_refer draft.now) 0 }
{
    let key = key_bytes(draft);
    draft
        .references()
        .iter()
        .find(|reference| reference.column.bytes() == key)
        .map(|reference| reference.column)
}
