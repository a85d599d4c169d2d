//! The rules of owners: nobody owns a data subject, a public table owns nothing, and what owns has an owner.
ghost use Rattle.std.specs.Prelude.{◌≡◌, slice_get};
ghost use Rattle.std.specs.Option.{option_copied};
ghost use Rattle.schema_draft.specs.Lent.{reference_seen};
ghost use Rattle.schema_model.specs.rules.OwnedByPublic as public_spec;
ghost use Rattle.schema_model.specs.rules.OwnedByPublic.{owned_by_public};
ghost use Rattle.schema_model.specs.rules.OwnedSubjects as subject_spec;
ghost use Rattle.schema_model.specs.rules.OwnedSubjects.{owned_subjects};
ghost use Rattle.schema_model.specs.rules.OwnersWithoutOwner as owner_spec;
ghost use Rattle.schema_model.specs.rules.OwnersWithoutOwner.{owners_without_owner};

use crate::scene::Scene;
use own_base::Name;
use row_reading::is_same_name;
use schema_draft::{Draft, Reference, is_downward, is_owned_by, is_owns, is_upward};

/// Whether a reference is OWNED_BY in a table of data subjects, or OWNS of one.
fn owns_subjects(scene: &Scene, reference: &Reference) -> bool
    ensures { result ≡ subject_spec.owns_subjects scene.now.schema.now scene.now.draft.now (reference_seen reference.now) }
{
    let kind = reference.refers.kind;
    (is_owned_by(kind) && scene.draft.create().subject)
        || (is_owns(kind) && scene.names_subjects(reference))
}

/// Rule 9: nobody owns a data subject.
pub(crate) fn owned_subjects<'a>(scene: &Scene<'_, 'a>) -> Option<&'a Name>
    ensures { option_copied result ≡ slice_get (owned_subjects scene.now.schema.now scene.now.draft.now) 0 }
{
    scene
        .draft
        .references()
        .iter()
        .find(|reference| owns_subjects(scene, reference))
        .map(|reference| reference.column)
}

/// Whether a reference is OWNED_BY or ACCESSED_BY and names a table that is public before the CREATE, other than the
/// new one.
fn is_owned_by_public(scene: &Scene, reference: &Reference) -> bool
    ensures { result ≡ public_spec.is_owned_by_public scene.now.schema.now scene.now.draft.now (reference_seen reference.now) }
{
    let refers = reference.refers;
    is_upward(refers.kind)
        && !is_same_name(&refers.table, &scene.draft.create().name)
        && scene.is_public(&refers.table)
}

/// Rule 10: OWNED_BY and ACCESSED_BY name no public table.
pub(crate) fn owned_by_public<'a>(scene: &Scene<'_, 'a>) -> Option<&'a Name>
    ensures { option_copied result ≡ slice_get (owned_by_public scene.now.schema.now scene.now.draft.now) 0 }
{
    scene
        .draft
        .references()
        .iter()
        .find(|reference| is_owned_by_public(scene, reference))
        .map(|reference| reference.column)
}

/// Whether the table's rows are data subjects, or have an OWNED_BY column.
fn may_own(draft: &Draft) -> bool
    ensures { result ≡ owner_spec.may_own draft.now }
{
    draft.create().subject
        || draft
            .references()
            .iter()
            .any(|reference| is_owned_by(reference.refers.kind))
}

/// Rule 11: OWNS and ACCESSES stand in a table of data subjects, or in one that has an OWNED_BY column.
pub(crate) fn owners_without_owner<'a>(draft: &Draft<'a>) -> Option<&'a Name>
    ensures { option_copied result ≡ slice_get (owners_without_owner draft.now) 0 }
{
    if may_own(draft) {
        return None;
    }
    draft
        .references()
        .iter()
        .find(|reference| is_downward(reference.refers.kind))
        .map(|reference| reference.column)
}
