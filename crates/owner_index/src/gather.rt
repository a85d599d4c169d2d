ghost use Rattle.std.specs.Prelude.{◌≡◌, [], ◌∷◌, ◌++◌, IfOk, OnOk};
ghost use Rattle.link_model.specs.Whose.{as_subject};
ghost use Rattle.owner_index.specs.Gathered.{gathered, handed_by, handed_down, own_subject};
ghost use Rattle.owner_sets.specs.IsSortedSet.{IsSortedSet};

use crate::index::OwnerIndex;
use crate::upper::Upper;
use crate::which::Which;
use own_base::{List, MakeCopy, RowName, Subject};
use own_model::Schema;
use row_reading::is_subject;
use std::alloc::{AllocError, Global};

/// Adds copies of subjects.
pub(crate) fn add_copies(
    alloc: Global,
    subjects: &[Subject],
    set: &mut Vec<Subject>,
) -> Result<(), AllocError>
    ensures { OnOk result (set.new.items ≡ set.old.items ++ subjects.now) }
{
    for subject in subjects {
        set.push(subject.copy(alloc)?)?;
    }
    Ok(())
}

/// Adds a row as a subject.
fn add_itself(alloc: Global, name: &RowName, set: &mut Vec<Subject>) -> Result<(), AllocError>
    ensures { OnOk result (set.new.items ≡ set.old.items ++ as_subject name.now ∷ []) }
{
    let subject = Subject(name.copy(alloc)?);
    set.push(subject)?;
    Ok(())
}

/// Adds what an upper row hands down.
fn hand_down(
    alloc: Global,
    schema: &Schema,
    index: &OwnerIndex,
    which: Which,
    name: &RowName,
    set: &mut Vec<Subject>,
) -> Result<(), AllocError>
    ensures { OnOk result (set.new.items ≡ set.old.items ++ handed_down which schema.now index.now name.now) }
{
    if is_subject(schema, name.table.0 as usize) {
        add_itself(alloc, name, set)?;
    } else {
        add_copies(alloc, which.held(index, name), set)?;
    }
    Ok(())
}

/// What a row is by itself: a subject, where its table is one of subjects.
fn own_set(alloc: Global, schema: &Schema, name: &RowName) -> Result<Vec<Subject>, AllocError>
    ensures { IfOk result (λ set. set.items ≡ own_subject schema.now name.now) }
{
    let mut set = Vec::new(alloc);
    if is_subject(schema, name.table.0 as usize) {
        add_itself(alloc, name, &mut set)?;
    }
    Ok(set)
}

/// All that is gathered for a row, from itself and from its upper rows.
fn gathered(
    alloc: Global,
    schema: &Schema,
    index: &OwnerIndex,
    which: Which,
    name: &RowName,
    uppers: &[Upper],
) -> Result<Vec<Subject>, AllocError>
    ensures { IfOk result (λ set. set.items ≡ gathered which schema.now index.now name.now uppers.now) }
{
    let mut set = own_set(alloc, schema, name)?;
    for upper in uppers {
        if which.counts(upper) {
            hand_down(alloc, schema, index, which, &upper.name, &mut set)?;
        }
    }
    Ok(set)
}

/// The same subjects, rising, each once. Takes no memory.
pub(crate) fn as_set(subjects: Vec<Subject>) -> List<Subject>
    ensures { IsSortedSet subjects.items result }
{
    let mut subjects = subjects;
    subjects.sort_unstable();
    subjects.dedup();
    List::from_vec(subjects)
}

/// What a row has, where its upper rows have what they are to have.
pub(crate) fn set_of(
    alloc: Global,
    schema: &Schema,
    index: &OwnerIndex,
    which: Which,
    name: &RowName,
    uppers: &[Upper],
) -> Result<List<Subject>, AllocError>
    ensures { IfOk result (IsSortedSet (gathered which schema.now index.now name.now uppers.now)) }
{
    Ok(as_set(gathered(alloc, schema, index, which, name, uppers)?))
}
