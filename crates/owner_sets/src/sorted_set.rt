ghost use Rattle.std.specs.Prelude.{◌≡◌, ℕ, ◌<◌, [], IfOk, length, slice_index_or};
ghost use Rattle.owner_sets.specs.IsSortedSet.{IsSortedSet};

use own_base::{List, Subject};
use std::alloc::{AllocError, Global};

/// The same subjects, rising, each once. Takes no memory.
fn as_set(subjects: List<Subject>) -> List<Subject>
    ensures { IsSortedSet subjects result }
{
    let mut subjects = subjects.into_vec();
    subjects.sort_unstable();
    subjects.dedup();
    List::from_vec(subjects)
}

/// Each list as a set.
pub(crate) fn as_sets(
    alloc: Global,
    lists: Vec<List<Subject>>,
) -> Result<List<List<Subject>>, AllocError>
    ensures { IfOk result (λ sets. (place : ℕ) → IsSortedSet (slice_index_or lists.items place []) (slice_index_or sets place [])) }
{
    let mut sets = List::new(alloc);
    for list in lists {
        sets.add(as_set(list))?;
    }
    Ok(sets)
}
