//! Longer copies of lists.
ghost use Rattle.std.specs.Prelude.{◌≡◌, ◌∷◌, [], ◌++◌, IfOk};

use own_base::{List, MakeCopy};
use std::alloc::{AllocError, Global};

/// The items, and one more.
pub fn with_item<T: MakeCopy + Drop>(
    alloc: Global,
    items: &List<T>,
    item: T,
) -> Result<List<T>, AllocError>
    ensures { IfOk result (λ all. all ≡ items.now ++ item ∷ []) }
{
    let mut all = items.copy(alloc)?;
    all.add(item)?;
    Ok(all)
}

/// The items, and others after them.
pub fn with_items<T: MakeCopy + Drop>(
    alloc: Global,
    items: &List<T>,
    others: List<T>,
) -> Result<List<T>, AllocError>
    ensures { IfOk result (λ all. all ≡ items.now ++ others) }
{
    let mut all = items.copy(alloc)?.into_vec();
    let mut others = others.into_vec();
    all.append(&mut others)?;
    Ok(List::from_vec(all))
}
