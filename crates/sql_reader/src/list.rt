ghost use Rattle.std.specs.Prelude.{◌≡◌, [], ◌∷◌, IfOk};

use own_base::List;
use std::alloc::{AllocError, Global};

/// The list of one item.
pub fn list_of_one<T: Drop>(alloc: Global, item: T) -> Result<List<T>, AllocError>
    ensures { IfOk result (λ list. list ≡ item ∷ []) }
{
    let mut list = List::new(alloc);
    list.add(item)?;
    Ok(list)
}
