ghost use Rattle.std.specs.Prelude.{IfOk, filter};
ghost use Rattle.owner_index.specs.Names.{AreTidied, HasSame, is_of};

use own_base::{List, MakeCopy, RowName, TableNo};
use std::alloc::{AllocError, Global};

/// The same names, rising, each once. Takes no memory.
fn tidied(names: Vec<RowName>) -> List<RowName>
    ensures { AreTidied names.items result }
{
    let mut names = names;
    names.sort_unstable();
    names.dedup();
    List::from_vec(names)
}

/// The names of a table among these, each once, from the last to the first: what goes from a page's end goes in place, and what
/// goes from its beginning doesn't.
pub(crate) fn names_of(
    alloc: Global,
    table: TableNo,
    names: &[RowName],
) -> Result<List<RowName>, AllocError>
    ensures { IfOk result (HasSame (filter (is_of table) names.now)) }
{
    let mut own = Vec::new(alloc);
    for name in names {
        if name.table == table {
            own.push(name.copy(alloc)?)?;
        }
    }
    let mut falling = tidied(own).into_vec();
    falling.reverse();
    Ok(List::from_vec(falling))
}

/// All of these, rising, each once.
pub(crate) fn all_names(names: List<RowName>) -> List<RowName>
    ensures { AreTidied names result }
{
    tidied(names.into_vec())
}
