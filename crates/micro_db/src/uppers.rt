ghost use Rattle.std.specs.Prelude.{◌≡◌, ◌≢◌, [], ◌∷◌, Contains, IfOk, IsSome, Some};
ghost use Rattle.owner_model.specs.Joins.{row_of};
ghost use Rattle.schema_model.specs.OwnerSchema.{IsOwnerSchema};
ghost use Rattle.micro_db.specs.Uppers.{AreUppersAlong};

use crate::referrers::referrers;
use crate::rows::{is_there, row_named};
use link_model::Linked;
use own_base::{List, Row, RowName};
use own_model::Edge;
use std::alloc::{AllocError, Global};

/// A list of one name.
fn lone(alloc: Global, name: RowName) -> Result<List<RowName>, AllocError>
    ensures { IfOk result (λ names. names ≡ name ∷ []) }
{
    let mut names = List::new(alloc);
    names.add(name)?;
    Ok(names)
}

/// The row that the edge's column names, where the lower rows hold the column and the row is there.
fn named_above<N: Linked>(
    alloc: Global,
    after: &N,
    edge: &Edge,
    name: &RowName,
    row: &Row,
) -> Result<List<RowName>, AllocError>
    requires among { Contains (N.db after.now).schema.edges edge.now }
    requires of_lower { name.now.table ≡ edge.now.lower }
    requires held { edge.now.holder ≡ edge.now.lower }
    requires row { row_of (N.db after.now) name.now ≡ Some row.now }
    ensures { IfOk result (AreUppersAlong (N.db after.now) name.now edge.now) }
{
    match row_named(alloc, edge.upper, row.get(edge.column))? {
        Some(upper) if is_there(after, &upper) => lone(alloc, upper),
        _ => Ok(List::new(alloc)),
    }
}

/// The rows whose column names the row, where the upper rows hold the column.
fn naming_above<N: Linked>(
    alloc: Global,
    after: &N,
    edge: &Edge,
    name: &RowName,
) -> Result<List<RowName>, AllocError>
    requires owner { IsOwnerSchema (N.db after.now).schema }
    requires among { Contains (N.db after.now).schema.edges edge.now }
    requires of_lower { name.now.table ≡ edge.now.lower }
    requires held { edge.now.holder ≢ edge.now.lower }
    requires there { IsSome (row_of (N.db after.now) name.now) }
    ensures { IfOk result (AreUppersAlong (N.db after.now) name.now edge.now) }
{
    referrers(alloc, after, edge.holder, edge.column, &name.key)
}

/// The rows to which an edge leads up from a row of its lower table.
pub(crate) fn uppers_along<N: Linked>(
    alloc: Global,
    after: &N,
    edge: &Edge,
    name: &RowName,
    row: &Row,
) -> Result<List<RowName>, AllocError>
    requires owner { IsOwnerSchema (N.db after.now).schema }
    requires among { Contains (N.db after.now).schema.edges edge.now }
    requires of_lower { name.now.table ≡ edge.now.lower }
    requires row { row_of (N.db after.now) name.now ≡ Some row.now }
    ensures { IfOk result (AreUppersAlong (N.db after.now) name.now edge.now) }
{
    if edge.holder == edge.lower {
        named_above(alloc, after, edge, name, row)
    } else {
        naming_above(alloc, after, edge, name)
    }
}
