ghost use Rattle.std.specs.Prelude.{◌≡◌, [], ◌∷◌, ◌++◌, Contains, IfOk, OnOk, Some, if◌then◌else◌};
ghost use Rattle.std.specs.List.{list_any};
ghost use Rattle.owner_model.specs.Joins.{row_of};
ghost use Rattle.schema_model.specs.OwnerSchema.{IsOwnerSchema};
ghost use Rattle.subject_model.specs.Owners.{by, reaches_by};
ghost use Rattle.micro_db.specs.LeadsOn.{leads_on};

use crate::standing::leads_on;
use crate::uppers::uppers_along;
use link_model::Linked;
use own_base::{EdgeNo, List, Row, RowName, Subject};
use own_model::Edge;
use std::alloc::{AllocError, Global};

/// Whether a path leads on to a subject from one of some rows that it may enter. Takes no memory.
fn some_lead_on<N: Linked>(after: &N, subject: &Subject, uppers: &[RowName]) -> bool
    requires { IsOwnerSchema (N.db after.now).schema }
    ensures { result ≡ list_any (leads_on (N.db after.now) subject.now.0) uppers.now }
{
    uppers.iter().any(|upper| leads_on(after, subject, upper))
}

/// Whether a subject reaches a row by an edge.
fn reaches_by<N: Linked>(
    alloc: Global,
    after: &N,
    edge: &Edge,
    name: &RowName,
    row: &Row,
    subject: &Subject,
) -> Result<bool, AllocError>
    requires owner { IsOwnerSchema (N.db after.now).schema }
    requires among { Contains (N.db after.now).schema.edges edge.now }
    requires row { row_of (N.db after.now) name.now ≡ Some row.now }
    ensures { IfOk result (λ by. by ≡ reaches_by (N.db after.now) subject.now.0 name.now edge.now) }
{
    if edge.lower != name.table {
        return Ok(false);
    }
    let uppers = uppers_along(alloc, after, edge, name, row)?;
    Ok(some_lead_on(after, subject, uppers.items()))
}

/// Adds an edge's number where it is to be.
fn add_where(is: bool, number: EdgeNo, by: &mut List<EdgeNo>) -> Result<(), AllocError>
    ensures { OnOk result (by.new ≡ by.old ++ (if is then number ∷ [] else [])) }
{
    if is {
        by.add(number)?;
    }
    Ok(())
}

/// The edges with which the paths from a row to a subject begin, by number.
pub(crate) fn edges_by<N: Linked>(
    alloc: Global,
    after: &N,
    name: &RowName,
    row: &Row,
    subject: &Subject,
) -> Result<List<EdgeNo>, AllocError>
    requires owner { IsOwnerSchema (N.db after.now).schema }
    requires row { row_of (N.db after.now) name.now ≡ Some row.now }
    ensures { IfOk result (λ edges. edges ≡ by (N.db after.now) subject.now.0 name.now) }
{
    let mut by = List::new(alloc);
    for edge in after.schema().edges.items() {
        let reached = reaches_by(alloc, after, edge, name, row, subject)?;
        add_where(reached, edge.number, &mut by)?;
    }
    Ok(by)
}
