ghost use Rattle.std.specs.Prelude.{◌≡◌, ◌↔◌, ◌++◌, [], ◌∷◌, Contains, IfOk, IsTrue, OnOk, Some, length, if◌then◌else◌};
ghost use Rattle.std.specs.List.{list_any};
ghost use Rattle.owner_graph.specs.Graph.{IsGraphOf};
ghost use Rattle.owner_model.specs.Joins.{row_of};
ghost use Rattle.shelf_erase.specs.Upper.{LeadsTo};
ghost use Rattle.state_model.specs.Sound.{Sound};
ghost use Rattle.subject_model.specs.Owners.{by, owns, reaches};

use crate::changes::Changes;
use crate::upper::uppers_of;
use anon_rules::strikes;
use link_model::Linked;
use own_base::{EdgeNo, List, Row, RowName, Subject};
use own_model::Edge;
use owner_graph::Graph;
use row_reading::{is_name, is_subject};
use std::alloc::{AllocError, Global};

/// What is sought above a row.
#[derive(Clone, Copy, Debug)]
pub(crate) enum Sought {
    /// A row that the subject owns, over an edge ruled DELETE_ROW.
    Owned,
    /// A row that stays and has an owner, over an owner edge.
    Kept,
    /// A row over which the subject reaches the one below, over any edge.
    Reached,
}

/// Whether a subject is one of these. Takes no memory.
fn is_among(subject: &Subject, subjects: &[Subject]) -> bool
    ensures { IsTrue result ↔ Contains subjects.now subject.now }
{
    subjects.contains(subject)
}

/// Whether a subject owns a row. Takes no memory.
fn owns<V: Linked>(view: &V, subject: &Subject, name: &RowName) -> bool
    requires { Sound (V.db view.now) }
    ensures { result ≡ owns (V.db view.now) subject.now.0 name.now }
{
    is_among(subject, view.owners(name))
}

/// Whether it reaches a row. Takes no memory.
fn reaches<V: Linked>(view: &V, subject: &Subject, name: &RowName) -> bool
    requires { Sound (V.db view.now) }
    ensures { result ≡ reaches (V.db view.now) subject.now.0 name.now }
{
    is_among(subject, view.reach(name))
}

impl Sought {
    ghost use Rattle.shelf_erase.specs.Sought.{LeadsBy, LeadsUp, counts, passes};

    /// Over which edges it is sought. Takes no memory.
    fn counts(self, edge: &Edge) -> bool
        ensures { result ≡ counts self edge.now }
    {
        match self {
            Sought::Owned => strikes(edge),
            Sought::Kept => edge.owner,
            Sought::Reached => true,
        }
    }

    /// Whether an upper row is one, given the changes by which rows go. Takes no memory.
    fn passes<V: Linked>(
        self,
        view: &V,
        subject: &Subject,
        removals: &Changes,
        upper: &RowName,
    ) -> bool
        requires { Sound (V.db view.now) }
        ensures { result ≡ passes self (V.db view.now) subject.now.0 removals.now upper.now }
    {
        match self {
            Sought::Owned => owns(view, subject, upper),
            Sought::Kept => !removals.has(upper) && !view.owners(upper).is_empty(),
            Sought::Reached => {
                if is_subject(view.schema(), upper.table.0 as usize) {
                    is_name(upper, &subject.0)
                } else {
                    reaches(view, subject, upper)
                }
            }
        }
    }

    /// Whether one of some upper rows is one.
    fn is_one_of<V: Linked>(
        self,
        view: &V,
        subject: &Subject,
        removals: &Changes,
        uppers: &[RowName],
    ) -> bool
        requires { Sound (V.db view.now) }
        ensures { result ≡ list_any (passes self (V.db view.now) subject.now.0 removals.now) uppers.now }
    {
        for upper in uppers {
            if self.passes(view, subject, removals, upper) {
                return true;
            }
        }
        false
    }

    /// Whether an edge leads up to one.
    fn is_over<V: Linked>(
        self,
        alloc: Global,
        view: &V,
        subject: &Subject,
        removals: &Changes,
        edge: &Edge,
        name: &RowName,
        row: &Row,
    ) -> Result<bool, AllocError>
        requires sound { Sound (V.db view.now) }
        requires among { Contains (V.db view.now).schema.edges edge.now }
        requires of_lower { name.now.table ≡ edge.now.lower }
        requires row { row_of (V.db view.now) name.now ≡ Some row.now }
        ensures { IfOk result (λ leads. IsTrue leads ↔ LeadsTo (V.db view.now) (passes self (V.db view.now) subject.now.0 removals.now) name.now edge.now) }
    {
        let uppers = uppers_of(alloc, view, edge, name, row)?;
        Ok(self.is_one_of(view, subject, removals, uppers.items()))
    }

    /// Whether an edge that counts leads up to one.
    fn is_by<V: Linked>(
        self,
        alloc: Global,
        view: &V,
        subject: &Subject,
        removals: &Changes,
        edge: &Edge,
        name: &RowName,
        row: &Row,
    ) -> Result<bool, AllocError>
        requires sound { Sound (V.db view.now) }
        requires among { Contains (V.db view.now).schema.edges edge.now }
        requires of_lower { name.now.table ≡ edge.now.lower }
        requires row { row_of (V.db view.now) name.now ≡ Some row.now }
        ensures { IfOk result (λ leads. IsTrue leads ↔ LeadsBy (V.db view.now) self subject.now.0 removals.now name.now edge.now) }
    {
        if self.counts(edge) {
            self.is_over(alloc, view, subject, removals, edge, name, row)
        } else {
            Ok(false)
        }
    }

    /// Whether one of the edges out of a row leads up to one.
    pub(crate) fn is_above<V: Linked>(
        self,
        alloc: Global,
        view: &V,
        graph: &Graph,
        subject: &Subject,
        removals: &Changes,
        name: &RowName,
        row: &Row,
    ) -> Result<bool, AllocError>
        requires sound { Sound (V.db view.now) }
        requires graph { IsGraphOf (length (V.db view.now).schema.tables) (V.db view.now).schema.edges graph.now }
        requires row { row_of (V.db view.now) name.now ≡ Some row.now }
        ensures { IfOk result (λ leads. IsTrue leads ↔ LeadsUp (V.db view.now) self subject.now.0 removals.now name.now) }
    {
        for edge in graph.edges_of(name.table) {
            let leads = self.is_by(alloc, view, subject, removals, edge, name, row)?;
            if leads {
                return Ok(true);
            }
        }
        Ok(false)
    }
}

/// Adds the number of an edge, where it is so.
fn add_where(numbers: &mut List<EdgeNo>, number: EdgeNo, is: bool) -> Result<(), AllocError>
    ensures { OnOk result (numbers.new ≡ numbers.old ++ (if is then number ∷ [] else [])) }
{
    if is { numbers.add(number) } else { Ok(()) }
}

/// The edges by which a subject reaches a row.
pub(crate) fn by_of<V: Linked>(
    alloc: Global,
    view: &V,
    graph: &Graph,
    subject: &Subject,
    name: &RowName,
    row: &Row,
) -> Result<List<EdgeNo>, AllocError>
    requires sound { Sound (V.db view.now) }
    requires graph { IsGraphOf (length (V.db view.now).schema.tables) (V.db view.now).schema.edges graph.now }
    requires row { row_of (V.db view.now) name.now ≡ Some row.now }
    ensures { IfOk result (λ edges. edges ≡ by (V.db view.now) subject.now.0 name.now) }
{
    let removals = Changes::new();
    let mut by = List::new(alloc);
    for edge in graph.edges_of(name.table) {
        let leads = Sought::Reached.is_over(alloc, view, subject, &removals, edge, name, row)?;
        add_where(&mut by, edge.number, leads)?;
    }
    Ok(by)
}
