//! Which columns of a row the edges rule by which a subject reaches it: those that stay hidden from the subject, those
//! that are made NULL, and whether an edge strikes the row. Nothing here takes memory.
#![tactic(auto)]

ghost use Rattle.std.specs.Prelude.{◌≡◌};
ghost use Rattle.owner_model.specs.ColumnSets.{set_of};
ghost use Rattle.owner_model.specs.RuledColumns.{is_hidden, is_blanked};
ghost use Rattle.anon_rules.specs.Ruled.{ruled, is_ruled};

use own_base::{ColumnSet, EdgeNo};
use own_model::Edge;

/// The columns that are hidden from a subject who reaches a row by these edges: those that every edge hides ON GET.
pub fn hidden(edges: &[Edge], by: &[EdgeNo]) -> ColumnSet
    ensures { result ≡ set_of (is_hidden edges.now by.now) }
{
    if by.is_empty() {
        return ColumnSet(0);
    }
    let mut columns = u32::MAX;
    for number in by {
        columns &= columns_of(edges, *number, Rule::Get).0;
    }
    ColumnSet(columns)
}

/// The columns that are made NULL where a subject who reaches a row by these edges is forgotten: those that one of
/// the edges rules ON DEL.
pub fn blanked(edges: &[Edge], by: &[EdgeNo]) -> ColumnSet
    ensures { result ≡ set_of (is_blanked edges.now by.now) }
{
    let mut columns = 0;
    for number in by {
        columns |= columns_of(edges, *number, Rule::Del).0;
    }
    ColumnSet(columns)
}

/// Whether the edge is ruled DELETE_ROW.
pub fn strikes(edge: &Edge) -> bool
    ensures { result ≡ edge.now.strike }
{
    edge.strike
}

/// The two rules of an edge that name columns.
#[derive(Clone, Copy)]
enum Rule {
    Get,
    Del,
}

impl Rule {
    /// The columns that the edge rules so.
    fn of(self, edge: &Edge) -> ColumnSet
        ensures { result ≡ ruled self edge.now }
    {
        match self {
            Rule::Get => edge.get,
            Rule::Del => edge.del,
        }
    }
}

/// The columns that the edges of this number rule: none, where no edge has the number.
fn columns_of(edges: &[Edge], number: EdgeNo, rule: Rule) -> ColumnSet
    ensures { result ≡ set_of (is_ruled rule edges.now number) }
{
    let mut ruled = 0;
    for edge in edges {
        if edge.number == number {
            ruled |= rule.of(edge).0;
        }
    }
    ColumnSet(ruled)
}
