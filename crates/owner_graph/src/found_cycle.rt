ghost use Rattle.std.specs.Prelude.{◌≡◌, ◌<◌, ℕ, IfOk, MatchOption, length, min};
ghost use Rattle.owner_graph.specs.Marking.{is_marked};
ghost use Rattle.owner_graph.specs.TopologicalSort.{AllPlaced};
ghost use Rattle.owner_graph.specs.WayBack.{TellsWayBack, leads_back};
ghost use Rattle.owner_model.specs.AreWithin.{AreWithin};
ghost use Rattle.owner_model.specs.Cycle.{IsCycle};
ghost use Rattle.owner_model.specs.Leads.{leads};

use crate::incoming::Incoming;
use crate::marks::Marks;
use crate::topological_sort::TopologicalSort;
use own_base::TableNo;
use own_model::Edge;
use std::alloc::{AllocError, Global};

/// A cycle, by two of its tables.
#[derive(Drop)]
pub(crate) struct FoundCycle {
    /// The highest table that lies on a cycle.
    pub(crate) table: TableNo,
    /// The lowest table above it from which a walk leads back to it.
    pub(crate) through: TableNo,
}

impl Incoming<'_> {
    /// For each table, whether a walk of one edge or more leads from it up to this one.
    fn leading_to(&self, alloc: Global, table: TableNo) -> Result<Vec<bool>, AllocError>
        requires within { AreWithin self.now.tables self.now.edges.now }
        requires there { table.0 < self.now.tables }
        ensures tables { IfOk result (λ leading. length leading.items ≡ self.now.tables) }
        ensures leading { IfOk result (λ leading. (from : ℕ) → is_marked leading.items from ≡ leads self.now.edges.now from table.0) }
    {
        let mut marks = Marks::none(alloc, self.tables)?;
        marks.mark_lowers(self.of_table(table))?;
        while let Some(reached) = marks.pending.pop() {
            marks.mark_lowers(self.of_table(reached))?;
        }
        Ok(marks.marked)
    }

    /// The lowest table above this one from which a walk leads back to it. None: this table lies on no cycle. It takes
    /// time in proportion to the tables and the edges.
    fn way_back(&self, alloc: Global, table: TableNo) -> Result<Option<TableNo>, AllocError>
        requires within { AreWithin self.now.tables self.now.edges.now }
        requires there { table.0 < self.now.tables }
        ensures { IfOk result (TellsWayBack self.now.edges.now table.0) }
    {
        let leading = self.leading_to(alloc, table)?;
        let mut lowest = None;
        for edge in self.edges {
            if leads_back(table, &leading, edge) {
                lowest = Some(lower_of(lowest, edge.upper));
            }
        }
        Ok(lowest)
    }

    /// The same, where some tables are placed: those lie on no cycle, and aren't tried.
    fn way_back_among(
        &self,
        alloc: Global,
        sorting: &TopologicalSort,
        table: TableNo,
    ) -> Result<Option<TableNo>, AllocError>
        requires within { AreWithin self.now.tables self.now.edges.now }
        requires all { AllPlaced self.now.edges.now sorting.now.order.items sorting.now.waiting.items }
        requires tables { length sorting.now.waiting.items ≡ self.now.tables }
        requires there { table.0 < self.now.tables }
        ensures { IfOk result (TellsWayBack self.now.edges.now table.0) }
    {
        if sorting.waiting[table.0 as usize] == 0 {
            Ok(None)
        } else {
            self.way_back(alloc, table)
        }
    }

    /// The cycle that is reported, where some tables can't be placed: those are tried from the highest down, until one
    /// lies on a cycle.
    pub(crate) fn found_cycle(
        &self,
        alloc: Global,
        sorting: &TopologicalSort,
    ) -> Result<FoundCycle, AllocError>
        requires within { AreWithin self.now.tables self.now.edges.now }
        requires all { AllPlaced self.now.edges.now sorting.now.order.items sorting.now.waiting.items }
        requires tables { length sorting.now.waiting.items ≡ self.now.tables }
        requires left { length sorting.now.order.items < self.now.tables }
        ensures { IfOk result (λ walk. IsCycle self.now.edges.now walk.table.0 walk.through.0) }
    {
        for number in (0..self.tables).rev() {
            let table = TableNo(number);
            if let Some(through) = self.way_back_among(alloc, sorting, table)? {
                return Ok(FoundCycle { table, through });
            }
        }
        unreachable!()
    }
}

/// Whether an edge goes out of a table, and ends there or at a table that leads to it.
fn leads_back(table: TableNo, leading: &[bool], edge: &Edge) -> bool
    requires { edge.now.upper.0 < length leading.now }
    ensures { result ≡ leads_back table.0 leading.now edge.now }
{
    edge.lower == table && (edge.upper == table || leading[edge.upper.0 as usize])
}

/// The lower of two tables, where there are two.
fn lower_of(one: Option<TableNo>, other: TableNo) -> TableNo
    ensures { MatchOption one (result ≡ other) (λ table. result.0 ≡ min table.0 other.0) }
{
    match one {
        Some(table) if table.0 <= other.0 => table,
        _ => other,
    }
}
