ghost use Rattle.std.specs.Prelude.{◌≡◌, ◌<◌, [], IfOk, OnOk, ◌==◌, false, length, replicate};
ghost use Rattle.std.specs.List.{AllByRecursion};

use own_base::TableNo;
use own_model::Edge;
use std::alloc::{AllocError, Global};

/// Tables that a walk reaches.
#[derive(Drop)]
pub(crate) struct Marks {
    /// For each table, whether it was reached.
    pub(crate) marked: Vec<bool>,
    /// Those of them from which the walk has yet to go on.
    pub(crate) pending: Vec<TableNo>,
}

impl Marks {
    ghost use Rattle.owner_graph.specs.Marking.{MarksMore, is_lower};

    /// No table is reached.
    pub(crate) fn none(alloc: Global, tables: u32) -> Result<Marks, AllocError>
        ensures marked { IfOk result (λ marks. marks.marked.items ≡ replicate tables false) }
        ensures pending { IfOk result (λ marks. marks.pending.items ≡ []) }
    {
        Ok(Marks {
            marked: vec![in alloc; false; tables as usize]?,
            pending: Vec::new(alloc),
        })
    }

    /// This table is reached.
    fn mark(&mut self, table: TableNo) -> Result<(), AllocError>
        requires { table.0 < length self.old.marked.items }
        ensures { OnOk result (MarksMore (λ number. table.0 == number) self.old self.new) }
    {
        let place = table.0 as usize;
        if !self.marked[place] {
            self.marked[place] = true;
            self.pending.push(table)?;
        }
        Ok(())
    }

    /// The lower table of each of these edges is reached.
    pub(crate) fn mark_lowers(&mut self, edges: &[Edge]) -> Result<(), AllocError>
        requires { AllByRecursion (λ edge. edge.lower.0 < length self.old.marked.items) edges.now }
        ensures { OnOk result (MarksMore (is_lower edges.now) self.old self.new) }
    {
        for edge in edges {
            self.mark(edge.lower)?;
        }
        Ok(())
    }
}
