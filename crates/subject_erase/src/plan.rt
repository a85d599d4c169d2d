ghost use Rattle.std.specs.Prelude.{◌≡◌, ◌∷◌, [], ◌++◌, IfOk, OnOk};
ghost use Rattle.subject_erase.specs.Plan.{plan_of, plan_with};

use own_base::{Change, List, RowName};
use std::alloc::{AllocError, Global};

/// What a subject's erasure removes and changes.
#[derive(Debug, Drop)]
pub struct ErasePlan {
    /// The names of the rows that go.
    pub removed: List<RowName>,
    /// The rows that stay with a changed value, each as it is and as it is left.
    pub changed: List<Change>,
}

impl ErasePlan {
    /// What changes remove and change, in their order.
    pub fn of_changes(alloc: Global, changes: List<Change>) -> Result<ErasePlan, AllocError>
        ensures { IfOk result (λ plan. plan ≡ plan_of changes) }
    {
        let mut plan = ErasePlan {
            removed: List::new(alloc),
            changed: List::new(alloc),
        };
        for change in changes.into_vec() {
            plan.add(change)?;
        }
        Ok(plan)
    }

    /// One change more, last.
    fn add(&mut self, change: Change) -> Result<(), AllocError>
        ensures { OnOk result (self.new ≡ plan_with self.old change) }
    {
        if change.after.is_some() {
            self.changed.add(change)
        } else {
            self.removed.add(change.name)
        }
    }
}
