ghost use Rattle.std.specs.Prelude.{◌≡◌, [], ◌<◌, ◌≤◌, ◌^◌, ◌↔◌, IfOk, IsErr, IsTrue, OnOk, OnErr};
ghost use Rattle.outer_world.specs.FaultCount.{one_higher};
ghost use Rattle.outer_world.specs.FaultPlan.{fresh_plan, IsNextToFail, plan_after_success, plan_after_fault};

use crate::failed::Failed;
use std::alloc::{AllocError, Global};
use std::marker::Model;

/// Which calls of an object in memory fail, how many calls were made, and how many of them failed. Both numbers stand
/// still at the greatest u64, which no call that is to fail has as its number.
#[derive(Debug, Drop)]
pub(crate) struct FaultPlan {
    fails: Vec<u32>,
    calls: u64,
    faults: u64,
}

impl Model for FaultPlan {
    ghost use Rattle.std.specs.Prelude.{◌<◌, ◌^◌};
    ghost use Rattle.outer_world.specs.FaultPlan.{Plan};

    ghost Value = { Plan };

    ghost view = { λ plan. record { fails = plan.fails.items; calls = plan.calls; faults = plan.faults } };

    ghost invariant = { λ plan. plan.faults < 2 ^ 64 };
}

impl FaultPlan {
    /// The calls of these numbers, counted from 0, are to fail.
    pub(crate) fn new(alloc: Global, fails: &[u32]) -> Result<FaultPlan, AllocError>
        ensures { IfOk result (λ plan. plan ≡ fresh_plan fails.now) }
    {
        let fails = fails.to_vec(alloc)?;
        Ok(FaultPlan {
            fails,
            calls: 0,
            faults: 0,
        })
    }

    /// No call is to fail. Takes no memory.
    pub(crate) fn without_faults(alloc: Global) -> FaultPlan
        ensures { result ≡ fresh_plan [] }
    {
        FaultPlan {
            fails: Vec::new(alloc),
            calls: 0,
            faults: 0,
        }
    }

    /// The count of faults. Takes no memory.
    pub(crate) fn faults(&self) -> u64
        ensures { result ≡ self.now.faults }
    {
        self.faults
    }

    /// Counts the next call, and fails it where it is to fail.
    pub(crate) fn count_call(&mut self) -> Result<(), Failed>
        ensures due { IsErr result ↔ IsNextToFail self.old }
        ensures passed { OnOk result (self.new ≡ plan_after_success self.old) }
        ensures failed { OnErr result (self.new ≡ plan_after_fault self.old) }
        ensures counted { self.old.faults ≤ self.new.faults }
        ensures in_range { self.new.faults < 2 ^ 64 }
    {
        let is_due = self.is_due();
        self.calls = self.calls.saturating_add(1);
        if is_due {
            return Err(self.fail());
        }
        Ok(())
    }

    /// Counts a fault of the call that was counted last.
    pub(crate) fn fail(&mut self) -> Failed
        ensures risen { self.new ≡ record self.old { faults = one_higher self.old.faults } }
        ensures counted { self.old.faults ≤ self.new.faults }
        ensures in_range { self.new.faults < 2 ^ 64 }
    {
        self.faults = self.faults.saturating_add(1);
        Failed
    }

    fn is_due(&self) -> bool
        ensures { IsTrue result ↔ IsNextToFail self.now }
    {
        let next = self.calls;
        self.fails.iter().any(|number| u64::from(*number) == next)
    }
}
