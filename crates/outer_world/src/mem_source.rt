ghost use Rattle.std.specs.Prelude.{◌≡◌, [], ◌<◌, ◌≤◌, ◌^◌, ◌++◌, ◌↔◌, Some, None, length, take, drop, min, IfOk, IsErr, OnErr};
ghost use Rattle.outer_world.specs.FaultPlan.{fresh_plan, IsNextToFail, plan_after_success, plan_after_fault};
ghost use Rattle.outer_world.specs.PieceLength.{piece_length as length_of};

use crate::failed::Failed;
use crate::fault_plan::FaultPlan;
use crate::piece_length::piece_length;
use crate::source::Source;
use std::alloc::{AllocError, Global};
use std::marker::Model;

/// A source of bytes in memory, whose calls of given numbers fail.
#[derive(Debug, Drop)]
pub struct MemSource {
    bytes: Vec<u8>,
    at: usize,
    // The most that a call gives, where there is a bound.
    most: Option<u32>,
    plan: FaultPlan,
}

impl Model for MemSource {
    ghost use Rattle.std.specs.Prelude.{◌≤◌, length, drop, IfSome};
    ghost use Rattle.outer_world.specs.MemSource.{SourceState};

    ghost Value = { SourceState };

    ghost view = { λ source. record {
      remaining = drop source.at source.bytes.items;
      most = source.most;
      plan = source.plan;
    } };

    ghost invariant = { λ source. (source.at ≤ length source.bytes.items) × IfSome source.most (λ most. 1 ≤ most) };
}

impl MemSource {
    /// Gives these bytes. The calls of the numbers in `fails`, counted from 0, are to fail.
    pub fn new(alloc: Global, bytes: &[u8], fails: &[u32]) -> Result<MemSource, AllocError>
        ensures remaining { IfOk result (λ source. source.remaining ≡ bytes.now) }
        ensures plan { IfOk result (λ source. source.plan ≡ fresh_plan fails.now) }
        ensures most { IfOk result (λ source. source.most ≡ None) }
    {
        let bytes = bytes.to_vec(alloc)?;
        let plan = FaultPlan::new(alloc, fails)?;
        Ok(MemSource {
            bytes,
            at: 0,
            most: None,
            plan,
        })
    }

    /// Gives these bytes, at most so many a call. The calls of the numbers in `fails`, counted from 0, are to fail.
    pub fn in_pieces(
        alloc: Global,
        bytes: &[u8],
        fails: &[u32],
        most: u32,
    ) -> Result<MemSource, AllocError>
        requires { 1 ≤ most }
        ensures remaining { IfOk result (λ source. source.remaining ≡ bytes.now) }
        ensures plan { IfOk result (λ source. source.plan ≡ fresh_plan fails.now) }
        ensures most { IfOk result (λ source. source.most ≡ Some most) }
    {
        let bytes = bytes.to_vec(alloc)?;
        let plan = FaultPlan::new(alloc, fails)?;
        Ok(MemSource {
            bytes,
            at: 0,
            most: Some(most),
            plan,
        })
    }
}

impl Source for MemSource {
    ghost use Rattle.std.specs.Prelude.{◌≡◌, Some};
    ghost use Rattle.outer_world.specs.FaultPlan.{plan_after_fault};

    ghost faults = { λ source. source.plan.faults };

    ghost remaining = { λ source. Some source.remaining };

    ghost fails = { λ before after. after ≡ record before { plan = plan_after_fault before.plan } };

    /// Fills the piece, or as much of it as there are bytes left and as a call gives at most. What stands after them in
    /// the piece stays.
    fn read(&mut self, into: &mut [u8]) -> Result<usize, Failed>
        ensures due { IsErr result ↔ IsNextToFail self.old.plan }

        ensures count { IfOk result (λ count.
            count ≡ length_of self.old.most (min (length into.old) (length self.old.remaining))) }
        ensures end { IfOk result (λ count. count ≡ 0 → 0 < length into.new → self.old.remaining ≡ []) }
        ensures piece { IfOk result (λ count.
            into.new ≡ take count self.old.remaining ++ drop count into.old) }
        ensures remaining { IfOk result (λ count.
            self.new.remaining ≡ drop count self.old.remaining) }
        ensures plan { IfOk result (λ _. self.new.plan ≡ plan_after_success self.old.plan) }
        ensures most { self.new.most ≡ self.old.most }

        ensures fault { OnErr result (self.new ≡ record self.old { plan = plan_after_fault self.old.plan }) }
        ensures piece_kept { OnErr result (into.new ≡ into.old) }

        ensures counted { self.old.plan.faults ≤ self.new.plan.faults }
        ensures in_range { self.new.plan.faults < 2 ^ 64 }
    {
        self.plan.count_call()?;
        let left = self.bytes.len() - self.at;
        let count = piece_length(self.most, into.len().min(left));
        let end = self.at + count;
        into[..count].copy_from_slice(&self.bytes[self.at..end]);
        self.at = end;
        Ok(count)
    }
}
