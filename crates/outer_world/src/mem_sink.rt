ghost use Rattle.std.specs.Prelude.{◌≡◌, [], ◌<◌, ◌≤◌, ◌^◌, ◌++◌, Some, None, length, take, IfOk, IsErr, OnOk, OnErr};
ghost use Rattle.outer_world.specs.FaultPlan.{fresh_plan, IsNextToFail, plan_after_success, plan_after_fault};
ghost use Rattle.outer_world.specs.PieceLength.{piece_length as length_of};

use crate::failed::Failed;
use crate::fault_plan::FaultPlan;
use crate::piece_length::piece_length;
use crate::sink::Sink;
use std::alloc::{AllocError, Global};
use std::marker::Model;

/// A sink that holds what is written in memory, and whose calls of given numbers fail.
#[derive(Debug, Drop)]
pub struct MemSink {
    bytes: Vec<u8>,
    // The most that a call takes, where there is a bound.
    most: Option<u32>,
    plan: FaultPlan,
}

impl Model for MemSink {
    ghost use Rattle.std.specs.Prelude.{◌≤◌, IfSome};
    ghost use Rattle.outer_world.specs.MemSink.{SinkState};

    ghost Value = { SinkState };

    ghost view = { λ sink. record { written = sink.bytes.items; most = sink.most; plan = sink.plan } };

    ghost invariant = { λ sink. IfSome sink.most (λ most. 1 ≤ most) };
}

impl MemSink {
    /// Holds nothing. The calls of the numbers in `fails`, counted from 0, are to fail.
    pub fn new(alloc: Global, fails: &[u32]) -> Result<MemSink, AllocError>
        ensures written { IfOk result (λ sink. sink.written ≡ []) }
        ensures plan { IfOk result (λ sink. sink.plan ≡ fresh_plan fails.now) }
        ensures most { IfOk result (λ sink. sink.most ≡ None) }
    {
        let plan = FaultPlan::new(alloc, fails)?;
        Ok(MemSink {
            bytes: Vec::new(alloc),
            most: None,
            plan,
        })
    }

    /// Holds nothing, and takes at most so many bytes a call. The calls of the numbers in `fails`, counted from 0, are to
    /// fail.
    pub fn in_pieces(alloc: Global, fails: &[u32], most: u32) -> Result<MemSink, AllocError>
        requires { 1 ≤ most }
        ensures written { IfOk result (λ sink. sink.written ≡ []) }
        ensures plan { IfOk result (λ sink. sink.plan ≡ fresh_plan fails.now) }
        ensures most { IfOk result (λ sink. sink.most ≡ Some most) }
    {
        let plan = FaultPlan::new(alloc, fails)?;
        Ok(MemSink {
            bytes: Vec::new(alloc),
            most: Some(most),
            plan,
        })
    }

    /// Lends what was written. Takes no memory.
    pub fn bytes(&self) -> &[u8]
        ensures { result.now ≡ self.now.written }
    {
        self.bytes.as_slice()
    }
}

impl Sink for MemSink {
    ghost use Rattle.std.specs.Prelude.{◌≡◌, Some};
    ghost use Rattle.outer_world.specs.FaultPlan.{plan_after_fault};

    ghost faults = { λ sink. sink.plan.faults };

    ghost written = { λ sink. Some sink.written };

    ghost fails = { λ before after. after ≡ record before { plan = plan_after_fault before.plan } };

    /// Takes the whole piece, or as much of it as a call takes at most. It fails where the call is to fail, and where
    /// memory for those bytes is refused.
    fn write(&mut self, piece: &[u8]) -> Result<usize, Failed>
        ensures due { IsNextToFail self.old.plan → IsErr result }

        // An empty piece needs no memory.
        ensures only_due { length piece.now ≡ 0 → IsErr result → IsNextToFail self.old.plan }

        ensures count { IfOk result (λ count. count ≡ length_of self.old.most (length piece.now)) }
        ensures progress { IfOk result (λ count. 0 < length piece.now → 0 < count) }
        ensures written { IfOk result (λ count. self.new.written ≡ self.old.written ++ take count piece.now) }
        ensures plan { OnOk result (self.new.plan ≡ plan_after_success self.old.plan) }
        ensures most { self.new.most ≡ self.old.most }

        ensures fault { OnErr result (self.new ≡ record self.old { plan = plan_after_fault self.old.plan }) }

        ensures counted { self.old.plan.faults ≤ self.new.plan.faults }
        ensures in_range { self.new.plan.faults < 2 ^ 64 }
    {
        self.plan.count_call()?;
        let count = piece_length(self.most, piece.len());
        if self.bytes.extend_from_slice(&piece[..count]).is_err() {
            return Err(self.plan.fail());
        }
        Ok(count)
    }
}
