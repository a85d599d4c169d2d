ghost use Rattle.std.specs.Prelude.{◌≡◌, ◌+◌, ◌<◌, ◌^◌, [], IfOk};
ghost use Rattle.query_eval.specs.Numbers.{numbers_of, shown_sum, with_number};

use own_base::{Sum, Value};
use std::alloc::{AllocError, Global};
use std::marker::Model;

/// The numbers of a column so far: how many, and their sum.
#[derive(Drop)]
pub(crate) struct NumberTally {
    count: u64,
    sum: i128,
}

impl Model for NumberTally {
    ghost use Rattle.query_eval.specs.Numbers.{Numbers, AreWithin};

    ghost Value = { Numbers };

    ghost view = { λ tally. record { count = tally.count; sum = tally.sum } };

    ghost invariant = { λ tally. AreWithin (record { count = tally.count; sum = tally.sum }) };
}

impl NumberTally {
    /// No numbers yet.
    pub(crate) fn new() -> NumberTally
        ensures { result ≡ numbers_of [] }
    {
        NumberTally { count: 0, sum: 0 }
    }

    /// One number more. Takes no memory.
    pub(crate) fn add(&mut self, number: &i64)
        requires { self.old.count + 1 < 2 ^ 63 }
        ensures { self.new ≡ with_number self.old number.now }
    {
        self.count += 1;
        self.sum += *number as i128;
    }

    /// What SUM shows of them.
    pub(crate) fn shown(&self, alloc: Global) -> Result<Value, AllocError>
        ensures { IfOk result (λ shown. shown ≡ shown_sum self.now) }
    {
        if self.count == 0 {
            return Ok(Value::Null);
        }
        Ok(Value::Sum(Sum::new(alloc, self.sum)?))
    }
}
