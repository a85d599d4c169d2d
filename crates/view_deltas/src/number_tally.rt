ghost use Rattle.std.specs.Prelude.{◌≡◌, IfOk};
ghost use Rattle.view_deltas.specs.Numbers.{no_numbers, shown_sum, with_number, with_number_of};

use crate::way::Way;
use own_base::{MakeCopy, Sum, Value};
use std::alloc::{AllocError, Global};

/// The numbers of a column in the rows of a group: how many, and their sum.
#[derive(Clone, Copy, Debug)]
pub(crate) struct NumberTally {
    count: u64,
    sum: i128,
}

impl NumberTally {
    /// No numbers. Takes no memory.
    pub(crate) fn new() -> NumberTally
        ensures { result ≡ no_numbers }
    {
        NumberTally { count: 0, sum: 0 }
    }

    /// With one number more, or one less. `AllocError` comes only where it can't be counted. Takes no memory.
    pub(crate) fn with_number(&self, number: i128, way: Way) -> Result<NumberTally, AllocError>
        ensures { IfOk result (λ after. after ≡ with_number way number self.now) }
    {
        match way {
            Way::In => Ok(NumberTally {
                count: self.count.checked_add(1).ok_or(AllocError)?,
                sum: self.sum.checked_add(number).ok_or(AllocError)?,
            }),
            Way::Out => Ok(NumberTally {
                count: self.count.checked_sub(1).ok_or(AllocError)?,
                sum: self.sum.checked_sub(number).ok_or(AllocError)?,
            }),
        }
    }

    /// The same, where a row has a number.
    pub(crate) fn with_number_of(
        &self,
        number: Option<i128>,
        way: Way,
    ) -> Result<NumberTally, AllocError>
        ensures { IfOk result (λ after. after ≡ with_number_of way number self.now) }
    {
        match number {
            None => Ok(*self),
            Some(number) => self.with_number(number, way),
        }
    }

    /// What SUM shows of them.
    pub(crate) fn shown(&self, alloc: Global) -> Result<Value, AllocError>
        ensures { IfOk result (λ shown. shown ≡ shown_sum self.now) }
    {
        if self.count == 0 {
            return Ok(Value::Null);
        }
        Ok(Value::Sum(Sum::new(alloc, self.sum)?))
    }
}

impl MakeCopy for NumberTally {
    fn copy(&self, _alloc: Global) -> Result<NumberTally, AllocError> {
        Ok(*self)
    }
}
