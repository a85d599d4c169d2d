ghost use Rattle.std.specs.Prelude.{◌≡◌, IfOk};

use crate::make_copy::MakeCopy;
use std::alloc::{AllocError, Global};
use std::marker::Model;

/// A sum, which contracts see as its number. It lies on the heap, since it is twice as large as any other value.
#[derive(Debug, Drop)]
pub struct Sum {
    number: Box<i128>,
}

impl Model for Sum {
    ghost use Rattle.std.specs.Prelude.{ℤ};

    ghost Value = { ℤ };

    ghost view = { λ sum. sum.number.value };
}

impl Sum {
    /// The sum of this number.
    pub fn new(alloc: Global, number: i128) -> Result<Sum, AllocError>
        ensures { IfOk result (λ sum. sum ≡ number) }
    {
        let number = Box::new(alloc, number)?;
        Ok(Sum { number })
    }

    /// The number. Takes no memory.
    pub fn get(&self) -> i128
        ensures { result ≡ self.now }
    {
        *self.number
    }
}

impl MakeCopy for Sum {
    fn copy(&self, alloc: Global) -> Result<Sum, AllocError> {
        Sum::new(alloc, self.get())
    }
}

impl PartialEq for Sum {
    ghost use Rattle.std.specs.Ordering.{int_eq};
    ghost use Rattle.std.proofs.Common.{rules};
    ghost use Rattle.std.specs.Cmp.Rules.{comparing};

    ghost eq = { int_eq };

    ghost laws = { Prim.search (comparing, rules) };

    fn eq(&self, other: &Sum) -> bool {
        self.get() == other.get()
    }
}

impl Eq for Sum {
    ghost use Rattle.std.proofs.Common.{rules};
    ghost use Rattle.std.specs.Cmp.Rules.{comparing};

    ghost laws = { Prim.search (comparing, rules) };
}
