ghost use Rattle.std.specs.Prelude.{◌≡◌, IfOk};

use crate::list::List;
use std::alloc::{AllocError, Global};

/// Copying into memory that may be refused. A copy equals its source.
pub trait MakeCopy {
    /// A value that equals this one.
    fn copy(&self, alloc: Global) -> Result<Self, AllocError>
        ensures { IfOk result (λ copy. copy ≡ self.now) };
}

impl<T: MakeCopy + Drop> MakeCopy for List<T> {
    fn copy(&self, alloc: Global) -> Result<List<T>, AllocError> {
        let mut copied = List::new(alloc);
        for item in self.items() {
            copied.add(item.copy(alloc)?)?;
        }
        Ok(copied)
    }
}

impl<T: MakeCopy> MakeCopy for Option<T> {
    fn copy(&self, alloc: Global) -> Result<Option<T>, AllocError> {
        match self {
            None => Ok(None),
            Some(value) => Ok(Some(value.copy(alloc)?)),
        }
    }
}

impl<A: MakeCopy + Drop, B: MakeCopy> MakeCopy for (A, B) {
    fn copy(&self, alloc: Global) -> Result<(A, B), AllocError> {
        let first = self.0.copy(alloc)?;
        let second = self.1.copy(alloc)?;
        Ok((first, second))
    }
}
