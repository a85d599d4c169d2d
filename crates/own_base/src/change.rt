use crate::make_copy::MakeCopy;
use crate::row::Row;
use crate::row_name::RowName;
use std::alloc::{AllocError, Global};

/// A change of one row: the row before and after, None where there is none.
#[derive(Debug, Drop)]
pub struct Change {
    pub name: RowName,
    pub before: Option<Row>,
    pub after: Option<Row>,
}

impl MakeCopy for Change {
    fn copy(&self, alloc: Global) -> Result<Change, AllocError> {
        let name = self.name.copy(alloc)?;
        let before = self.before.copy(alloc)?;
        let after = self.after.copy(alloc)?;
        Ok(Change {
            name,
            before,
            after,
        })
    }
}
