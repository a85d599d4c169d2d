use crate::make_copy::MakeCopy;
use crate::number::TableNo;
use crate::value::Key;
use std::alloc::{AllocError, Global};

/// What a row is called, whether it is there or not: its table and its primary key.
#[derive(Debug, Default, Drop, PartialEq, Eq, PartialOrd, Ord)]
pub struct RowName {
    pub table: TableNo,
    pub key: Key,
}

/// A data subject: a row of a subject table, by its name.
#[derive(Debug, Default, Drop, PartialEq, Eq, PartialOrd, Ord)]
pub struct Subject(pub RowName);

impl MakeCopy for RowName {
    fn copy(&self, alloc: Global) -> Result<RowName, AllocError> {
        let key = self.key.copy(alloc)?;
        Ok(RowName {
            table: self.table,
            key,
        })
    }
}

impl MakeCopy for Subject {
    fn copy(&self, alloc: Global) -> Result<Subject, AllocError> {
        Ok(Subject(self.0.copy(alloc)?))
    }
}
