use crate::edge_list::EdgeList;
use own_base::{MakeCopy, Row, RowName};
use std::alloc::{AllocError, Global};

/// A copy of a row that a data subject owns, and the edges by which the subject reaches it, by number.
#[derive(Debug, Drop)]
pub struct Shelved {
    pub name: RowName,
    pub row: Row,
    pub by: EdgeList,
}

/// What it takes, in bytes; the values of its row, and the text of its key, lie beside it.
const _: () = prove!(size_of::<Shelved>() == 72);

impl MakeCopy for Shelved {
    /// A copy of a shared row takes no memory.
    fn copy(&self, alloc: Global) -> Result<Shelved, AllocError> {
        let name = self.name.copy(alloc)?;
        let row = self.row.copy(alloc)?;
        let by = self.by.copy(alloc)?;
        Ok(Shelved { name, row, by })
    }
}
