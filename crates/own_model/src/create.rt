use crate::schema::{Kind, RefKind};
use crate::select::Select;
use own_base::{List, MakeCopy, Name};
use std::alloc::{AllocError, Global};

/// What a reference column names: `REFERENCES table ( column )`, or one of its annotated forms.
#[derive(Debug, Drop)]
pub struct RefDef {
    pub kind: RefKind,
    pub table: Name,
    pub column: Name,
}

/// A CREATE TABLE as it is read, its parts in the text's order.
#[derive(Debug, Drop)]
pub struct CreateTable {
    pub name: Name,
    /// Whether the table's rows are data subjects.
    pub subject: bool,
    pub parts: List<Part>,
}

/// A part of a CREATE TABLE: a column, a constraint on a column, or a rule.
#[derive(Debug, Drop)]
pub enum Part {
    Column(ColumnDef),
    Key(Name),
    Unique(Name),
    Foreign(Name, RefDef),
    /// ON GET of the first column, ANON of the others.
    Get(Name, List<Name>),
    /// ON DEL of the first column, ANON of the others.
    Del(Name, List<Name>),
    /// ON DEL of the column, DELETE_ROW.
    DelRow(Name),
}

/// A column as a CREATE TABLE has it.
#[derive(Debug, Drop)]
pub struct ColumnDef {
    pub name: Name,
    pub kind: Kind,
    pub attrs: List<Attr>,
}

/// What stands after a column's kind.
#[derive(Debug, Drop)]
pub enum Attr {
    Key,
    NotNull,
    Unique,
    Refers(RefDef),
}

/// A CREATE VIEW as it is read.
#[derive(Debug, Drop)]
pub struct CreateView {
    pub name: Name,
    pub select: Select,
}

impl MakeCopy for RefDef {
    fn copy(&self, alloc: Global) -> Result<RefDef, AllocError> {
        let table = self.table.copy(alloc)?;
        let column = self.column.copy(alloc)?;
        Ok(RefDef {
            kind: self.kind,
            table,
            column,
        })
    }
}

impl MakeCopy for Attr {
    fn copy(&self, alloc: Global) -> Result<Attr, AllocError> {
        match self {
            Attr::Key => Ok(Attr::Key),
            Attr::NotNull => Ok(Attr::NotNull),
            Attr::Unique => Ok(Attr::Unique),
            Attr::Refers(refers) => Ok(Attr::Refers(refers.copy(alloc)?)),
        }
    }
}

impl MakeCopy for ColumnDef {
    fn copy(&self, alloc: Global) -> Result<ColumnDef, AllocError> {
        let name = self.name.copy(alloc)?;
        let attrs = self.attrs.copy(alloc)?;
        Ok(ColumnDef {
            name,
            kind: self.kind,
            attrs,
        })
    }
}

impl MakeCopy for Part {
    fn copy(&self, alloc: Global) -> Result<Part, AllocError> {
        match self {
            Part::Column(column) => Ok(Part::Column(column.copy(alloc)?)),
            Part::Key(column) => Ok(Part::Key(column.copy(alloc)?)),
            Part::Unique(column) => Ok(Part::Unique(column.copy(alloc)?)),
            Part::Foreign(column, refers) => {
                Ok(Part::Foreign(column.copy(alloc)?, refers.copy(alloc)?))
            }
            Part::Get(column, hidden) => Ok(Part::Get(column.copy(alloc)?, hidden.copy(alloc)?)),
            Part::Del(column, ruled) => Ok(Part::Del(column.copy(alloc)?, ruled.copy(alloc)?)),
            Part::DelRow(column) => Ok(Part::DelRow(column.copy(alloc)?)),
        }
    }
}

impl MakeCopy for CreateTable {
    fn copy(&self, alloc: Global) -> Result<CreateTable, AllocError> {
        let name = self.name.copy(alloc)?;
        let parts = self.parts.copy(alloc)?;
        Ok(CreateTable {
            name,
            subject: self.subject,
            parts,
        })
    }
}
