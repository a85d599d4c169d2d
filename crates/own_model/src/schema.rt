use crate::bound::BoundSelect;
use own_base::{ColNo, ColumnSet, EdgeNo, List, MakeCopy, Name, TableNo, Text};
use std::alloc::{AllocError, Global};

/// What a column's values are. `Sum` is the kind of a sum in a view or a reply.
#[derive(Clone, Copy, Debug, PartialEq, Eq)]
pub enum Kind {
    Int,
    Text,
    Sum,
}

/// How a column refers to rows of a table. All but `Plain` give an edge of the ownership graph.
#[derive(Clone, Copy, Debug, PartialEq, Eq)]
pub enum RefKind {
    Plain,
    OwnedBy,
    Owns,
    AccessedBy,
    Accesses,
}

/// A column of a table.
#[derive(Debug, Drop)]
pub struct Column {
    pub name: Name,
    pub kind: Kind,
    pub not_null: bool,
    pub unique: bool,
    pub refers: Option<(RefKind, TableNo)>,
}

/// A table: its name, whether its rows are data subjects, its primary key, and its columns by number.
#[derive(Debug, Drop)]
pub struct TableDef {
    pub name: Name,
    pub subject: bool,
    pub key: ColNo,
    pub columns: List<Column>,
}

/// A view: its query, and the names and kinds of its columns.
#[derive(Debug, Drop)]
pub struct ViewDef {
    pub name: Name,
    pub query: BoundSelect,
    pub names: List<Name>,
    pub kinds: List<Kind>,
}

/// An edge of the ownership graph, from rows of the lower table to rows of the upper one.
#[derive(Debug, Drop)]
pub struct Edge {
    pub number: EdgeNo,
    pub lower: TableNo,
    pub upper: TableNo,
    /// The table that has the column, one of the two.
    pub holder: TableNo,
    pub column: ColNo,
    /// Whether it gives ownership; else it gives access.
    pub owner: bool,
    /// The lower table's columns that it hides ON GET.
    pub get: ColumnSet,
    /// The lower table's columns that it rules ON DEL.
    pub del: ColumnSet,
    /// Whether it is ruled DELETE_ROW.
    pub strike: bool,
}

/// Tables, views and edges, each by number.
#[derive(Debug, Drop)]
pub struct Schema {
    pub tables: List<TableDef>,
    pub views: List<ViewDef>,
    pub edges: List<Edge>,
}

/// The canonical text of an admitted CREATE, and whether it is a CREATE VIEW.
#[derive(Debug, Drop)]
pub struct CreateText {
    pub view: bool,
    pub text: Text,
}

impl MakeCopy for Kind {
    fn copy(&self, _alloc: Global) -> Result<Kind, AllocError> {
        Ok(*self)
    }
}

impl MakeCopy for Column {
    fn copy(&self, alloc: Global) -> Result<Column, AllocError> {
        let name = self.name.copy(alloc)?;
        Ok(Column {
            name,
            kind: self.kind,
            not_null: self.not_null,
            unique: self.unique,
            refers: self.refers,
        })
    }
}

impl MakeCopy for TableDef {
    fn copy(&self, alloc: Global) -> Result<TableDef, AllocError> {
        let name = self.name.copy(alloc)?;
        let columns = self.columns.copy(alloc)?;
        Ok(TableDef {
            name,
            subject: self.subject,
            key: self.key,
            columns,
        })
    }
}

impl MakeCopy for ViewDef {
    fn copy(&self, alloc: Global) -> Result<ViewDef, AllocError> {
        let name = self.name.copy(alloc)?;
        let query = self.query.copy(alloc)?;
        let names = self.names.copy(alloc)?;
        let kinds = self.kinds.copy(alloc)?;
        Ok(ViewDef {
            name,
            query,
            names,
            kinds,
        })
    }
}

impl MakeCopy for Edge {
    fn copy(&self, _alloc: Global) -> Result<Edge, AllocError> {
        Ok(Edge {
            number: self.number,
            lower: self.lower,
            upper: self.upper,
            holder: self.holder,
            column: self.column,
            owner: self.owner,
            get: self.get,
            del: self.del,
            strike: self.strike,
        })
    }
}

impl MakeCopy for Schema {
    fn copy(&self, alloc: Global) -> Result<Schema, AllocError> {
        let tables = self.tables.copy(alloc)?;
        let views = self.views.copy(alloc)?;
        let edges = self.edges.copy(alloc)?;
        Ok(Schema {
            tables,
            views,
            edges,
        })
    }
}

impl MakeCopy for CreateText {
    fn copy(&self, alloc: Global) -> Result<CreateText, AllocError> {
        let text = self.text.copy(alloc)?;
        Ok(CreateText {
            view: self.view,
            text,
        })
    }
}
