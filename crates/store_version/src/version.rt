ghost use Rattle.std.specs.Prelude.{◌≡◌, length, IfOk};
ghost use Rattle.own_model.specs.Db.{empty};
ghost use Rattle.owner_graph.specs.Graph.{IsGraphOf};
ghost use Rattle.link_model.specs.Whose.{owners_at, reach_at};
ghost use Rattle.micro_db.specs.Kept.{StandsFor};
ghost use Rattle.view_select.specs.ShowsViews.{ShowsViews};

use crate::owned::OwnedRows;
use crate::rows::Rows;
use annot_schema::Catalog;
use micro_db::MicroDb;
use own_base::{MakeCopy, RowName, Subject};
use own_model::Schema;
use owner_graph::Graph;
use std::alloc::{AllocError, Global};
use std::marker::Model;
use view_deltas::Views;

/// The state of a store, which contracts see as the database: its rows, whose each row is, for each data subject copies of its
/// rows, and the rows of its views.
#[derive(Drop)]
pub struct Version {
    pub(crate) owned: OwnedRows,
    pub(crate) micro: MicroDb,
    pub(crate) views: Views,
}

impl Model for Version {
    ghost use Rattle.own_model.specs.Db.{Db};
    ghost use Rattle.own_model.specs.contracts.bound.BoundCond as cond;
    ghost use Rattle.std.specs.Coded.{codes};

    ghost Value = { Db };

    ghost coded = { Prim.hlevel (codes, cond.the_row.coded) };

    ghost view = { λ version. version.owned };

    ghost use Rattle.micro_db.specs.Kept.{StandsFor};
    ghost use Rattle.view_select.specs.ShowsViews.{ShowsViews};

    ghost invariant = { λ version. StandsFor version.owned version.micro × ShowsViews version.owned version.views };
}

/// A version that is prepared, and may take the place of the one that it was prepared from.
#[derive(Drop)]
pub struct Next {
    pub(crate) version: Version,
}

impl Model for Next {
    ghost use Rattle.own_model.specs.Db.{Db};
    ghost use Rattle.own_model.specs.contracts.bound.BoundCond as cond;
    ghost use Rattle.std.specs.Coded.{codes};

    ghost Value = { Db };

    ghost coded = { Prim.hlevel (codes, cond.the_row.coded) };

    ghost view = { λ next. next.version };
}

impl Version {
    /// No table.
    pub fn new(alloc: Global) -> Result<Version, AllocError>
        ensures { IfOk result (λ version. version ≡ empty) }
    {
        let owned = OwnedRows::new(alloc)?;
        Ok(Version {
            owned,
            micro: MicroDb::new(),
            views: Views::new(alloc),
        })
    }

    /// Lends the catalog, which has the schema and the texts of the creates. Takes no memory.
    pub fn catalog(&self) -> &Catalog
        ensures schema { result.now.schema ≡ self.now.schema }
        ensures creates { result.now.creates ≡ self.now.creates }
    {
        self.rows().catalog()
    }

    /// Lends the graph of the schema's edges, which the catalog keeps. Takes no memory.
    pub fn graph(&self) -> &Graph
        ensures { IsGraphOf (length self.now.schema.tables) self.now.schema.edges result.now }
    {
        self.rows().graph()
    }

    /// Lends the schema. Takes no memory.
    pub fn schema(&self) -> &Schema
        ensures { result.now ≡ self.now.schema }
    {
        self.rows().schema()
    }

    /// Lends what is kept for its views: the rows that each shows. Takes no memory.
    pub fn views(&self) -> &Views
        ensures { ShowsViews self.now result.now }
    {
        &self.views
    }

    /// Lends the rows. Takes no memory.
    pub(crate) fn rows(&self) -> &Rows
        ensures { result.now ≡ self.now }
    {
        self.owned.rows()
    }

    /// Lends the subjects that own a row. Takes no memory.
    pub(crate) fn owners(&self, name: &RowName) -> &[Subject]
        ensures { result.now ≡ owners_at self.now name.now }
    {
        self.owned.owners(name)
    }

    /// Lends the subjects that reach it. Takes no memory.
    pub(crate) fn reach(&self, name: &RowName) -> &[Subject]
        ensures { result.now ≡ reach_at self.now name.now }
    {
        self.owned.reach(name)
    }

    /// Lends what is kept of each data subject. Takes no memory.
    pub(crate) fn micro(&self) -> &MicroDb
        ensures { StandsFor self.now result.now }
    {
        &self.micro
    }
}

impl MakeCopy for Version {
    /// The version itself, whose parts both share. It takes memory for a list of as many parts as there are tables.
    fn copy(&self, alloc: Global) -> Result<Version, AllocError> {
        let owned = self.owned.copied(alloc)?;
        let micro = self.micro.copy(alloc)?;
        let views = self.views.copy(alloc)?;
        Ok(Version {
            owned,
            micro,
            views,
        })
    }
}

impl Next {
    /// Lends the version that it is.
    pub fn version(&self) -> &Version
        ensures { result.now ≡ self.now }
    {
        &self.version
    }
}
