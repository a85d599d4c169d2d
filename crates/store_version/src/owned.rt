ghost use Rattle.std.specs.Prelude.{◌≡◌, ◌<◌, ◌∷◌, [], IsTrue, length, IfOk, OnErr, OnOk};
ghost use Rattle.own_model.specs.declared.limit.TheConstants.{VIEWS};
ghost use Rattle.own_model.specs.Db.{IsOrdered, empty};
ghost use Rattle.link_model.specs.Whose.{owners_at, reach_at};
ghost use Rattle.schema_model.specs.Lone.{is_lone};
ghost use Rattle.schema_model.specs.OwnerSchema.{IsOwnerSchema};
ghost use Rattle.state_model.specs.Put.{put};
ghost use Rattle.move_model.specs.Moves.{AreMovesOf};
ghost use Rattle.annot_schema.specs.Created.{IsAdmissible, IsSound};
ghost use Rattle.ref_index.specs.Tells.{Tell};
ghost use Rattle.store_version.specs.Added.{db_viewed, db_with};

use crate::rows::Rows;
use crate::shown_rows::ShownRows;
use annot_schema::Admitted;
use move_model::OwnerMove;
use own_base::{Change, List, MakeCopy, RowName, Subject, Text};
use own_model::ViewDef;
use owner_index::OwnerIndex;
use std::alloc::{AllocError, Global};
use std::marker::Model;

/// The rows of a store, and whose each is.
#[derive(Drop)]
pub(crate) struct OwnedRows {
    rows: Rows,
    owners: OwnerIndex,
}

impl Model for OwnedRows {
    ghost use Rattle.own_model.specs.Db.{Db};
    ghost use Rattle.own_model.specs.contracts.bound.BoundCond as cond;
    ghost use Rattle.std.specs.Coded.{codes};

    ghost Value = { Db };

    ghost coded = { Prim.hlevel (codes, cond.the_row.coded) };

    ghost view = { λ owned. owned.rows };

    ghost use Rattle.owner_index.specs.Held.{StandsFor};

    ghost invariant = { λ owned. StandsFor owned.rows owned.owners };
}

impl OwnedRows {
    /// No table.
    pub(crate) fn new(alloc: Global) -> Result<OwnedRows, AllocError>
        ensures { IfOk result (λ owned. owned ≡ empty) }
    {
        let rows = Rows::new(alloc)?;
        Ok(OwnedRows {
            rows,
            owners: OwnerIndex::new(),
        })
    }

    /// Those with changes, and which subjects stand otherwise to which rows than before.
    pub(crate) fn after(
        &self,
        alloc: Global,
        changes: &[Change],
    ) -> Result<(OwnedRows, List<OwnerMove>), AllocError>
        requires tells { Tell self.now changes.now }
        requires ordered { IsOrdered self.now }
        requires owner { IsOwnerSchema self.now.schema }
        ensures rows { IfOk result (λ both. both.0 ≡ put self.now changes.now) }
        ensures moves { IfOk result (λ both. AreMovesOf self.now (put self.now changes.now) both.1) }
    {
        let rows = self.rows.after(alloc, changes)?;
        let left = ShownRows { rows: &rows };
        let (owners, moves) = self
            .owners
            .after(alloc, rows.graph(), &left, &left, changes)?;
        let owned = OwnedRows { rows, owners };
        Ok((owned, moves))
    }

    /// Those with a table at the end that was admitted, which has no rows.
    pub(crate) fn with_table(
        &self,
        alloc: Global,
        admitted: Admitted,
        text: Text,
    ) -> Result<OwnedRows, AllocError>
        requires admissible { IsAdmissible self.now.schema admitted }
        requires ordered { IsOrdered self.now }
        ensures rows { IfOk result (λ owned. owned ≡ db_with self.now admitted text) }
        ensures sound { IfOk result (λ _. IsSound self.now.schema) }
    {
        let rows = self.rows.with_table(alloc, admitted, text)?;
        let owners = self.owners.copy(alloc)?;
        Ok(OwnedRows { rows, owners })
    }

    /// Those with a view at the end. There is room for one more.
    pub(crate) fn with_view(
        &self,
        alloc: Global,
        definition: ViewDef,
        text: Text,
    ) -> Result<OwnedRows, AllocError>
        requires { length self.now.schema.views < VIEWS }
        ensures { IfOk result (λ owned. owned ≡ db_viewed self.now definition text) }
    {
        let rows = self.rows.with_view(alloc, definition, text)?;
        let owners = self.owners.copy(alloc)?;
        Ok(OwnedRows { rows, owners })
    }

    /// The same, whose parts both share.
    pub(crate) fn copied(&self, alloc: Global) -> Result<OwnedRows, AllocError>
        ensures { IfOk result (λ owned. owned ≡ self.now) }
    {
        let rows = self.rows.copied(alloc)?;
        let owners = self.owners.copy(alloc)?;
        Ok(OwnedRows { rows, owners })
    }

    /// Makes one change of a row of a lone table here. Whose each row is stays. After `AllocError` all is as it was.
    pub(crate) fn change(&mut self, alloc: Global, change: &Change) -> Result<(), AllocError>
        requires tells { Tell self.old (change.now ∷ []) }
        requires ordered { IsOrdered self.old }
        requires owner { IsOwnerSchema self.old.schema }
        requires lone { IsTrue (is_lone self.old.schema change.now.name.table.0) }
        ensures changed { OnOk result (self.new ≡ put self.old (change.now ∷ [])) }
        ensures unchanged { OnErr result (self.new ≡ self.old) }
    {
        self.rows.change(alloc, change)
    }
}

impl OwnedRows {
    /// Lends the rows. Takes no memory.
    pub(crate) fn rows(&self) -> &Rows
        ensures { result.now ≡ self.now }
    {
        &self.rows
    }

    /// Lends the subjects that own a row. Takes no memory.
    pub(crate) fn owners(&self, name: &RowName) -> &[Subject]
        ensures { result.now ≡ owners_at self.now name.now }
    {
        self.owners.owners(name)
    }

    /// Lends the subjects that reach it. Takes no memory.
    pub(crate) fn reach(&self, name: &RowName) -> &[Subject]
        ensures { result.now ≡ reach_at self.now name.now }
    {
        self.owners.reach(name)
    }
}
