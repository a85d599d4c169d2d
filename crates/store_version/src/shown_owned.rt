ghost use Rattle.std.specs.Prelude.{refl};
ghost use Rattle.own_model.specs.Db.{IsOrdered};
ghost use Rattle.own_model.proofs.OneOrder.{ordered-prop};

use crate::owned::OwnedRows;
use link_model::{Linked, Referring};
use own_base::{ColNo, Key, Row, RowName, Subject, TableNo};
use own_model::{Schema, StoreView};

/// Rows whose keys rise in each table, lent with whose each is, before what is kept of each subject follows.
#[derive(Drop)]
pub(crate) struct ShownOwned<'a> {
    pub(crate) owned: &'a OwnedRows,
    pub(crate) ghost ordered: { IsOrdered owned.now } by { ordered-prop owned.now },
}

impl<'a> StoreView for ShownOwned<'a> {
    ghost db = { λ shown. shown.owned.now };

    fn schema(&self) -> &Schema {
        self.owned.rows().schema()
    }

    fn count(&self, table: TableNo) -> u64 {
        self.owned.rows().count(table)
    }

    fn row_at(&self, table: TableNo, at: u64) -> Option<&Row> {
        self.owned.rows().row_at(table, at)
    }

    fn row(&self, name: &RowName) -> Option<&Row> {
        self.owned.rows().row(name)
    }

    fn rows_from(&self, table: TableNo, at: u64) -> &[Row] {
        self.owned.rows().rows_from(table, at)
    }

    ghost ordered = { λ shown. shown.ordered };
}

impl<'a> Referring for ShownOwned<'a> {
    ghost linked = { λ shown. shown.owned.now };

    fn holder_count(&self, table: TableNo, column: ColNo, value: &Key) -> u64 {
        self.owned.rows().holder_count(table, column, value)
    }

    fn holders_from(&self, table: TableNo, column: ColNo, value: &Key, at: u64) -> &[(Key, Key)] {
        self.owned.rows().holders_from(table, column, value, at)
    }
}

impl<'a> Linked for ShownOwned<'a> {
    fn owners(&self, name: &RowName) -> &[Subject] {
        self.owned.owners(name)
    }

    fn reach(&self, name: &RowName) -> &[Subject] {
        self.owned.reach(name)
    }

    ghost one = { λ shown. refl };
}
