ghost use Rattle.own_model.specs.Db.{IsOrdered};
ghost use Rattle.own_model.proofs.OneOrder.{ordered-prop};

use crate::rows::Rows;
use link_model::Referring;
use own_base::{ColNo, Key, Row, RowName, TableNo};
use own_model::{Schema, StoreView};

/// Rows whose keys rise in each table, lent before it is known whose they are.
#[derive(Drop)]
pub(crate) struct ShownRows<'a> {
    pub(crate) rows: &'a Rows,
    pub(crate) ghost ordered: { IsOrdered rows.now } by { ordered-prop rows.now },
}

impl<'a> StoreView for ShownRows<'a> {
    ghost db = { λ shown. shown.rows.now };

    fn schema(&self) -> &Schema {
        self.rows.schema()
    }

    fn count(&self, table: TableNo) -> u64 {
        self.rows.count(table)
    }

    fn row_at(&self, table: TableNo, at: u64) -> Option<&Row> {
        self.rows.row_at(table, at)
    }

    fn row(&self, name: &RowName) -> Option<&Row> {
        self.rows.row(name)
    }

    fn rows_from(&self, table: TableNo, at: u64) -> &[Row] {
        self.rows.rows_from(table, at)
    }

    ghost ordered = { λ shown. shown.ordered };
}

impl<'a> Referring for ShownRows<'a> {
    ghost linked = { λ shown. shown.rows.now };

    fn holder_count(&self, table: TableNo, column: ColNo, value: &Key) -> u64 {
        self.rows.holder_count(table, column, value)
    }

    fn holders_from(&self, table: TableNo, column: ColNo, value: &Key, at: u64) -> &[(Key, Key)] {
        self.rows.holders_from(table, column, value, at)
    }
}
