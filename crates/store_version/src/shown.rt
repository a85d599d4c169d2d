ghost use Rattle.std.specs.Prelude.{refl};
ghost use Rattle.own_model.specs.Db.{IsOrdered};
ghost use Rattle.own_model.proofs.OneOrder.{ordered-prop};

use crate::version::Version;
use link_model::{Linked, Referring};
use own_base::{ColNo, Key, Row, RowName, Subject, TableNo};
use own_model::{Schema, StoreView};
use shelf_model::{Shelved, Shelves};

/// A version, lent, whose rows' keys rise in each table: its rows, who holds what in them, whose they are, and copies of each
/// data subject's rows.
#[derive(Drop)]
pub struct Shown<'a> {
    pub version: &'a Version,
    pub ghost ordered: { IsOrdered version.now } by { ordered-prop version.now },
}

impl<'a> StoreView for Shown<'a> {
    ghost db = { λ shown. shown.version.now };

    fn schema(&self) -> &Schema {
        self.version.schema()
    }

    fn count(&self, table: TableNo) -> u64 {
        self.version.rows().count(table)
    }

    fn row_at(&self, table: TableNo, at: u64) -> Option<&Row> {
        self.version.rows().row_at(table, at)
    }

    fn row(&self, name: &RowName) -> Option<&Row> {
        self.version.rows().row(name)
    }

    fn rows_from(&self, table: TableNo, at: u64) -> &[Row] {
        self.version.rows().rows_from(table, at)
    }

    ghost ordered = { λ shown. shown.ordered };
}

impl<'a> Referring for Shown<'a> {
    ghost linked = { λ shown. shown.version.now };

    fn holder_count(&self, table: TableNo, column: ColNo, value: &Key) -> u64 {
        self.version.rows().holder_count(table, column, value)
    }

    fn holders_from(&self, table: TableNo, column: ColNo, value: &Key, at: u64) -> &[(Key, Key)] {
        self.version.rows().holders_from(table, column, value, at)
    }
}

impl<'a> Linked for Shown<'a> {
    fn owners(&self, name: &RowName) -> &[Subject] {
        self.version.owners(name)
    }

    fn reach(&self, name: &RowName) -> &[Subject] {
        self.version.reach(name)
    }

    ghost one = { λ shown. refl };
}

impl<'a> Shelves for Shown<'a> {
    ghost shelved = { λ shown. shown.version.now };

    fn shelf_count(&self, subject: &Subject) -> u64 {
        self.version.micro().shelf_count(subject)
    }

    fn shelf_from(&self, subject: &Subject, at: u64) -> &[(Subject, Shelved)] {
        self.version.micro().shelf_from(subject, at)
    }

    fn seen_count(&self, subject: &Subject) -> u64 {
        self.version.micro().seen_count(subject)
    }

    fn seen_from(&self, subject: &Subject, at: u64) -> &[(Subject, RowName)] {
        self.version.micro().seen_from(subject, at)
    }
}
