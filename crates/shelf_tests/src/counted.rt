//! A version that counts how often it is looked at.

use link_model::{Linked, Referring};
use own_base::{ColNo, Key, Row, RowName, Subject, TableNo};
use own_model::{Schema, StoreView};
use std::cell::Cell;
use store_version::Shown;

/// A version, lent, that counts how often its rows, who refers to them and whose they are is looked at: once for each call,
/// and once more for each row or entry of a run that is lent.
#[derive(Drop)]
pub struct Counted<'a> {
    pub shown: Shown<'a>,
    pub looks: Cell<u64>,
}

impl<'a> Counted<'a> {
    fn look(&self, lent: usize) {
        self.looks
            .set(self.looks.get().wrapping_add(1).wrapping_add(lent as u64));
    }
}

impl<'a> StoreView for Counted<'a> {
    ghost db = { λ counted. counted.shown.version.now };

    fn schema(&self) -> &Schema {
        self.shown.schema()
    }

    fn count(&self, table: TableNo) -> u64 {
        self.look(0);
        self.shown.count(table)
    }

    fn row_at(&self, table: TableNo, at: u64) -> Option<&Row> {
        self.look(0);
        self.shown.row_at(table, at)
    }

    fn row(&self, name: &RowName) -> Option<&Row> {
        self.look(0);
        self.shown.row(name)
    }

    fn rows_from(&self, table: TableNo, at: u64) -> &[Row] {
        let run = self.shown.rows_from(table, at);
        self.look(run.len());
        run
    }

    ghost ordered = { λ counted. counted.shown.ordered };
}

impl<'a> Referring for Counted<'a> {
    ghost linked = { λ counted. counted.shown.version.now };

    fn holder_count(&self, table: TableNo, column: ColNo, value: &Key) -> u64 {
        self.look(0);
        self.shown.holder_count(table, column, value)
    }

    fn holders_from(&self, table: TableNo, column: ColNo, value: &Key, at: u64) -> &[(Key, Key)] {
        let run = self.shown.holders_from(table, column, value, at);
        self.look(run.len());
        run
    }
}

impl<'a> Linked for Counted<'a> {
    ghost use Rattle.std.specs.Prelude.{refl};

    ghost one = { λ counted. refl };

    fn owners(&self, name: &RowName) -> &[Subject] {
        self.look(0);
        self.shown.owners(name)
    }

    fn reach(&self, name: &RowName) -> &[Subject] {
        self.look(0);
        self.shown.reach(name)
    }
}
