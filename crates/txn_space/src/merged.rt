ghost use Rattle.std.specs.Prelude.{◌≡◌, ◌<◌, IfSome, length};
ghost use Rattle.own_model.specs.Stored.{rows_at};
ghost use Rattle.txn_space.specs.Changed.{changed_db};
ghost use Rattle.txn_space.specs.Merged.{AreMerged};
ghost use Rattle.txn_space.specs.OneMerged.{merged-prop};

use crate::over::Over;
use crate::row_refs::RowRefs;
use own_base::{Row, RowName, TableNo};
use own_model::{Schema, StoreView};

/// The rows of a table, as a transaction changes them.
#[derive(Drop)]
pub(crate) struct MergedTable<'a> {
    pub table: TableNo,
    pub rows: RowRefs<'a>,
}

/// A base's rows as a transaction changes them, where those of some tables are merged with the changes already, so that a
/// walk over such a table goes over each row once.
#[derive(Drop)]
pub struct Merged<'a, V: StoreView> {
    over: Over<'a, V>,
    tables: Vec<MergedTable<'a>>,
    ghost same: { AreMerged (changed_db (V.db over.base.now) over.space.now).rows tables.items } by { merged-prop (changed_db (V.db over.base.now) over.space.now).rows tables.items },
}

impl<'a, V: StoreView> Merged<'a, V> {
    /// The rows of a view, of which those of some tables are merged. Takes no memory.
    pub(crate) fn new(over: Over<'a, V>, tables: Vec<MergedTable<'a>>) -> Merged<'a, V>
        requires { AreMerged (changed_db (V.db over.base.now) over.space.now).rows tables.items }
        ensures { ⟦<Merged<'a, V> as StoreView>⟧.db result ≡ changed_db (V.db over.entry.base.now) over.entry.space.now }
    {
        Merged { over, tables }
    }

    /// The rows of a table, where they are merged. Takes no memory.
    fn rows(&self, table: TableNo) -> Option<&RowRefs<'a>>
        ensures { IfSome result (λ rows. rows.now ≡ rows_at (changed_db (V.db self.now.over.base.now) self.now.over.space.now).rows table.0) }
    {
        for merged in self.tables.iter() {
            if merged.table == table {
                return Some(&merged.rows);
            }
        }
        None
    }
}

impl<'a, V: StoreView> StoreView for Merged<'a, V> {
    ghost use Rattle.txn_space.specs.ChangedRise.{changed_ordered};

    ghost db = { λ merged. changed_db (V.db merged.over.base.now) merged.over.space.now };

    fn schema(&self) -> &Schema {
        self.over.schema()
    }

    fn count(&self, table: TableNo) -> u64 {
        match self.rows(table) {
            Some(rows) => rows.count(),
            None => self.over.count(table),
        }
    }

    fn row_at(&self, table: TableNo, at: u64) -> Option<&Row> {
        match self.rows(table) {
            Some(rows) => rows.at(at),
            None => self.over.row_at(table, at),
        }
    }

    fn row(&self, name: &RowName) -> Option<&Row> {
        self.over.row(name)
    }

    fn rows_from(&self, table: TableNo, at: u64) -> &[Row] {
        match self.rows(table) {
            Some(rows) => rows.run_from(at),
            None => self.over.rows_from(table, at),
        }
    }

    ghost ordered = { λ merged. changed_ordered (V.db merged.over.base.now) merged.over.space.now merged.over.sound };
}
