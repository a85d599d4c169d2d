ghost use Rattle.std.specs.Prelude.{◌≡◌, [], find};
ghost use Rattle.std.specs.Option.{option_copied};
ghost use Rattle.own_model.specs.Db.{IsOrdered};
ghost use Rattle.own_model.specs.Stored.{has_key, rows_at};
ghost use Rattle.own_model.proofs.OneOrder.{ordered-prop};

use crate::key_ref::{compare, key_of, lent};
use own_base::{Key, List, Row, RowName, TableNo};
use own_model::{Schema, StoreView, TableDef};
use std::alloc::Global;

/// A small store, whose rows stand as they were given.
#[derive(Drop)]
pub struct Small {
    pub schema: Schema,
    pub rows: Vec<List<Row>>,
}

impl Small {
    pub fn new(alloc: Global) -> Small {
        Small {
            schema: Schema {
                tables: List::new(alloc),
                views: List::new(alloc),
                edges: List::new(alloc),
            },
            rows: Vec::new(alloc),
        }
    }

    fn rows_of(&self, table: TableNo) -> &[Row]
        ensures { result.now ≡ rows_at self.now.rows.items table.0 }
    {
        match self.rows.get(table.0 as usize) {
            Some(rows) => rows.items(),
            None => &[],
        }
    }
}

/// Whether a row of a table has this key.
#[tactic(auto, unfolding(own_model::specs::Db::key_of))]
fn has_key(table: &TableDef, key: &Key, row: &Row) -> bool
    ensures { result ≡ has_key table.now key.now row.now }
{
    compare(key_of(table, row), lent(key)).is_eq()
}

/// The row of a table that has this key.
fn row_of_key<'a>(table: &TableDef, rows: &'a [Row], key: &Key) -> Option<&'a Row>
    ensures { option_copied result ≡ find (has_key table.now key.now) rows.now }
{
    rows.iter().find(|row| has_key(table, key, row))
}

/// The rows of a small store, lent, whose keys rise in each table.
#[derive(Drop)]
pub struct Shown<'a> {
    pub small: &'a Small,
    pub ghost ordered: { IsOrdered (record { creates = []; schema = small.now.schema; rows = small.now.rows.items }) } by { ordered-prop (record { creates = []; schema = small.now.schema; rows = small.now.rows.items }) },
}

impl<'a> StoreView for Shown<'a> {
    ghost db = { λ shown. record { creates = []; schema = shown.small.now.schema; rows = shown.small.now.rows.items } };

    fn schema(&self) -> &Schema {
        &self.small.schema
    }

    fn count(&self, table: TableNo) -> u64 {
        self.small.rows_of(table).len() as u64
    }

    fn row_at(&self, table: TableNo, at: u64) -> Option<&Row> {
        self.small.rows_of(table).get(at as usize)
    }

    #[tactic(auto, unfolding(own_model::specs::Stored::row_named))]
    fn row(&self, name: &RowName) -> Option<&Row> {
        let table = self.small.schema.tables.items().get(name.table.0 as usize)?;
        row_of_key(table, self.small.rows_of(name.table), &name.key)
    }

    fn rows_from(&self, table: TableNo, at: u64) -> &[Row] {
        let rows = self.small.rows_of(table);
        if at < rows.len() as u64 {
            &rows[at as usize..]
        } else {
            &[]
        }
    }

    ghost ordered = { λ shown. shown.ordered };
}
