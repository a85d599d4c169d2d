ghost use Rattle.std.specs.Prelude.{◌≡◌, ◌<◌, [], ◌∷◌, MatchOption, length};
ghost use Rattle.own_base.specs.Key.{key_cmp};
ghost use Rattle.own_model.specs.Db.{key_of};
ghost use Rattle.own_model.specs.Stored.{rows_at};
ghost use Rattle.page_model.specs.Changed.{above_key, below_key};
ghost use Rattle.page_model.specs.Rising.{IsRising};
ghost use Rattle.txn_space.specs.RowsLeft.{rows_left};

use own_base::{Key, Row, TableNo};
use own_model::{StoreView, TableDef};
use row_reading::compare_key;
use std::cmp::Ordering;
use std::marker::Model;

/// Where a walk over the rows of a table stands.
#[derive(Drop)]
struct Walk<'a, V: StoreView> {
    base: &'a V,
    table: TableNo,
    count: u64,
    /// The place behind the run.
    behind: u64,
    /// What is left of a run.
    run: &'a [Row],
    ghost there: { table.0 < length (V.db base.now).schema.tables },
    ghost counted: { count ≡ length (rows_at (V.db base.now).rows table.0) },
}

impl<'a, V: StoreView> Walk<'a, V> {
    /// Takes the next run where this one has come to its end. Takes no memory.
    fn refill(&mut self)
        ensures base { self.new.base.now ≡ self.old.base.now }
        ensures table { self.new.table ≡ self.old.table }
        ensures same { rows_left self.new.run.now self.new.behind (rows_at (V.db self.old.base.now).rows self.old.table.0)
            ≡ rows_left self.old.run.now self.old.behind (rows_at (V.db self.old.base.now).rows self.old.table.0) }
        ensures none { self.new.run.now ≡ [] → rows_left self.old.run.now self.old.behind (rows_at (V.db self.old.base.now).rows self.old.table.0) ≡ [] }
    {
        if self.run.is_empty() && self.behind < self.count {
            self.run = self.base.rows_from(self.table, self.behind);
            self.behind += self.run.len() as u64;
        }
    }
}

/// The rows of a table in rising key order, by runs of a base. Contracts see the list of those that are left.
#[derive(Drop)]
pub(crate) struct BaseRows<'a, V: StoreView> {
    walk: Walk<'a, V>,
}

impl<'a, V: StoreView> Model for BaseRows<'a, V> {
    ghost use Rattle.std.specs.Prelude.{List};
    ghost use Rattle.own_model.specs.Db.{Row as Values};
    ghost use Rattle.own_model.specs.Stored.{rows_at};
    ghost use Rattle.txn_space.specs.RowsLeft.{rows_left};

    ghost Value = { List Values };

    ghost view = { λ it. rows_left it.walk.run.now it.walk.behind (rows_at (V.db it.walk.base.now).rows it.walk.table.0) };
}

impl<'a, V: StoreView> BaseRows<'a, V> {
    /// All rows of a table. Takes no memory.
    pub(crate) fn new(base: &'a V, table: TableNo) -> BaseRows<'a, V>
        requires { table.0 < length (V.db base.now).schema.tables }
        ensures { result ≡ rows_at (V.db base.now).rows table.0 }
    {
        BaseRows {
            walk: Walk {
                base,
                table,
                count: base.count(table),
                behind: 0,
                run: &[],
            },
        }
    }

    /// The next row, where it is below a key. Where there is none, the row of that key is passed. Takes no memory.
    pub(crate) fn next_below(&mut self, definition: &TableDef, key: &Key) -> Option<&'a Row>
        requires { IsRising (key_of definition.now) key_cmp self.old }
        ensures rising { IsRising (key_of definition.now) key_cmp self.new }
        ensures below { MatchOption result (below_key (key_of definition.now) key_cmp key.now self.old ≡ [])
            (λ row. below_key (key_of definition.now) key_cmp key.now self.old ≡ row.now ∷ below_key (key_of definition.now) key_cmp key.now self.new) }
        ensures above { MatchOption result (self.new ≡ above_key (key_of definition.now) key_cmp key.now self.old)
            (λ row. above_key (key_of definition.now) key_cmp key.now self.new ≡ above_key (key_of definition.now) key_cmp key.now self.old) }
        ensures fewer { MatchOption result (self.new ≡ self.new) (λ row. length self.new < length self.old) }
    {
        self.walk.refill();
        let (row, others) = self.walk.run.split_first()?;
        match compare_key(definition, row, key) {
            Ordering::Less => {
                self.walk.run = others;
                Some(row)
            }
            Ordering::Equal => {
                self.walk.run = others;
                None
            }
            Ordering::Greater => None,
        }
    }
}

impl<'a, V: StoreView> Iterator for BaseRows<'a, V> {
    type Item = &'a Row;

    ghost use Rattle.std.specs.Iterator.{YieldsFirstRef, item_count};

    ghost next_gives = { YieldsFirstRef (λ left. left) };

    ghost remaining = { item_count (λ left. left) };

    fn next(&mut self) -> Option<&'a Row> {
        self.walk.refill();
        let (first, others) = self.walk.run.split_first()?;
        self.walk.run = others;
        Some(first)
    }
}
