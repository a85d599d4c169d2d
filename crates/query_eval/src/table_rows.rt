ghost use Rattle.std.specs.Prelude.{◌≡◌, ◌<◌, [], length};
ghost use Rattle.own_model.specs.Stored.{rows_at};
ghost use Rattle.query_eval.specs.TableRows.{rows_left};

use own_base::{Row, TableNo};
use own_model::StoreView;

/// The rows of a table, in rising key order, by runs of the store.
#[derive(Drop)]
pub(crate) struct TableRows<'a, V: StoreView> {
    view: &'a V,
    table: TableNo,
    count: u64,
    /// The place behind the run.
    behind: u64,
    run: &'a [Row],
    ghost there: { table.0 < length (V.db view.now).schema.tables },
    ghost counted: { count ≡ length (rows_at (V.db view.now).rows table.0) },
}

impl<'a, V: StoreView> TableRows<'a, V> {
    /// All rows of a table. Takes no memory.
    pub(crate) fn new(view: &'a V, table: TableNo) -> TableRows<'a, V>
        requires { table.0 < length (V.db view.now).schema.tables }
        ensures view { result.view.now ≡ view.now }
        ensures table { result.table ≡ table }
        ensures rows { rows_left result.run.now result.behind (rows_at (V.db view.now).rows table.0) ≡ rows_at (V.db view.now).rows table.0 }
    {
        TableRows {
            view,
            table,
            count: view.count(table),
            behind: 0,
            run: &[],
        }
    }

    /// Takes the next run where this one has come to its end. Takes no memory.
    fn refill(&mut self)
        ensures view { self.new.view.now ≡ self.old.view.now }
        ensures table { self.new.table ≡ self.old.table }
        ensures same { rows_left self.new.run.now self.new.behind (rows_at (V.db self.old.view.now).rows self.old.table.0)
            ≡ rows_left self.old.run.now self.old.behind (rows_at (V.db self.old.view.now).rows self.old.table.0) }
        ensures none { self.new.run.now ≡ [] → rows_left self.old.run.now self.old.behind (rows_at (V.db self.old.view.now).rows self.old.table.0) ≡ [] }
    {
        if self.run.is_empty() && self.behind < self.count {
            self.run = self.view.rows_from(self.table, self.behind);
            self.behind += self.run.len() as u64;
        }
    }
}

impl<'a, V: StoreView> Iterator for TableRows<'a, V> {
    type Item = &'a Row;

    ghost use Rattle.std.specs.Iterator.{YieldsFirstRef, item_count};

    ghost next_gives = { YieldsFirstRef (λ s. rows_left s.run.now s.behind (rows_at (V.db s.view.now).rows s.table.0)) };

    ghost remaining = { item_count (λ s. rows_left s.run.now s.behind (rows_at (V.db s.view.now).rows s.table.0)) };

    fn next(&mut self) -> Option<&'a Row> {
        self.refill();
        let (first, others) = self.run.split_first()?;
        self.run = others;
        Some(first)
    }
}
