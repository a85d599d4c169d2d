ghost use Rattle.std.specs.Prelude.{◌≡◌, ◌<◌, length, slice_get};
ghost use Rattle.std.specs.Option.{option_copied};
ghost use Rattle.own_model.specs.Db.{Db, IsOrdered};
ghost use Rattle.own_model.specs.Stored.{IsRunFrom, row_named, rows_at};

use crate::schema::Schema;
use own_base::{Row, RowName, TableNo};

/// The tables of a store and their rows, lent. It represents one database. None of its calls takes memory.
pub trait StoreView {
    // The database that it shows.
    ghost db: { Self → Db };

    /// Lends the schema.
    fn schema(&self) -> &Schema
        ensures { result.now ≡ (db self.now).schema };

    /// How many rows a table has.
    fn count(&self, table: TableNo) -> u64
        requires { table.0 < length (db self.now).schema.tables }
        ensures { result ≡ length (rows_at (db self.now).rows table.0) };

    /// The row at a place of a table, counted from 0 by rising key.
    fn row_at(&self, table: TableNo, at: u64) -> Option<&Row>
        requires { table.0 < length (db self.now).schema.tables }
        ensures { option_copied result ≡ slice_get (rows_at (db self.now).rows table.0) at };

    /// The row of this name.
    fn row(&self, name: &RowName) -> Option<&Row>
        requires { name.now.table.0 < length (db self.now).schema.tables }
        ensures { option_copied result ≡ row_named (db self.now).schema (db self.now).rows name.now };

    /// A run of a table's rows that begins at a place: at least one row where there is one, and none past the end.
    /// Called again behind each run, it goes over all rows.
    fn rows_from(&self, table: TableNo, at: u64) -> &[Row]
        requires { table.0 < length (db self.now).schema.tables }
        ensures { IsRunFrom (rows_at (db self.now).rows table.0) at result.now };

    // The keys of each table rise.
    ghost ordered: { (view : Self) → IsOrdered (db view) };
}
