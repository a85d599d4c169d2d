ghost use Rattle.std.specs.Prelude.{◌≡◌, IsTrue, length, map};
ghost use Rattle.own_model.specs.Db.{Db};
ghost use Rattle.page_model.specs.Run.{IsRunFrom};
ghost use Rattle.link_model.specs.Holds.{holders_at};
ghost use Rattle.link_model.specs.Indexed.{is_indexed_at};

use own_base::{ColNo, Key, TableNo};

/// Who holds a value in an indexed column, lent. It represents one database, of whose rows it needs to keep no more than
/// that. None of its calls takes memory.
pub trait Referring {
    // The database of whose rows it tells.
    ghost linked: { Self → Db };

    /// How many rows of a table hold a value in a column.
    fn holder_count(&self, table: TableNo, column: ColNo, value: &Key) -> u64
        requires { IsTrue (is_indexed_at (linked self.now).schema table.0 column.0) }
        ensures { result ≡ length (holders_at (linked self.now) table.0 column.0 value.now) };

    /// A run of the entries of those rows, each the value and a row's key, that begins at a place of the list of their
    /// rising keys, counted from 0: at least one where there is one, and none past the end. Called again behind each run, it
    /// goes over all of them.
    fn holders_from(&self, table: TableNo, column: ColNo, value: &Key, at: u64) -> &[(Key, Key)]
        requires { IsTrue (is_indexed_at (linked self.now).schema table.0 column.0) }
        ensures { IsRunFrom (holders_at (linked self.now) table.0 column.0 value.now) at (map (λ entry. entry.1) result.now) };
}
