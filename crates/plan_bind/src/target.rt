ghost use Rattle.std.specs.Prelude.{◌≡◌, ◌≤◌, [], length, option_map, IfSome};
ghost use Rattle.std.specs.Option.{option_map_or};
ghost use Rattle.query_model.specs.Scope as scope;
ghost use Rattle.bind_scope.specs.Lent.{table_of};

use bind_scope::{NumberedTable, Scope, Source, columns_found};
use own_base::Name;
use own_model::TABLE_COLUMNS;

/// The columns that WHERE of a write can name: those of its table, none where none was found.
pub fn target_scope<'a>(name: &'a Name, found: Option<NumberedTable<'a>>) -> Scope<'a>
    requires { IfSome found (λ found. length found.table.now.columns ≤ TABLE_COLUMNS) }
    ensures { result ≡ scope.scope_from 0 name.now (option_map_or (λ found. scope.table_columns found.1) (option_map table_of found.entry) []) }
{
    let columns = columns_found(found);
    Scope::of_one(Source { name, columns })
}
