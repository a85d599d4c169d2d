ghost use Rattle.std.specs.Prelude.{◌≡◌, ◌≤◌, length, option_map};
ghost use Rattle.std.specs.Option.{option_map_or};
ghost use Rattle.bind_scope.specs.After.{after};
ghost use Rattle.query_model.specs.WriteFaults.{column_in, not_a_column};
ghost use Rattle.plan_bind.specs.NumberedColumns.{column_of};

use bind_scope::{Fault, Least};
use own_base::{ColNo, Name};
use own_model::{Column, TABLE_COLUMNS, TableDef};
use row_reading::is_same_name;

/// A column of a table, with its number.
#[derive(Clone, Copy, Debug)]
pub struct NumberedColumn<'a> {
    pub number: ColNo,
    pub column: &'a Column,
}

/// The column of a name.
#[tactic(auto, using(crate::proofs::NumberedColumns::columns))]
pub fn column_named<'a>(table: &'a TableDef, name: &Name) -> Option<NumberedColumn<'a>>
    requires { length table.now.columns ≤ TABLE_COLUMNS }
    ensures { option_map column_of result ≡ column_in table.now name.now }
{
    for (number, column) in table.columns.items().iter().enumerate() {
        if is_same_name(&column.name, name) {
            return Some(NumberedColumn {
                number: ColNo(number as u32),
                column,
            });
        }
    }
    None
}

/// The column of a name. Where there is none, that is noted.
pub fn bind_name<'a>(
    table: &'a TableDef,
    name: &'a Name,
    least: &mut Least<'a>,
) -> Option<NumberedColumn<'a>>
    requires { length table.now.columns ≤ TABLE_COLUMNS }
    ensures found { option_map column_of result ≡ column_in table.now name.now }
    ensures noted { least.new ≡ after least.old (not_a_column table.now name.now) }
{
    let found = column_named(table, name);
    if found.is_none() {
        least.note(Fault::NoColumn(name));
    }
    found
}

/// The number of a column that was found; that of the first where none was.
pub fn column_number(found: Option<NumberedColumn<'_>>) -> ColNo
    ensures { result.0 ≡ option_map_or (λ found. found.0) (option_map column_of found.entry) 0 }
{
    match found {
        None => ColNo(0),
        Some(found) => found.number,
    }
}
