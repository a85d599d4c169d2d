//! The rules of columns: no two have one name, and constraints and ON rules stand on them.
ghost use Rattle.std.specs.Prelude.{◌≡◌, filter, map, not, slice_get};
ghost use Rattle.std.specs.Option.{option_copied, option_to_list};
ghost use Rattle.schema_model.specs.Columns.{column_names, is_named};
ghost use Rattle.schema_model.specs.rules.MissingColumns as spec;
ghost use Rattle.schema_model.specs.rules.MissingColumns.{missing_columns};
ghost use Rattle.schema_model.specs.rules.RepeatedColumns.{repeated_columns};

use own_base::Name;
use own_model::{ColumnDef, Part};
use row_reading::is_same_name;
use schema_draft::Draft;

/// Whether one of these columns has this name.
fn is_named(columns: &[&ColumnDef], name: &Name) -> bool
    ensures { result ≡ is_named (map (λ column. column.now.name) columns.now) name.now }
{
    columns
        .iter()
        .any(|column| is_same_name(&column.name, name))
}

/// Rule 2: no two columns have one name.
pub(crate) fn repeated_columns<'a>(draft: &Draft<'a>) -> Option<&'a Name>
    ensures { option_copied result ≡ slice_get (repeated_columns draft.now) 0 }
{
    let columns = draft.columns();
    for (index, column) in columns.iter().enumerate() {
        if is_named(&columns[..index], &column.name) {
            return Some(&column.name);
        }
    }
    None
}

/// The column that a constraint or an ON rule stands on.
fn stands_on(part: &Part) -> Option<&Name>
    ensures { option_copied result ≡ spec.stands_on part.now }
{
    match part {
        Part::Column(_) => None,
        Part::Key(column)
        | Part::Unique(column)
        | Part::Foreign(column, _)
        | Part::Get(column, _)
        | Part::Del(column, _)
        | Part::DelRow(column) => Some(column),
    }
}

/// That column, where the table doesn't have it.
fn missing_on<'a>(draft: &Draft, part: &'a Part) -> Option<&'a Name>
    ensures { option_copied result ≡ slice_get (filter (λ name. not (is_named (column_names draft.now) name)) (option_to_list (spec.stands_on part.now))) 0 }
{
    match stands_on(part) {
        Some(column) if !draft.has_column(column) => Some(column),
        _ => None,
    }
}

/// Rule 3: a constraint and an ON rule stand on a column of the table.
pub(crate) fn missing_columns<'a>(draft: &Draft<'a>) -> Option<&'a Name>
    ensures { option_copied result ≡ slice_get (missing_columns draft.now) 0 }
{
    for part in draft.create().parts.items() {
        if let Some(column) = missing_on(draft, part) {
            return Some(column);
        }
    }
    None
}
