ghost use Rattle.std.specs.Prelude.{◌≡◌, ◌≤◌, ◌∷◌, ◌++◌, [], None, Some, filter, length, map, option_map, position, IfOk, OnOk};
ghost use Rattle.own_model.specs.declared.limit.TheConstants.{TABLE_COLUMNS};
ghost use Rattle.query_model.specs.WriteFaults as spec;
ghost use Rattle.query_model.specs.WriteFaults.{list_faults, numbered_columns};
ghost use Rattle.bind_scope.specs.After.{after};
ghost use Rattle.plan_bind.specs.ColumnList.{columns_meant, is_of_number, is_unnamed};
ghost use Rattle.plan_bind.specs.NumberedColumns.{column_of};
ghost use Rattle.plan_bind.specs.InsertTargets.{IsCounted, place_of, places_of};

use crate::column_list::bind_list;
use crate::numbered_column::NumberedColumn;
use bind_scope::Least;
use own_base::{ColNo, List, Name};
use own_model::{TABLE_COLUMNS, TableDef};
use row_reading::is_among;
use std::alloc::{AllocError, Global};
use std::marker::Model;

/// What the values of an INSERT's tuples are for. It is worked out once, so that each tuple takes time in proportion to
/// its values and the table's columns. Contracts see the table and the column list.
#[derive(Debug, Drop)]
pub(crate) struct Targets<'a> {
    table: &'a TableDef,
    names: &'a Option<List<Name>>,
    columns: List<Option<NumberedColumn<'a>>>,
    places: List<Option<usize>>,
    left: List<NumberedColumn<'a>>,
}

impl<'a> Model for Targets<'a> {
    ghost use Rattle.plan_bind.specs.InsertTargets.{AreTargets, Listed};

    ghost Value = { Listed };

    ghost view = { λ targets. record { table = targets.table.now; names = targets.names.now } };

    ghost invariant = { λ targets. AreTargets targets.table.now targets.names.now targets.columns targets.places targets.left };
}

/// The columns of a table, with their numbers.
#[tactic(auto, using(crate::proofs::ColumnLists::numbered))]
fn numbered_columns(alloc: Global, table: &TableDef) -> Result<List<NumberedColumn<'_>>, AllocError>
    requires { length table.now.columns ≤ TABLE_COLUMNS }
    ensures { IfOk result (λ numbered. map column_of numbered ≡ numbered_columns table.now) }
{
    let mut numbered = List::new(alloc);
    for (number, column) in table.columns.items().iter().enumerate() {
        numbered.add(NumberedColumn {
            number: ColNo(number as u32),
            column,
        })?;
    }
    Ok(numbered)
}

/// All columns, as those that values are for where no list names them.
fn all_columns<'a>(
    alloc: Global,
    numbered: &[NumberedColumn<'a>],
) -> Result<List<Option<NumberedColumn<'a>>>, AllocError>
    ensures { IfOk result (λ columns. columns_meant columns ≡ map (λ column. Some column) (map column_of numbered.now)) }
{
    let mut columns = List::new(alloc);
    for column in numbered {
        columns.add(Some(*column))?;
    }
    Ok(columns)
}

/// The columns that values are for. What is wrong with the column list is noted.
fn columns_for<'a>(
    alloc: Global,
    table: &'a TableDef,
    numbered: &[NumberedColumn<'a>],
    names: &'a Option<List<Name>>,
    least: &mut Least<'a>,
) -> Result<List<Option<NumberedColumn<'a>>>, AllocError>
    requires table { length table.now.columns ≤ TABLE_COLUMNS }
    requires numbered { map column_of numbered.now ≡ numbered_columns table.now }
    ensures found { IfOk result (λ columns. columns_meant columns ≡ spec.columns_for table.now names.now) }
    ensures noted { OnOk result (least.new ≡ after least.old (list_faults table.now names.now)) }
{
    match names {
        None => all_columns(alloc, numbered),
        Some(names) => bind_list(alloc, table, names.items(), least),
    }
}

/// One column more, where none of these names means it.
fn add_unnamed<'a>(
    left: &mut List<NumberedColumn<'a>>,
    column: NumberedColumn<'a>,
    names: &[Name],
) -> Result<(), AllocError>
    ensures { OnOk result (map column_of left.new ≡ map column_of left.old ++ filter (is_unnamed names.now) (column_of column.entry ∷ [])) }
{
    if !is_among(names, &column.column.name) {
        left.add(column)?;
    }
    Ok(())
}

/// Those columns that none of these names means.
fn unnamed_columns<'a>(
    alloc: Global,
    numbered: &[NumberedColumn<'a>],
    names: &[Name],
) -> Result<List<NumberedColumn<'a>>, AllocError>
    ensures { IfOk result (λ left. map column_of left ≡ filter (is_unnamed names.now) (map column_of numbered.now)) }
{
    let mut left = List::new(alloc);
    for column in numbered {
        add_unnamed(&mut left, *column, names)?;
    }
    Ok(left)
}

/// The columns that get no value.
fn columns_left<'a>(
    alloc: Global,
    table: &TableDef,
    numbered: &[NumberedColumn<'a>],
    names: &Option<List<Name>>,
) -> Result<List<NumberedColumn<'a>>, AllocError>
    requires { map column_of numbered.now ≡ numbered_columns table.now }
    ensures { IfOk result (λ left. map column_of left ≡ spec.columns_left table.now names.now) }
{
    match names {
        None => Ok(List::new(alloc)),
        Some(names) => unnamed_columns(alloc, numbered, names.items()),
    }
}

/// Whether a value is for the column of this number.
fn is_of_number(meant: &Option<NumberedColumn<'_>>, number: u32) -> bool
    ensures { result ≡ is_of_number number (option_map column_of meant.now) }
{
    match meant {
        None => false,
        Some(meant) => meant.number.0 == number,
    }
}

/// The place of the first value that is for the column of this number.
fn place_of(columns: &[Option<NumberedColumn<'_>>], number: u32) -> Option<usize>
    ensures { result ≡ position (λ meant. is_of_number number (option_map column_of meant)) columns.now }
{
    columns.iter().position(|meant| is_of_number(meant, number))
}

/// The places of the values for these columns.
fn places_of(
    alloc: Global,
    columns: &[Option<NumberedColumn<'_>>],
    numbered: &[NumberedColumn<'_>],
) -> Result<List<Option<usize>>, AllocError>
    ensures { IfOk result (λ places. places ≡ map (λ column. place_of (columns_meant columns.now) column.0) (map column_of numbered.now)) }
{
    let mut places = List::new(alloc);
    for column in numbered {
        places.add(place_of(columns, column.number.0))?;
    }
    Ok(places)
}

impl<'a> Targets<'a> {
    /// Those of an INSERT into a table. What is wrong with the column list is noted.
    pub(crate) fn of(
        alloc: Global,
        table: &'a TableDef,
        names: &'a Option<List<Name>>,
        least: &mut Least<'a>,
    ) -> Result<Targets<'a>, AllocError>
        requires { length table.now.columns ≤ TABLE_COLUMNS }
        ensures of { IfOk result (λ targets. targets ≡ record { table = table.now; names = names.now }) }
        ensures noted { OnOk result (least.new ≡ after least.old (list_faults table.now names.now)) }
        ensures counted { IfOk result (λ targets. IsCounted targets least.new) }
    {
        let numbered = numbered_columns(alloc, table)?;
        let columns = columns_for(alloc, table, numbered.items(), names, least)?;
        let places = places_of(alloc, columns.items(), numbered.items())?;
        let left = columns_left(alloc, table, numbered.items(), names)?;
        Ok(Targets {
            table,
            names,
            columns,
            places,
            left,
        })
    }

    /// The table.
    pub(crate) fn table(&self) -> &'a TableDef
        ensures { result.now ≡ self.now.table }
    {
        self.table
    }

    /// The columns that values are for, by place; `None` is for a name that means no column.
    pub(crate) fn columns(&self) -> &[Option<NumberedColumn<'a>>]
        ensures { columns_meant result.now ≡ spec.columns_for self.now.table self.now.names }
    {
        self.columns.items()
    }

    /// The places of the values for the table's columns, by column number.
    pub(crate) fn places(&self) -> &[Option<usize>]
        ensures { result.now ≡ places_of (spec.columns_for self.now.table self.now.names) self.now.table }
    {
        self.places.items()
    }

    /// The columns that get no value.
    pub(crate) fn left(&self) -> &[NumberedColumn<'a>]
        ensures { map column_of result.now ≡ spec.columns_left self.now.table self.now.names }
    {
        self.left.items()
    }
}
