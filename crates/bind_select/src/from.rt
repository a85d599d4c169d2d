ghost use Rattle.std.specs.Prelude.{◌≡◌, ◌<◌, ◌≤◌, ◌^◌, ◌∷◌, ◌++◌, ◌||◌, [], is_none, length, if◌then◌else◌};
ghost use Rattle.std.specs.Option.{option_map_or};
ghost use Rattle.own_model.specs.declared.limit.TheConstants.{SELECT_ITEMS, TABLE_COLUMNS};
ghost use Rattle.own_model.specs.declared.refusal.Refusal.TheVariants.{NoTable};
ghost use Rattle.schema_model.specs.WithinLimits.{IsWithinLimits};
ghost use Rattle.query_model.specs.Scope as scope;
ghost use Rattle.query_model.specs.Scope.{scope_from};
ghost use Rattle.query_model.specs.SelectFaults.{from_faults, joined_twice, no_source, no_table, select_scope};
ghost use Rattle.query_model.specs.SelectMeaning.{table_number};
ghost use Rattle.query_model.specs.WithinLimits.{AreViewsWithin};
ghost use Rattle.bind_scope.specs.After.{after};
ghost use Rattle.bind_scope.specs.Lent.{columns_of, table_of};
ghost use Rattle.bind_select.specs.Rows.{pair_rows, pair_scope, rows_of, single_source, viewed_columns, viewed_source};
ghost use Rattle.bind_select.specs.declared.from.Rows.TheVariants as rows;

use crate::grouping::is_grouped;
use bind_scope::{
    Columns, Fault, Least, Scope, Source, bind_table, columns_found, number_of, table_named,
    view_named,
};
use own_base::{Name, TableNo, ViewNo};
use own_model::{Join, Schema, Select, Source1};
use row_reading::is_same_name;

/// Where the rows of a select come from: a table or a view, or two tables, of which the left one has that many columns.
#[derive(Debug, Drop)]
pub enum Rows {
    One(Source1),
    Two {
        left: TableNo,
        right: TableNo,
        left_columns: u32,
    },
}

/// What FROM names: the columns that can be named, and where the rows come from.
#[derive(Debug, Drop)]
pub struct Sources<'a> {
    pub scope: Scope<'a>,
    pub rows: Rows,
}

/// The two tables of a join.
fn bind_pair<'a>(
    schema: &'a Schema,
    name: &'a Name,
    join: &'a Join,
    least: &mut Least<'a>,
) -> Sources<'a>
    requires { IsWithinLimits schema.now }
    ensures scope { result.scope ≡ pair_scope schema.now name.now join.now.table }
    ensures rows { result.rows ≡ pair_rows schema.now name.now join.now.table }
    ensures noted { least.new ≡ after least.old (no_table schema.now name.now ++ no_table schema.now join.now.table ++ joined_twice name.now join.now) }
{
    let left = bind_table(schema, name, least);
    let right = bind_table(schema, &join.table, least);
    if is_same_name(name, &join.table) {
        least.note(Fault::NoTable(&join.table));
    }
    let columns = columns_found(left);
    let rows = Rows::Two {
        left: number_of(left),
        right: number_of(right),
        left_columns: columns.len() as u32,
    };
    let left = Source { name, columns };
    let right = Source {
        name: &join.table,
        columns: columns_found(right),
    };
    Sources {
        scope: Scope::of_two(left, right),
        rows,
    }
}

/// One table or view.
fn single<'a>(name: &'a Name, columns: Columns<'a>, source: Source1) -> Sources<'a>
    requires { length (columns_of columns) < 2 ^ 32 }
    ensures scope { result.scope ≡ scope_from 0 name.now (columns_of columns.entry) }
    ensures rows { result.rows ≡ rows.One source }
{
    Sources {
        scope: Scope::of_one(Source { name, columns }),
        rows: Rows::One(source),
    }
}

/// The one view of a select without a join, where no table has the name. A view stands only in a plain select.
#[tactic(auto, using(bind_scope::proofs::Numbered::columns))]
fn bind_viewed<'a>(
    schema: &'a Schema,
    name: &'a Name,
    grouped: bool,
    least: &mut Least<'a>,
) -> Sources<'a>
    requires { AreViewsWithin schema.now }
    ensures scope { result.scope ≡ scope_from 0 name.now (viewed_columns schema.now name.now) }
    ensures rows { result.rows ≡ rows.One (viewed_source schema.now name.now) }
    ensures noted { least.new ≡ after least.old (if grouped || is_none (scope.view_named schema.now name.now) then NoTable name.now ∷ [] else []) }
{
    match view_named(schema, name) {
        Some(found) => {
            if grouped {
                least.note(Fault::NoTable(name));
            }
            let columns = Columns::OfView(found.view.names.items(), found.view.kinds.items());
            single(name, columns, Source1::View(found.number))
        }
        None => {
            least.note(Fault::NoTable(name));
            single(name, Columns::Nowhere, Source1::View(ViewNo(0)))
        }
    }
}

/// The one table or view of a select without a join.
fn bind_single<'a>(
    schema: &'a Schema,
    name: &'a Name,
    grouped: bool,
    least: &mut Least<'a>,
) -> Sources<'a>
    requires tables { IsWithinLimits schema.now }
    requires views { AreViewsWithin schema.now }
    ensures scope { result.scope ≡ scope_from 0 name.now (scope.columns_named schema.now name.now) }
    ensures rows { result.rows ≡ rows.One (single_source schema.now name.now) }
    ensures noted { least.new ≡ after least.old (if grouped then no_table schema.now name.now else no_source schema.now name.now) }
{
    match table_named(schema, name) {
        Some(found) => single(
            name,
            Columns::OfTable(found.table.columns.items()),
            Source1::Table(found.number),
        ),
        None => bind_viewed(schema, name, grouped, least),
    }
}

/// What FROM names. Where it names what can't stand there, that is noted.
#[tactic(auto, unfolding(query_model::specs::SelectFaults::select_scope))]
pub fn bind_from<'a>(schema: &'a Schema, select: &'a Select, least: &mut Least<'a>) -> Sources<'a>
    requires tables { IsWithinLimits schema.now }
    requires views { AreViewsWithin schema.now }
    ensures scope { result.scope ≡ select_scope schema.now select.now }
    ensures rows { result.rows ≡ rows_of schema.now select.now }
    ensures noted { least.new ≡ after least.old (from_faults schema.now select.now) }
{
    match &select.join {
        Some(join) => bind_pair(schema, &select.from, join, least),
        None => bind_single(schema, &select.from, is_grouped(select), least),
    }
}
