ghost use Rattle.std.specs.Prelude.{◌≡◌, ◌≤◌, ◌∷◌, ◌++◌, ◌==◌, [], false, length, map, option_map, IfOk, IfSome, OnOk, if◌then◌else◌};
ghost use Rattle.std.specs.List.{flat_map};
ghost use Rattle.std.specs.Option.{option_map_or};
ghost use Rattle.own_model.specs.declared.bound.Bound.TheVariants as meant;
ghost use Rattle.own_model.specs.declared.refusal.Refusal.TheVariants.{KeyWrite};
ghost use Rattle.schema_model.specs.WithinLimits.{IsWithinLimits};
ghost use Rattle.query_model.specs.ConditionFaults.{bound_where};
ghost use Rattle.query_model.specs.Scope as scope;
ghost use Rattle.query_model.specs.SelectMeaning.{table_number};
ghost use Rattle.query_model.specs.WriteFaults.{set_faults, twice, update_faults};
ghost use Rattle.query_model.specs.WriteMeaning as meaning;
ghost use Rattle.bind_scope.specs.After.{after};
ghost use Rattle.bind_scope.specs.Lent.{table_of};
ghost use Rattle.plan_bind.specs.NumberedColumns.{column_of};

use crate::expression::bind_expression;
use crate::numbered_column::{NumberedColumn, bind_name, column_number};
use crate::repeats::note_repeated;
use crate::target::target_scope;
use bind_scope::{Fault, Least, NumberedTable, bind_table, bind_where, number_of};
use own_base::{Boxed, ColNo, List, Name};
use own_model::{Bound, BoundExpr, Cond, Expr, Schema, TABLE_COLUMNS, TableDef};
use std::alloc::{AllocError, Global};

/// Notes where the column that is set is the primary key.
fn note_key_write<'a>(
    table: &TableDef,
    name: &'a Name,
    column: Option<NumberedColumn<'a>>,
    least: &mut Least<'a>,
)
    ensures { least.new ≡ after least.old (if option_map_or (λ found. found.0 == table.now.key.0) (option_map column_of column.entry) false then KeyWrite name.now ∷ [] else []) }
{
    if let Some(column) = column
        && column.number.0 == table.key.0
    {
        least.note(Fault::KeyWrite(name));
    }
}

/// One column that is set, and to what.
fn bind_set<'a>(
    alloc: Global,
    table: &'a TableDef,
    name: &'a Name,
    expression: &'a Expr,
    least: &mut Least<'a>,
) -> Result<(ColNo, BoundExpr), AllocError>
    requires { length table.now.columns ≤ TABLE_COLUMNS }
    ensures bound { IfOk result (λ set. set ≡ (meaning.column_number table.now name.now, meaning.bound_expression table.now expression.now)) }
    ensures noted { OnOk result (least.new ≡ after least.old (set_faults table.now (name.now, expression.now))) }
{
    let column = bind_name(table, name, least);
    note_key_write(table, name, column, least);
    let expression = bind_expression(alloc, table, name, column, expression, least)?;
    Ok((column_number(column), expression))
}

/// The columns that are set, one after another.
fn bind_each<'a>(
    alloc: Global,
    table: &'a TableDef,
    sets: &'a [(Name, Expr)],
    least: &mut Least<'a>,
) -> Result<List<(ColNo, BoundExpr)>, AllocError>
    requires { length table.now.columns ≤ TABLE_COLUMNS }
    ensures bound { IfOk result (λ bound. bound ≡ map (λ set. (meaning.column_number table.now set.0, meaning.bound_expression table.now set.1)) sets.now) }
    ensures noted { OnOk result (least.new ≡ after least.old (flat_map (set_faults table.now) sets.now)) }
{
    let mut bound = List::new(alloc);
    for set in sets {
        bound.add(bind_set(alloc, table, &set.0, &set.1, least)?)?;
    }
    Ok(bound)
}

/// The columns that are set. Where one is set twice, that is noted. It shows by the columns' numbers: a name that is no
/// column has been noted before, and that is told before a count.
#[tactic(auto, using(crate::proofs::SetTwice::twice_by_number), unfolding(query_model::specs::WriteMeaning::bound_sets))]
fn bind_sets<'a>(
    alloc: Global,
    table: &'a TableDef,
    sets: &'a [(Name, Expr)],
    least: &mut Least<'a>,
) -> Result<List<(ColNo, BoundExpr)>, AllocError>
    requires { length table.now.columns ≤ TABLE_COLUMNS }
    ensures bound { IfOk result (λ bound. bound ≡ meaning.bound_sets table.now sets.now) }
    ensures noted { OnOk result (least.new ≡ after least.old (flat_map (set_faults table.now) sets.now ++ twice [] (map (λ set. set.0) sets.now))) }
{
    let bound = bind_each(alloc, table, sets, least)?;
    note_repeated(bound.items(), least);
    Ok(bound)
}

/// The columns that are set, of a table that was found; none where none was.
fn bind_sets_of<'a>(
    alloc: Global,
    found: Option<NumberedTable<'a>>,
    sets: &'a [(Name, Expr)],
    least: &mut Least<'a>,
) -> Result<List<(ColNo, BoundExpr)>, AllocError>
    requires { IfSome found (λ found. length found.table.now.columns ≤ TABLE_COLUMNS) }
    ensures bound { IfOk result (λ bound. bound ≡ option_map_or (λ found. meaning.bound_sets found.1 sets.now) (option_map table_of found.entry) []) }
    ensures noted { OnOk result (least.new ≡ after least.old (option_map_or (λ found. flat_map (set_faults found.1) sets.now ++ twice [] (map (λ set. set.0) sets.now)) (option_map table_of found.entry) [])) }
{
    match found {
        None => Ok(List::new(alloc)),
        Some(found) => bind_sets(alloc, found.table, sets, least),
    }
}

/// An UPDATE. What is wrong with it is noted.
#[tactic(auto, unfolding(query_model::specs::WriteFaults::update_faults))]
pub fn bind_update<'a>(
    alloc: Global,
    schema: &'a Schema,
    table: &'a Name,
    sets: &'a List<(Name, Expr)>,
    cond: &'a Option<Boxed<Cond>>,
    least: &mut Least<'a>,
) -> Result<Bound, AllocError>
    requires tables { IsWithinLimits schema.now }
    ensures bound { IfOk result (λ bound. bound ≡ meant.Update (table_number schema.now table.now)
        (option_map_or (λ found. meaning.bound_sets found.1 sets.now) (scope.table_named schema.now table.now) []) (bound_where (scope.table_scope schema.now table.now) cond.now)) }
    ensures noted { OnOk result (least.new ≡ after least.old (update_faults schema.now table.now sets.now cond.now)) }
{
    let found = bind_table(schema, table, least);
    let sets = bind_sets_of(alloc, found, sets.items(), least)?;
    let cond = bind_where(alloc, &target_scope(table, found), cond, least)?;
    Ok(Bound::Update {
        table: number_of(found),
        sets,
        cond,
    })
}
