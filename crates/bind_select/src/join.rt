ghost use Rattle.std.specs.Prelude.{◌≡◌, ◌∷◌, [], None, Some, nat_lt, if◌then◌else◌};
ghost use Rattle.std.specs.Option.{option_map_or};
ghost use Rattle.own_model.specs.declared.refusal.Refusal.TheVariants.{NoColumn};
ghost use Rattle.query_model.specs.ConditionFaults.{unlike};
ghost use Rattle.query_model.specs.SelectFaults.{is_of_one_table, join_faults};
ghost use Rattle.bind_scope.specs.After.{after};
ghost use Rattle.bind_select.specs.On.{first_on, second_on, source_from};

use crate::from::Rows;
use bind_scope::{Fault, Least, Meant, Scope, bind_column, note_unlike};
use own_base::ColNo;
use own_model::{Join, Source1};

/// Notes where ON compares two columns of one table, or a number and a text.
fn note_on<'a>(join: &'a Join, left: &Meant<'a>, right: &Meant<'a>, least: &mut Least<'a>)
    ensures { least.new ≡ after least.old (if is_of_one_table left.now right.now then NoColumn join.now.right.column ∷ []
        else unlike join.now.left (option_map_or (λ named. Some named.kind) left.now None) (option_map_or (λ named. Some named.kind) right.now None)) }
{
    if left.is_of_one_table(right) {
        least.note(Fault::NoColumn(&join.right.column));
    } else {
        note_unlike(&join.left, left.kind(), right.kind(), least);
    }
}

/// The columns that ON compares, the first and the second; without ON both are the first of the row.
fn bind_on<'a>(scope: &Scope<'a>, join: &'a Option<Join>, least: &mut Least<'a>) -> (ColNo, ColNo)
    ensures first { result.0.0 ≡ first_on scope.now join.now }
    ensures second { result.1.0 ≡ second_on scope.now join.now }
    ensures noted { least.new ≡ after least.old (join_faults scope.now join.now) }
{
    match join {
        None => (ColNo(0), ColNo(0)),
        Some(join) => {
            let left = bind_column(scope, &join.left, least);
            let right = bind_column(scope, &join.right, least);
            note_on(join, &left, &right, least);
            (left.number(), right.number())
        }
    }
}

/// Two columns of a pair's row, the lower first.
fn ordered(first: ColNo, second: ColNo) -> (ColNo, ColNo)
    ensures lower { result.0.0 ≡ (if nat_lt first.0 second.0 then first.0 else second.0) }
    ensures upper { result.1.0 ≡ (if nat_lt first.0 second.0 then second.0 else first.0) }
{
    if first.0 < second.0 {
        (first, second)
    } else {
        (second, first)
    }
}

/// Where the rows come from, by the columns that ON compares. A join's columns count in their own tables.
fn source_from(rows: Rows, first: ColNo, second: ColNo) -> Source1
    ensures { result ≡ source_from rows first.0 second.0 }
{
    match rows {
        Rows::One(source) => source,
        Rows::Two {
            left,
            right,
            left_columns,
        } => {
            let (left_column, right_column) = ordered(first, second);
            Source1::Pair {
                left,
                right,
                left_column,
                right_column: ColNo(right_column.0.saturating_sub(left_columns)),
            }
        }
    }
}

/// Where the rows of a select come from. What is wrong with ON is noted.
pub fn bind_join<'a>(
    scope: &Scope<'a>,
    rows: Rows,
    join: &'a Option<Join>,
    least: &mut Least<'a>,
) -> Source1
    ensures bound { result ≡ source_from rows (first_on scope.now join.now) (second_on scope.now join.now) }
    ensures noted { least.new ≡ after least.old (join_faults scope.now join.now) }
{
    let (first, second) = bind_on(scope, join, least);
    source_from(rows, first, second)
}
