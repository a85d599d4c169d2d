ghost use Rattle.std.specs.Prelude.{◌≡◌, ◌∷◌, [], None, Some, bytes_eq, true, position, unwrap_or, if◌then◌else◌};
ghost use Rattle.std.specs.Option.{option_map_or};
ghost use Rattle.own_model.specs.declared.refusal.Refusal.TheVariants.{NoColumn};
ghost use Rattle.query_model.specs.SelectFaults as spec;
ghost use Rattle.query_model.specs.SelectFaults.{order_faults, orders_output};
ghost use Rattle.query_model.specs.SelectMeaning.{bound_order};
ghost use Rattle.query_model.specs.WithinLimits.{IsSelectWithin};
ghost use Rattle.bind_scope.specs.After.{after};

use crate::grouping::listed_items;
use crate::output::output_name;
use bind_scope::{Fault, Least, Scope, bind_column};
use own_base::{ColNo, Name};
use own_model::{ColRef, Item, Select};
use row_reading::is_same_name;

/// The first item whose output column has this name.
fn output_position(items: &[Item], name: &Name) -> Option<usize>
    ensures { result ≡ position (λ item. bytes_eq (spec.output_name item) name.now) items.now }
{
    items
        .iter()
        .position(|item| output_name(item) == name.bytes())
}

/// Whether the table before the dot, where one stands there, is this one.
fn is_under(table: &Name, reference: &ColRef) -> bool
    ensures { result ≡ option_map_or (bytes_eq table.now) reference.now.table true }
{
    match &reference.table {
        None => true,
        Some(named) => is_same_name(table, named),
    }
}

/// The output column that ORDER BY of a grouped select names: the first of its name. Where there is none, that is noted.
#[tactic(auto, using(crate::proofs::Positions::positions))]
fn bind_output<'a>(select: &'a Select, reference: &'a ColRef, least: &mut Least<'a>) -> ColNo
    requires { IsSelectWithin select.now }
    ensures bound { result.0 ≡ unwrap_or (position (λ item. bytes_eq (spec.output_name item) reference.now.column) (spec.listed_items select.now.items)) 0 }
    ensures noted { least.new ≡ after least.old (if orders_output select.now reference.now then [] else NoColumn reference.now.column ∷ []) }
{
    let position = output_position(listed_items(&select.items), &reference.column);
    if !(is_under(&select.from, reference) && position.is_some()) {
        least.note(Fault::NoColumn(&reference.column));
    }
    match position {
        None => ColNo(0),
        Some(position) => ColNo(position as u32),
    }
}

/// The order of a select: of a plain one by a column of the source's row, of a grouped one by an output column.
pub fn bind_order<'a>(
    scope: &Scope<'a>,
    select: &'a Select,
    grouped: bool,
    least: &mut Least<'a>,
) -> Option<(ColNo, bool)>
    requires within { IsSelectWithin select.now }
    requires grouped { grouped ≡ spec.is_grouped select.now }
    ensures bound { result ≡ option_map_or (λ order. Some (bound_order scope.now select.now order)) select.now.order None }
    ensures noted { least.new ≡ after least.old (order_faults scope.now select.now select.now.order) }
{
    match &select.order {
        None => None,
        Some(order) => {
            let column = if grouped {
                bind_output(select, &order.column, least)
            } else {
                bind_column(scope, &order.column, least).number()
            };
            Some((column, order.down))
        }
    }
}
