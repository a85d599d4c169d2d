//! The output columns of a select.
ghost use Rattle.std.specs.Prelude.{◌≡◌, ◌++◌, map, option_map, IfOk, OnOk};
ghost use Rattle.std.specs.Option.{option_to_list};
ghost use Rattle.query_model.specs.SelectFaults as spec;
ghost use Rattle.query_model.specs.SelectMeaning.{output_names};
ghost use Rattle.bind_scope.specs.Lent.{named_of};
ghost use Rattle.bind_select.specs.Star.{column_name};

use bind_scope::{Named, Scope};
use own_base::{List, MakeCopy, Name};
use own_model::{Item, Items, What};
use std::alloc::{AllocError, Global};

/// The name of what an item shows.
fn what_name(what: &What) -> &[u8]
    ensures { result.now ≡ spec.what_name what.now }
{
    match what {
        What::Column(reference) => reference.column.bytes(),
        What::Count => b"count",
        What::SumOf(_) => b"sum",
    }
}

/// The bytes of an output column's name: its AS name, else that of what it shows.
pub fn output_name(item: &Item) -> &[u8]
    ensures { result.now ≡ spec.output_name item.now }
{
    match &item.alias {
        None => what_name(&item.what),
        Some(name) => name.bytes(),
    }
}

/// The name of what an item shows, as a name.
fn owned_what_name(alloc: Global, what: &What) -> Result<Name, AllocError>
    ensures { IfOk result (λ name. name ≡ spec.what_name what.now) }
{
    match what {
        What::Column(reference) => reference.column.copy(alloc),
        What::Count => Name::from_str(alloc, "count"),
        What::SumOf(_) => Name::from_str(alloc, "sum"),
    }
}

/// The name of an output column, as a name.
fn owned_output_name(alloc: Global, item: &Item) -> Result<Name, AllocError>
    ensures { IfOk result (λ name. name ≡ spec.output_name item.now) }
{
    match &item.alias {
        None => owned_what_name(alloc, &item.what),
        Some(name) => name.copy(alloc),
    }
}

/// The names of the items that a select lists.
fn listed_names(alloc: Global, items: &[Item]) -> Result<List<Name>, AllocError>
    ensures { IfOk result (λ names. names ≡ map spec.output_name items.now) }
{
    let mut names = List::new(alloc);
    for item in items {
        names.add(owned_output_name(alloc, item)?)?;
    }
    Ok(names)
}

/// One column's name more, where the column is there.
fn add_name(
    alloc: Global,
    names: &mut List<Name>,
    named: Option<Named<'_>>,
) -> Result<(), AllocError>
    ensures { OnOk result (names.new ≡ names.old ++ map column_name (option_to_list (option_map named_of named.entry))) }
{
    match named {
        None => Ok(()),
        Some(named) => names.add(named.column.copy(alloc)?),
    }
}

/// The names of all columns that can be named.
#[tactic(auto, using(bind_scope::proofs::Only::more))]
fn all_names(alloc: Global, scope: &Scope<'_>) -> Result<List<Name>, AllocError>
    ensures { IfOk result (λ names. names ≡ map column_name scope.now) }
{
    let mut names = List::new(alloc);
    for number in 0..scope.len() {
        add_name(alloc, &mut names, scope.at(number))?;
    }
    Ok(names)
}

/// The names of the output columns.
pub(crate) fn bind_names(
    alloc: Global,
    scope: &Scope<'_>,
    items: &Items,
) -> Result<List<Name>, AllocError>
    ensures { IfOk result (λ names. names ≡ output_names scope.now items.now) }
{
    match items {
        Items::Star => all_names(alloc, scope),
        Items::Listed(items) => listed_names(alloc, items.items()),
    }
}
