//! The kinds of the output columns of a select.
ghost use Rattle.std.specs.Prelude.{◌≡◌, ◌++◌, map, option_map, IfOk, OnOk};
ghost use Rattle.std.specs.Option.{option_to_list};
ghost use Rattle.query_model.specs.SelectMeaning as spec;
ghost use Rattle.query_model.specs.SelectMeaning.{output_kinds};
ghost use Rattle.bind_scope.specs.Lent.{named_of};
ghost use Rattle.bind_select.specs.Star.{column_kind};

use bind_scope::{Named, Scope};
use own_base::List;
use own_model::{Item, Items, Kind, What};
use std::alloc::{AllocError, Global};

/// The kind of what an item shows.
fn what_kind(scope: &Scope<'_>, what: &What) -> Kind
    ensures { result ≡ spec.what_kind scope.now what.now }
{
    match what {
        What::Column(reference) => match scope.find(reference).kind() {
            None => Kind::Int,
            Some(kind) => kind,
        },
        What::Count => Kind::Int,
        What::SumOf(_) => Kind::Sum,
    }
}

/// The kinds of the items that a select lists.
fn listed_kinds(alloc: Global, scope: &Scope<'_>, items: &[Item]) -> Result<List<Kind>, AllocError>
    ensures { IfOk result (λ kinds. kinds ≡ map (λ item. spec.what_kind scope.now item.what) items.now) }
{
    let mut kinds = List::new(alloc);
    for item in items {
        kinds.add(what_kind(scope, &item.what))?;
    }
    Ok(kinds)
}

/// One column's kind more, where the column is there.
fn add_kind(kinds: &mut List<Kind>, named: Option<Named<'_>>) -> Result<(), AllocError>
    ensures { OnOk result (kinds.new ≡ kinds.old ++ map column_kind (option_to_list (option_map named_of named.entry))) }
{
    match named {
        None => Ok(()),
        Some(named) => kinds.add(named.kind),
    }
}

/// The kinds of all columns that can be named.
#[tactic(auto, using(bind_scope::proofs::Only::more))]
fn all_kinds(alloc: Global, scope: &Scope<'_>) -> Result<List<Kind>, AllocError>
    ensures { IfOk result (λ kinds. kinds ≡ map column_kind scope.now) }
{
    let mut kinds = List::new(alloc);
    for number in 0..scope.len() {
        add_kind(&mut kinds, scope.at(number))?;
    }
    Ok(kinds)
}

/// The kinds of the output columns.
pub(crate) fn bind_kinds(
    alloc: Global,
    scope: &Scope<'_>,
    items: &Items,
) -> Result<List<Kind>, AllocError>
    ensures { IfOk result (λ kinds. kinds ≡ output_kinds scope.now items.now) }
{
    match items {
        Items::Star => all_kinds(alloc, scope),
        Items::Listed(items) => listed_kinds(alloc, scope, items.items()),
    }
}
