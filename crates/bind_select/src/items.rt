ghost use Rattle.std.specs.Prelude.{◌≡◌, ◌∷◌, ◌++◌, [], false, map, option_map, IfOk, OnOk, if◌then◌else◌};
ghost use Rattle.std.specs.List.{flat_map};
ghost use Rattle.std.specs.Option.{option_map_or, option_to_list};
ghost use Rattle.own_model.specs.declared.refusal.Refusal.TheVariants.{WrongKind};
ghost use Rattle.own_model.specs.declared.select.What.TheVariants as what;
ghost use Rattle.query_model.specs.ConditionFaults.{column_no};
ghost use Rattle.query_model.specs.Kinds as kinds;
ghost use Rattle.query_model.specs.Scope.{column_meant};
ghost use Rattle.query_model.specs.SelectFaults.{is_one_column, item_faults, listed_items};
ghost use Rattle.query_model.specs.SelectMeaning.{bound_items, bound_what};
ghost use Rattle.bind_scope.specs.After.{after};
ghost use Rattle.bind_scope.specs.Lent.{named_of};
ghost use Rattle.bind_select.specs.Star.{column_item};

use bind_scope::{Fault, Least, Meant, Named, Scope, bind_column, is_text};
use own_base::{ColNo, List};
use own_model::{BoundItem, ColRef, Item, Items, Kind, What};
use std::alloc::{AllocError, Global};

/// Whether a column is the group column.
fn is_the_group(scope: &Scope<'_>, group: &Option<ColRef>, meant: &Meant<'_>) -> bool
    ensures { result ≡ option_map_or (λ by. is_one_column (column_meant scope.now by) meant.now) group.now false }
{
    match group {
        None => false,
        Some(by) => scope.find(by).is_one_column(meant),
    }
}

/// The column of an item: in a grouped select the group column, in a plain one any that can be named.
fn bind_shown<'a>(
    scope: &Scope<'a>,
    grouped: bool,
    group: &Option<ColRef>,
    reference: &'a ColRef,
    least: &mut Least<'a>,
) -> ColNo
    ensures bound { result ≡ column_no scope.now reference.now }
    ensures noted { least.new ≡ after least.old (item_faults scope.now grouped group.now (what.Column reference.now)) }
{
    if !grouped {
        return bind_column(scope, reference, least).number();
    }
    let meant = scope.find(reference);
    if !is_the_group(scope, group, &meant) {
        least.note(Fault::NoColumn(&reference.column));
    }
    meant.number()
}

/// Notes a SUM of texts.
fn note_summed_text<'a>(reference: &'a ColRef, kind: Option<Kind>, least: &mut Least<'a>)
    ensures { least.new ≡ after least.old (if option_map_or kinds.is_text kind false then WrongKind reference.now.column ∷ [] else []) }
{
    if let Some(kind) = kind
        && is_text(kind)
    {
        least.note(Fault::WrongKind(&reference.column));
    }
}

/// What an item shows.
fn bind_what<'a>(
    scope: &Scope<'a>,
    grouped: bool,
    group: &Option<ColRef>,
    what: &'a What,
    least: &mut Least<'a>,
) -> BoundItem
    ensures bound { result ≡ bound_what scope.now what.now }
    ensures noted { least.new ≡ after least.old (item_faults scope.now grouped group.now what.now) }
{
    match what {
        What::Column(reference) => {
            BoundItem::Column(bind_shown(scope, grouped, group, reference, least))
        }
        What::Count => BoundItem::Count,
        What::SumOf(reference) => {
            let meant = bind_column(scope, reference, least);
            note_summed_text(reference, meant.kind(), least);
            BoundItem::SumOf(meant.number())
        }
    }
}

/// The items that a select lists.
fn bind_listed<'a>(
    alloc: Global,
    scope: &Scope<'a>,
    grouped: bool,
    group: &Option<ColRef>,
    items: &'a [Item],
    least: &mut Least<'a>,
) -> Result<List<BoundItem>, AllocError>
    ensures bound { IfOk result (λ bound. bound ≡ map (λ item. bound_what scope.now item.what) items.now) }
    ensures noted { OnOk result (least.new ≡ after least.old (flat_map (λ item. item_faults scope.now grouped group.now item.what) items.now)) }
{
    let mut bound = List::new(alloc);
    for item in items {
        bound.add(bind_what(scope, grouped, group, &item.what, least))?;
    }
    Ok(bound)
}

/// One column more as an item, where it is there.
fn add_column(items: &mut List<BoundItem>, named: Option<Named<'_>>) -> Result<(), AllocError>
    ensures { OnOk result (items.new ≡ items.old ++ map column_item (option_to_list (option_map named_of named.entry))) }
{
    match named {
        None => Ok(()),
        Some(named) => items.add(BoundItem::Column(named.number)),
    }
}

/// All columns that can be named, as items.
#[tactic(auto, using(bind_scope::proofs::Only::more))]
fn all_columns(alloc: Global, scope: &Scope<'_>) -> Result<List<BoundItem>, AllocError>
    ensures { IfOk result (λ items. items ≡ map column_item scope.now) }
{
    let mut bound = List::new(alloc);
    for number in 0..scope.len() {
        add_column(&mut bound, scope.at(number))?;
    }
    Ok(bound)
}

/// The items of a select.
pub fn bind_items<'a>(
    alloc: Global,
    scope: &Scope<'a>,
    grouped: bool,
    group: &Option<ColRef>,
    items: &'a Items,
    least: &mut Least<'a>,
) -> Result<List<BoundItem>, AllocError>
    ensures bound { IfOk result (λ bound. bound ≡ bound_items scope.now items.now) }
    ensures noted { OnOk result (least.new ≡ after least.old (flat_map (λ item. item_faults scope.now grouped group.now item.what) (listed_items items.now))) }
{
    match items {
        Items::Star => all_columns(alloc, scope),
        Items::Listed(items) => bind_listed(alloc, scope, grouped, group, items.items(), least),
    }
}
