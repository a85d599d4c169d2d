ghost use Rattle.std.specs.Prelude.{◌≡◌, ◌≢◌, ◌+◌, ◌∷◌, ◌++◌, [], length, nat_lt, bytes_eq, Ok, Err, IfOk, IfErr, OnOk, if◌then◌else◌};
ghost use Rattle.std.specs.List.{list_any};
ghost use Rattle.own_model.specs.declared.limit.LimitName.TheVariants as limit;
ghost use Rattle.own_model.specs.declared.limit.TheConstants.{VIEWS};
ghost use Rattle.own_model.specs.declared.refusal.Refusal.TheVariants.{BadSchema, Limit, Memory, NameTaken};
ghost use Rattle.schema_model.specs.Tables as tables;
ghost use Rattle.schema_model.specs.WithinLimits.{IsWithinLimits};
ghost use Rattle.query_model.specs.BoundView.{bound_view, repeated_after};
ghost use Rattle.query_model.specs.SelectFaults.{no_table, select_faults, select_scope};
ghost use Rattle.query_model.specs.SelectMeaning.{bound_select, output_kinds, output_names};
ghost use Rattle.query_model.specs.WithinLimits.{AreViewsWithin, IsSelectWithin};
ghost use Rattle.bind_scope.specs.After.{after};
ghost use Rattle.bind_select.specs.OwnFaults.{own_faults};

use crate::from::{Sources, bind_from};
use crate::output::bind_names;
use crate::output_kinds::bind_kinds;
use crate::select::bind_scoped;
use bind_scope::{Fault, Least, bind_table};
use own_base::{List, MakeCopy, Name};
use own_model::{
    BoundSelect, CreateView, Kind, LimitName, Refusal, Schema, Select, TableDef, VIEWS, ViewDef,
};
use row_reading::{is_among, is_same_name};
use std::alloc::{AllocError, Global};

/// Whether a table has this name.
fn is_of_table(tables: &[TableDef], name: &Name) -> bool
    ensures { result ≡ list_any (λ table. bytes_eq table.name name.now) tables.now }
{
    tables.iter().any(|table| is_same_name(&table.name, name))
}

/// Whether a view has this name.
fn is_of_view(views: &[ViewDef], name: &Name) -> bool
    ensures { result ≡ list_any (λ view. bytes_eq view.name name.now) views.now }
{
    views.iter().any(|view| is_same_name(&view.name, name))
}

/// Notes where a table or a view has the name.
#[tactic(auto, using(crate::proofs::Names::named))]
fn note_taken<'a>(schema: &Schema, name: &'a Name, least: &mut Least<'a>)
    ensures { least.new ≡ after least.old (if tables.is_taken schema.now name.now then NameTaken name.now ∷ [] else []) }
{
    if is_of_table(schema.tables.items(), name) || is_of_view(schema.views.items(), name) {
        least.note(Fault::NameTaken(name));
    }
}

/// Notes a column of a view that repeats the name of one of these before it.
fn note_repeat<'a>(before: &[Name], name: &'a Name, least: &mut Least<'a>)
    ensures { least.new ≡ after least.old (if list_any (λ other. bytes_eq other name.now) before.now then BadSchema 15 name.now ∷ [] else []) }
{
    if is_among(before, name) {
        least.note(Fault::BadSchema { rule: 15, name });
    }
}

/// Notes the columns of a view that repeat the name of one before them.
#[tactic(auto, using(crate::proofs::Names::repeated))]
fn note_repeated<'a>(names: &'a [Name], least: &mut Least<'a>)
    ensures { least.new ≡ after least.old (repeated_after [] names.now) }
{
    for (number, name) in names.iter().enumerate() {
        note_repeat(&names[..number], name, least);
    }
}

/// Notes a view more than there may be.
fn note_views(schema: &Schema, least: &mut Least<'_>)
    requires { AreViewsWithin schema.now }
    ensures { least.new ≡ after least.old (if nat_lt VIEWS (length schema.now.views + 1) then Limit limit.Views ∷ [] else []) }
{
    if schema.views.items().len() + 1 > VIEWS {
        least.note(Fault::Limit(LimitName::Views));
    }
}

/// What a view shows: its query, and the names and the kinds of its columns.
#[derive(Debug, Drop)]
struct Shown {
    query: BoundSelect,
    names: List<Name>,
    kinds: List<Kind>,
}

/// What a select shows as a view, which reads no view.
#[tactic(auto, using(crate::proofs::Selects::selects), unfolding(query_model::specs::SelectFaults::select_faults))]
fn bind_shown<'a>(
    alloc: Global,
    schema: &'a Schema,
    select: &'a Select,
    least: &mut Least<'a>,
) -> Result<Shown, AllocError>
    requires tables { IsWithinLimits schema.now }
    requires views { AreViewsWithin schema.now }
    requires items { IsSelectWithin select.now }
    ensures query { IfOk result (λ shown. shown.query ≡ bound_select schema.now select.now) }
    ensures names { IfOk result (λ shown. shown.names ≡ output_names (select_scope schema.now select.now) select.now.items) }
    ensures kinds { IfOk result (λ shown. shown.kinds ≡ output_kinds (select_scope schema.now select.now) select.now.items) }
    ensures noted { OnOk result (least.new ≡ after least.old (no_table schema.now select.now.from ++ select_faults schema.now select.now)) }
{
    let _ = bind_table(schema, &select.from, least);
    let Sources { scope, rows } = bind_from(schema, select, least);
    let names = bind_names(alloc, &scope, &select.items)?;
    let kinds = bind_kinds(alloc, &scope, &select.items)?;
    let query = bind_scoped(alloc, &scope, rows, select, least)?;
    Ok(Shown {
        query,
        names,
        kinds,
    })
}

/// Notes what is wrong with a view besides its select: its name, its columns' names, and one view too many.
fn note_view<'a>(schema: &Schema, create: &'a CreateView, names: &'a [Name], least: &mut Least<'a>)
    requires { AreViewsWithin schema.now }
    ensures { least.new ≡ after least.old (own_faults schema.now create.now names.now) }
{
    note_taken(schema, &create.name, least);
    note_repeated(names, least);
    note_views(schema, least);
}

/// The view, or the fault that is reported.
#[tactic(auto, unfolding(query_model::specs::BoundView::bound_view, query_model::specs::BoundView::view_faults, query_model::specs::BoundView::new_view, query_model::specs::Refused::lowest))]
fn view_or_fault(
    alloc: Global,
    schema: &Schema,
    create: &CreateView,
) -> Result<Result<ViewDef, Refusal>, AllocError>
    requires tables { IsWithinLimits schema.now }
    requires views { AreViewsWithin schema.now }
    requires items { IsSelectWithin create.now.select }
    ensures { IfOk result (λ answer. answer ≡ bound_view schema.now create.now) }
{
    let mut least = Least::new();
    let Shown {
        query,
        names,
        kinds,
    } = bind_shown(alloc, schema, &create.select, &mut least)?;
    note_view(schema, create, names.items(), &mut least);
    if let Some(refusal) = least.refusal(alloc)? {
        return Ok(Err(refusal));
    }
    let name = create.name.copy(alloc)?;
    Ok(Ok(ViewDef {
        name,
        query,
        names,
        kinds,
    }))
}

/// The view that a CREATE VIEW adds, or why it is refused. Where memory is refused, it is `Memory`.
pub fn bind_view(alloc: Global, schema: &Schema, create: &CreateView) -> Result<ViewDef, Refusal>
    requires tables { IsWithinLimits schema.now }
    requires views { AreViewsWithin schema.now }
    requires items { IsSelectWithin create.now.select }
    ensures ok { IfOk result (λ view. bound_view schema.now create.now ≡ Ok view) }
    ensures err { IfErr result (λ why. why ≢ Memory → bound_view schema.now create.now ≡ Err why) }
{
    match view_or_fault(alloc, schema, create) {
        Ok(answer) => answer,
        Err(_) => Err(Refusal::Memory),
    }
}
