ghost use Rattle.std.specs.Prelude.{◌≡◌, ◌++◌, IfOk, OnOk, map};
ghost use Rattle.std.specs.List.{AllByRecursion};
ghost use Rattle.shelf_access.specs.Got.{IsWithin, got_copy};

use crate::gathered::Gathered;
use own_base::{List, MakeCopy, Name, Subject};
use own_model::{GotRow, Schema};
use row_reading::is_name;
use shelf_model::Shelved;
use std::alloc::{AllocError, Global};
use subject_access::got_row;

/// The name of a table: that of the row which was shown last, where this is of the same table, else one that shares nothing with
/// the schema. So each answer counts names of its own, and answers that are made side by side don't wait for one count.
fn own_name(alloc: Global, table: &Name, shown: &[GotRow]) -> Result<Name, AllocError>
    ensures { IfOk result (λ name. name ≡ table.now) }
{
    // By the clauses of `bytes` it is a name.
    let _bytes = table.bytes();
    match shown.last() {
        Some(before) if before.table == *table => before.table.copy(alloc),
        _ => Name::from_str(alloc, table.as_str()),
    }
}

/// A row as a subject is shown it, of a copy, behind those that are shown.
fn got_copy(
    alloc: Global,
    schema: &Schema,
    subject: &Subject,
    copy: &Shelved,
    shown: &[GotRow],
) -> Result<GotRow, AllocError>
    requires { IsWithin schema.now copy.now }
    ensures { IfOk result (λ got. got ≡ got_copy schema.now subject.now.0 copy.now) }
{
    let definition = &schema.tables.items()[copy.name.table.0 as usize];
    let table = own_name(alloc, &definition.name, shown)?;
    let own = is_name(&copy.name, &subject.0);
    let edges = schema.edges.items();
    got_row(alloc, edges, own, copy.by.items(), table, &copy.row)
}

/// Adds the rows of a run of copies.
fn add_run(
    alloc: Global,
    schema: &Schema,
    subject: &Subject,
    run: &[Shelved],
    shown: &mut List<GotRow>,
) -> Result<(), AllocError>
    requires { AllByRecursion (IsWithin schema.now) run.now }
    ensures { OnOk result (shown.new ≡ shown.old ++ map (got_copy schema.now subject.now.0) run.now) }
{
    for copy in run {
        let got = got_copy(alloc, schema, subject, copy, shown.items())?;
        shown.add(got)?;
    }
    Ok(())
}

/// The rows of all copies.
pub(crate) fn shown_rows(
    alloc: Global,
    schema: &Schema,
    subject: &Subject,
    copies: &Gathered,
) -> Result<List<GotRow>, AllocError>
    requires { AllByRecursion (IsWithin schema.now) copies.now }
    ensures { IfOk result (λ shown. shown ≡ map (got_copy schema.now subject.now.0) copies.now) }
{
    let count = copies.len();
    let mut shown = List::new(alloc);
    let mut at = 0;
    while at < count {
        let run = copies.run_from(at);
        add_run(alloc, schema, subject, run, &mut shown)?;
        at += run.len();
    }
    Ok(shown)
}
