ghost use Rattle.std.specs.Prelude.{◌≡◌, ◌∷◌, [], option_map, slice_get, IfOk, OnOk, if◌then◌else◌};
ghost use Rattle.std.specs.Option.{option_copied, option_map_or};
ghost use Rattle.own_model.specs.declared.refusal.Refusal.TheVariants.{WrongKind};
ghost use Rattle.schema_model.specs.WithinLimits.{IsWithinLimits};
ghost use Rattle.query_model.specs.Kinds as kinds;
ghost use Rattle.query_model.specs.SelectMeaning.{table_number};
ghost use Rattle.query_model.specs.WriteFaults.{gdpr_faults, subject_faults};
ghost use Rattle.bind_scope.specs.After.{after};
ghost use Rattle.bind_scope.specs.Lent.{table_of};

use crate::value_kind::key_kind;
use bind_scope::{Fault, Least, NumberedTable, are_compared, bind_table, item_at, number_of};
use own_base::{Key, MakeCopy, Name, RowName, Subject};
use own_model::{Column, Schema, TableDef};
use std::alloc::{AllocError, Global};

/// Notes a key of another kind than this primary key.
fn note_key_kind<'a>(column: Option<&'a Column>, key: &Key, least: &mut Least<'a>)
    ensures { least.new ≡ after least.old (option_map_or (λ column. if kinds.are_compared column.kind (kinds.key_kind key.now) then [] else WrongKind column.name ∷ []) (option_copied column.entry) []) }
{
    if let Some(column) = column
        && !are_compared(column.kind, key_kind(key))
    {
        least.note(Fault::WrongKind(&column.name));
    }
}

/// Notes a key of another kind than the table's primary key, and a table whose rows aren't data subjects.
fn note_subject<'a>(name: &'a Name, key: &Key, table: &'a TableDef, least: &mut Least<'a>)
    ensures { least.new ≡ after least.old (subject_faults name.now key.now table.now) }
{
    let column = item_at(table.columns.items(), table.key.0 as usize);
    note_key_kind(column, key, least);
    if !table.subject {
        least.note(Fault::NotSubject(name));
    }
}

/// The same of a table that was found.
fn note_subject_of<'a>(
    name: &'a Name,
    key: &Key,
    found: Option<NumberedTable<'a>>,
    least: &mut Least<'a>,
)
    ensures { least.new ≡ after least.old (option_map_or (λ found. subject_faults name.now key.now found.1) (option_map table_of found.entry) []) }
{
    if let Some(found) = found {
        note_subject(name, key, found.table, least);
    }
}

/// The subject of a GDPR call. What is wrong with the call is noted.
#[tactic(auto, unfolding(query_model::specs::WriteFaults::gdpr_faults))]
pub fn bind_subject<'a>(
    alloc: Global,
    schema: &'a Schema,
    table: &'a Name,
    key: &'a Key,
    least: &mut Least<'a>,
) -> Result<Subject, AllocError>
    requires tables { IsWithinLimits schema.now }
    ensures bound { IfOk result (λ subject. subject ≡ record { 0 = record { table = table_number schema.now table.now; key = key.now } }) }
    ensures noted { OnOk result (least.new ≡ after least.old (gdpr_faults schema.now table.now key.now)) }
{
    let found = bind_table(schema, table, least);
    note_subject_of(table, key, found, least);
    let key = key.copy(alloc)?;
    Ok(Subject(RowName {
        table: number_of(found),
        key,
    }))
}
