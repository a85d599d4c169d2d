ghost use Rattle.std.specs.Prelude.{◌≡◌, ◌<◌, [], ◌∷◌, is_some, length, map, IfOk};
ghost use Rattle.own_model.specs.Stored.{row_named};
ghost use Rattle.query_eval.specs.Tables.{AreTables};
ghost use Rattle.run_model.specs.Run as outcome;
ghost use Rattle.write_eval.specs.Insertions as spec;
ghost use Rattle.write_eval.specs.Writes.{Answers};

use crate::written::Written;
use own_base::{Change, Key, List, MakeCopy, Row, RowName, TableNo};
use own_model::{Refusal, StoreView, TableDef};
use row_reading::{definition_of, key_of};
use std::alloc::{AllocError, Global};
use std::collections::BTreeMap;
use std::mem::drop;

/// Whether a row has this name. Takes no memory.
fn is_there<V: StoreView>(view: &V, name: &RowName) -> bool
    requires { name.now.table.0 < length (V.db view.now).schema.tables }
    ensures { result ≡ is_some (row_named (V.db view.now).schema (V.db view.now).rows name.now) }
{
    view.row(name).is_some()
}

/// Whether a key is that of a row that is there, or of a tuple given before. Takes no memory.
fn is_taken<V: StoreView>(view: &V, name: &RowName, given: &BTreeMap<Key, Row>) -> bool
    requires { name.now.table.0 < length (V.db view.now).schema.tables }
    ensures { result ≡ spec.is_taken (V.db view.now).schema (V.db view.now).rows given.now.entries name.now }
{
    is_there(view, name) || given.contains_key(&name.key)
}

/// Puts a tuple among those given before it, or answers its key where that is taken.
fn give<V: StoreView>(
    alloc: Global,
    view: &V,
    number: TableNo,
    table: &TableDef,
    given: &mut BTreeMap<Key, Row>,
    tuple: &Row,
) -> Result<Option<Key>, AllocError>
    requires { number.0 < length (V.db view.now).schema.tables }
    ensures { IfOk result (λ taken. spec.given_unless given.new.entries taken ≡ spec.give (V.db view.now).schema (V.db view.now).rows number table.now given.old.entries tuple.now) }
{
    let key = key_of(alloc, table, tuple)?;
    let name = RowName { table: number, key };
    if is_taken(view, &name, given) {
        return Ok(Some(name.key));
    }
    let row = tuple.copy(alloc)?.into_shared(alloc)?;
    given.insert(name.key, row)?;
    Ok(None)
}

/// Tuples by their keys, or the first key that is taken.
#[tactic(auto, unfolding(crate::specs::Insertions::given_tuples))]
fn give_each<V: StoreView>(
    alloc: Global,
    view: &V,
    number: TableNo,
    table: &TableDef,
    tuples: &[Row],
) -> Result<Result<BTreeMap<Key, Row>, Key>, AllocError>
    requires { number.0 < length (V.db view.now).schema.tables }
    ensures { IfOk result (λ given. spec.entries_unless given ≡ spec.given_tuples (V.db view.now).schema (V.db view.now).rows number table.now tuples.now) }
{
    let mut given = BTreeMap::new(alloc);
    for tuple in tuples {
        if let Some(key) = give(alloc, view, number, table, &mut given, tuple)? {
            drop(given);
            return Ok(Err(key));
        }
    }
    Ok(Ok(given))
}

/// That rows come, by rising key.
fn insertions(
    alloc: Global,
    number: TableNo,
    given: BTreeMap<Key, Row>,
) -> Result<List<Change>, AllocError>
    ensures { IfOk result (λ changes. changes ≡ map (spec.insertion number) given.entries) }
{
    let mut changes = List::new(alloc);
    for (key, row) in given {
        changes.add(Change {
            name: RowName { table: number, key },
            before: None,
            after: Some(row),
        })?;
    }
    Ok(changes)
}

/// That the one tuple of an INSERT comes, or its key where a row has it.
fn insertion<V: StoreView>(
    alloc: Global,
    view: &V,
    number: TableNo,
    table: &TableDef,
    tuple: &Row,
) -> Result<Result<List<Change>, Key>, AllocError>
    requires { number.0 < length (V.db view.now).schema.tables }
    ensures { IfOk result (λ answer. answer ≡ spec.come_unless number (spec.given_tuples (V.db view.now).schema (V.db view.now).rows number table.now (tuple.now ∷ []))) }
{
    let key = key_of(alloc, table, tuple)?;
    let name = RowName { table: number, key };
    if is_there(view, &name) {
        return Ok(Err(name.key));
    }
    let row = tuple.copy(alloc)?.into_shared(alloc)?;
    let mut changes = List::new(alloc);
    changes.add(Change {
        name,
        before: None,
        after: Some(row),
    })?;
    Ok(Ok(changes))
}

/// That tuples come, by rising key, or the first key that is taken. One alone is put among no others.
fn insertions_unless<V: StoreView>(
    alloc: Global,
    view: &V,
    number: TableNo,
    table: &TableDef,
    tuples: &[Row],
) -> Result<Result<List<Change>, Key>, AllocError>
    requires { number.0 < length (V.db view.now).schema.tables }
    ensures { IfOk result (λ answer. answer ≡ spec.come_unless number (spec.given_tuples (V.db view.now).schema (V.db view.now).rows number table.now tuples.now)) }
{
    if let [tuple] = tuples {
        return insertion(alloc, view, number, table, tuple);
    }
    match give_each(alloc, view, number, table, tuples)? {
        Ok(given) => Ok(Ok(insertions(alloc, number, given)?)),
        Err(key) => Ok(Err(key)),
    }
}

/// What an INSERT changes: its tuples come. Where the key of one is that of a row, or of a tuple before it, the INSERT is
/// refused, and the first such key is reported.
pub(crate) fn insert<V: StoreView>(
    alloc: Global,
    view: &V,
    number: TableNo,
    tuples: &[Row],
) -> Result<Result<Written, Refusal>, AllocError>
    requires there { number.0 < length (V.db view.now).schema.tables }
    requires tables { AreTables (V.db view.now).schema (V.db view.now).rows }
    ensures { IfOk result (λ answer. Answers (V.db view.now) (outcome.insert (V.db view.now) number.0 tuples.now) number answer) }
{
    let table = definition_of(view, number);
    match insertions_unless(alloc, view, number, table, tuples)? {
        Ok(changes) => Ok(Ok(Written {
            count: tuples.len() as u64,
            changes,
        })),
        Err(key) => {
            let table = table.name.copy(alloc)?;
            Ok(Err(Refusal::Duplicate { table, key }))
        }
    }
}
