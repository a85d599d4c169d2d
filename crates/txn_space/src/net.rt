ghost use Rattle.std.specs.Prelude.{◌≡◌, ◌<◌, ◌++◌, filter, filter_map, length, IfOk, OnOk};
ghost use Rattle.std.specs.Option.{option_copied, option_to_list};
ghost use Rattle.page_model.specs.Paged.{items};
ghost use Rattle.state_model.specs.Same.{is_same_row as is_one_row, is_same_state as is_one_state, is_same_value as is_one_value};
ghost use Rattle.txn_space.specs.Differs.{differs};
ghost use Rattle.txn_space.specs.EntryNet.{entry_change};

use crate::entry::{Entries, Entry};
use crate::walk::entry_at;
use own_base::{Change, List, MakeCopy, Row, RowName, TableNo, Value};
use own_model::StoreView;
use std::alloc::{AllocError, Global};

/// Whether two values are the same. Takes no memory.
#[tactic(auto, using(state_model::proofs::PutRows::equal_is), unfolding(state_model::specs::Same::is_same_value))]
fn is_same_value(left: &Value, right: &Value) -> bool
    ensures { result ≡ is_one_value left.now right.now }
{
    match (left, right) {
        (Value::Null, Value::Null) => true,
        (Value::Int(left), Value::Int(right)) => left.cmp(right).is_eq(),
        (Value::Text(left), Value::Text(right)) => left.bytes() == right.bytes(),
        (Value::Sum(left), Value::Sum(right)) => left.get().cmp(&right.get()).is_eq(),
        _ => false,
    }
}

/// Whether two rows are the same. Takes no memory.
fn is_same_row(left: &[Value], right: &[Value]) -> bool
    ensures { result ≡ is_one_row left.now right.now }
{
    if left.len() != right.len() {
        return false;
    }
    for place in 0..left.len() {
        if !is_same_value(&left[place], &right[place]) {
            return false;
        }
    }
    true
}

/// Whether a row is there, and is the same, before and after. Takes no memory.
fn is_same_state(before: Option<&Row>, after: Option<&Row>) -> bool
    ensures { result ≡ is_one_state (option_copied before.entry) (option_copied after.entry) }
{
    match (before, after) {
        (None, None) => true,
        (Some(before), Some(after)) => is_same_row(before.values(), after.values()),
        _ => false,
    }
}

/// Whether a change leaves another row than it met, or takes one away. Takes no memory.
fn is_of_net(change: &Change) -> bool
    ensures { result ≡ differs change.now }
{
    !is_same_state(change.before.as_ref(), change.after.as_ref())
}

/// Changes without those after which a row is as it was: where they are what a write makes, by rising key, its net. Takes
/// no memory.
pub fn net_of_write(changes: List<Change>) -> List<Change>
    ensures { result ≡ filter differs changes }
{
    let mut changes = changes.into_vec();
    changes.retain(|change| is_of_net(change));
    List::from_vec(changes)
}

/// A copy of a row, where it is there.
fn copied(alloc: Global, row: Option<&Row>) -> Result<Option<Row>, AllocError>
    ensures { IfOk result (λ copy. copy ≡ option_copied row.entry) }
{
    match row {
        None => Ok(None),
        Some(row) => Ok(Some(row.copy(alloc)?)),
    }
}

/// What becomes of the row of an entry, unless it ends as it began.
fn change_of<V: StoreView>(
    alloc: Global,
    base: &V,
    table: TableNo,
    entry: &Entry,
) -> Result<Option<Change>, AllocError>
    requires { table.0 < length (V.db base.now).schema.tables }
    ensures { IfOk result (λ change. change ≡ entry_change (V.db base.now).schema (V.db base.now).rows table entry.now) }
{
    let key = entry.key.copy(alloc)?;
    let name = RowName { table, key };
    let before = base.row(&name);
    if is_same_state(before, entry.row.as_ref()) {
        return Ok(None);
    }
    let before = copied(alloc, before)?;
    let after = entry.row.copy(alloc)?;
    Ok(Some(Change {
        name,
        before,
        after,
    }))
}

/// Puts a change last, where there is one.
fn add_some(changes: &mut List<Change>, change: Option<Change>) -> Result<(), AllocError>
    ensures { OnOk result (changes.new ≡ changes.old ++ option_to_list change) }
{
    if let Some(change) = change {
        changes.add(change)?;
    }
    Ok(())
}

/// Puts the changes of a table's entries last.
pub(crate) fn add_changes<V: StoreView>(
    alloc: Global,
    base: &V,
    table: TableNo,
    entries: &Entries,
    changes: &mut List<Change>,
) -> Result<(), AllocError>
    requires { table.0 < length (V.db base.now).schema.tables }
    ensures { OnOk result (changes.new ≡ changes.old ++ filter_map (entry_change (V.db base.now).schema (V.db base.now).rows table) (items entries.now)) }
{
    for number in 0..entries.len() {
        let change = change_of(alloc, base, table, entry_at(entries, number))?;
        add_some(changes, change)?;
    }
    Ok(())
}
