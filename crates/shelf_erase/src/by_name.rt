ghost use Rattle.std.specs.Prelude.{◌≡◌};
ghost use Rattle.subject_model.specs.NameOrder.{name_cmp};

use own_base::{Change, RowName};
use page_tree::{ChangeOf, KeyOf};
use std::cmp::Ordering;
use table_part::hint_of_key;

/// How one name stands to another: by table, then by key. Takes no memory.
fn compare_names(one: &RowName, other: &RowName) -> Ordering
    ensures { result ≡ name_cmp one.now other.now }
{
    match one.table.0.cmp(&other.table.0) {
        Ordering::Equal => one.key.compare(&other.key),
        unequal => unequal,
    }
}

/// The bits of a hint that are a key's.
const KEY_BITS: u32 = 57;

/// The hint of a name: its table, then what its key begins with.
fn hint_of_name(name: &RowName) -> u64 {
    let table = u64::from(name.table.0.min(127));
    (table << KEY_BITS) | (hint_of_key(&name.key) >> (64 - KEY_BITS))
}

/// A change is found by its row's name.
#[derive(Clone, Copy, Debug)]
pub(crate) struct ByName;

impl KeyOf<Change> for ByName {
    type Key = RowName;

    ghost use Rattle.subject_model.specs.NameOrder.{name_cmp as order};
    ghost use Rattle.subject_model.proofs.RisingNames.{name_order};

    ghost key_of = { λ _ change. change.name };

    ghost key_cmp = { order };

    fn compare(self, change: &Change, name: &RowName) -> Ordering {
        compare_names(&change.name, name)
    }

    fn item_hint(self, change: &Change) -> u64 {
        hint_of_name(&change.name)
    }

    fn key_hint(self, name: &RowName) -> u64 {
        hint_of_name(name)
    }

    ghost total = { name_order };
}

/// A change is put in place of the one of its name.
#[derive(Debug, Drop)]
pub(crate) struct Put<'a> {
    pub(crate) change: &'a Change,
}

impl<'a> ChangeOf<Change, RowName> for Put<'a> {
    ghost use Rattle.std.specs.Prelude.{Some};

    ghost changed = { λ put. put.change.now.name };

    ghost put = { λ put. Some put.change.now };

    fn key(&self) -> &RowName {
        &self.change.name
    }

    fn item(&self) -> Option<&Change> {
        Some(self.change)
    }
}
