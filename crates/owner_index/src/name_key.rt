ghost use Rattle.std.specs.Prelude.{◌≡◌};
ghost use Rattle.subject_model.specs.NameOrder.{name_cmp};

use crate::entry::Entry;
use own_base::{Key, RowName};
use page_tree::{ChangeOf, KeyOf};
use std::cmp::Ordering;
use table_part::hint_of_key;

/// How one name stands to another: by table, then by key. Takes no memory.
fn compare_names(one: &RowName, other: &RowName) -> Ordering
    ensures { result ≡ name_cmp one.now other.now }
{
    match one.table.0.cmp(&other.table.0) {
        Ordering::Equal => one.key.compare(&other.key),
        unequal => unequal,
    }
}

/// The bits of a hint that are a key's.
const KEY_BITS: u32 = 57;

/// The middle of the numbers that a key's bits tell apart.
const MIDDLE: i64 = 1 << (KEY_BITS - 1);

/// The hint of a key among its table's: a number as it is, as far as there is room, and of a text what it begins with.
fn hint_in_table(key: &Key) -> u64 {
    match key {
        Key::Int(number) => (*number)
            .max(-MIDDLE)
            .min(MIDDLE - 1)
            .wrapping_add(MIDDLE)
            .cast_unsigned(),
        Key::Text(_) => hint_of_key(key) >> (64 - KEY_BITS),
    }
}

/// The hint of a name: its table, then its key.
fn hint_of_name(name: &RowName) -> u64 {
    let table = u64::from(name.table.0.min(127));
    (table << KEY_BITS) | hint_in_table(&name.key)
}

/// An entry is found by its row's name.
#[derive(Clone, Copy, Debug)]
pub(crate) struct NameKey;

impl KeyOf<Entry> for NameKey {
    type Key = RowName;

    ghost use Rattle.subject_model.specs.NameOrder.{name_cmp as order};
    ghost use Rattle.subject_model.proofs.RisingNames.{name_order};

    ghost key_of = { λ _ entry. entry.name };

    ghost key_cmp = { order };

    fn compare(self, entry: &Entry, name: &RowName) -> Ordering {
        compare_names(entry.name(), name)
    }

    fn item_hint(self, entry: &Entry) -> u64 {
        hint_of_name(entry.name())
    }

    fn key_hint(self, name: &RowName) -> u64 {
        hint_of_name(name)
    }

    ghost total = { name_order };
}

/// The entry of a name is put, or taken away.
#[derive(Drop)]
pub(crate) struct EntryChange {
    pub(crate) name: RowName,
    pub(crate) entry: Option<Entry>,
}

impl ChangeOf<Entry, RowName> for EntryChange {
    ghost changed = { λ change. change.name };

    ghost put = { λ change. change.entry };

    fn key(&self) -> &RowName {
        &self.name
    }

    fn item(&self) -> Option<&Entry> {
        self.entry.as_ref()
    }
}
