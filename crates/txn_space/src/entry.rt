ghost use Rattle.std.specs.Prelude.{Some};
ghost use Rattle.txn_space.specs.Entries.{entry_key};

use own_base::{Key, MakeCopy, Row};
use page_tree::{ChangeOf, KeyOf, Pages};
use std::alloc::{AllocError, Global};
use std::cmp::Ordering;
use table_part::hint_of_key;

/// What becomes of the row of a key: the row that stands there, None where it is taken away.
#[derive(Debug, Drop)]
pub struct Entry {
    pub key: Key,
    pub row: Option<Row>,
}

impl MakeCopy for Entry {
    fn copy(&self, alloc: Global) -> Result<Entry, AllocError> {
        let key = self.key.copy(alloc)?;
        let row = self.row.copy(alloc)?;
        Ok(Entry { key, row })
    }
}

/// Entries are found by their key.
#[derive(Clone, Copy, Debug)]
pub(crate) struct ByKey;

impl KeyOf<Entry> for ByKey {
    type Key = Key;

    ghost use Rattle.own_base.specs.Key.{key_cmp as order};
    ghost use Rattle.own_model.proofs.KeyOrder.{key_order};

    ghost key_of = { λ by entry. entry_key entry };

    ghost key_cmp = { order };

    fn compare(self, entry: &Entry, key: &Key) -> Ordering {
        entry.key.compare(key)
    }

    fn item_hint(self, entry: &Entry) -> u64 {
        hint_of_key(&entry.key)
    }

    fn key_hint(self, key: &Key) -> u64 {
        hint_of_key(key)
    }

    ghost total = { key_order };
}

/// The entries of a table, by rising key.
pub(crate) type Entries = Pages<Entry, ByKey>;

/// An entry that is put in the place of the one of its key.
#[derive(Drop)]
pub(crate) struct Putting(pub Entry);

impl ChangeOf<Entry, Key> for Putting {
    ghost changed = { λ putting. entry_key putting.0 };

    ghost put = { λ putting. Some putting.0 };

    fn key(&self) -> &Key {
        &self.0.key
    }

    fn item(&self) -> Option<&Entry> {
        Some(&self.0)
    }
}
