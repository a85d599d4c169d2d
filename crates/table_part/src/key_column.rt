ghost use Rattle.table_part.specs.KeyIn.{key_in};

use crate::hint::{hint_of_key, hint_of_value};
use own_base::{ColNo, Key, Row, Value};
use page_tree::KeyOf;
use std::cmp::Ordering;

/// The column of a row that is its primary key.
#[derive(Clone, Copy, Debug)]
pub(crate) struct KeyColumn(pub ColNo);

impl KeyOf<Row> for KeyColumn {
    type Key = Key;

    ghost use Rattle.own_base.specs.Key.{key_cmp as order};
    ghost use Rattle.own_model.proofs.KeyOrder.{key_order};

    ghost key_of = { λ column row. key_in column.0 row };

    ghost key_cmp = { order };

    #[tactic(auto, unfolding(crate::specs::KeyIn::key_in))]
    fn compare(self, row: &Row, key: &Key) -> Ordering {
        match (row.values().get(self.0.0 as usize), key) {
            (Some(Value::Int(left)), Key::Int(right)) => left.cmp(right),
            (Some(Value::Text(left)), Key::Text(right)) => left.cmp(right),
            (Some(Value::Text(_)), Key::Int(_)) => Ordering::Greater,
            (Some(Value::Null | Value::Sum(_)) | None, Key::Int(right)) => 0.cmp(right),
            (_, Key::Text(_)) => Ordering::Less,
        }
    }

    fn item_hint(self, row: &Row) -> u64 {
        hint_of_value(row.values().get(self.0.0 as usize))
    }

    fn key_hint(self, key: &Key) -> u64 {
        hint_of_key(key)
    }

    ghost total = { key_order };
}
