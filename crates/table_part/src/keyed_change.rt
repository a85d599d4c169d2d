ghost use Rattle.std.specs.Prelude.{map, IfOk};
ghost use Rattle.std.specs.List.Sorted.{IsPermutation};
ghost use Rattle.own_base.specs.Key.{key_cmp};
ghost use Rattle.page_model.specs.Rising.{IsRising};
ghost use Rattle.state_model.specs.MayBePut.{KeysDiffer};
ghost use Rattle.state_model.specs.Put.{changed_key};
ghost use Rattle.table_part.specs.Lent.{lent};

use own_base::{Change, Key, Row};
use page_tree::ChangeOf;
use std::alloc::{AllocError, Global};

/// A change of a row that is lent, as a change of its key.
#[derive(Clone, Copy, Debug)]
pub(crate) struct KeyedChange<'a>(pub &'a Change);

impl<'a> ChangeOf<Row, Key> for KeyedChange<'a> {
    ghost changed = { λ keyed. keyed.0.now.name.key };

    ghost put = { λ keyed. keyed.0.now.after };

    fn key(&self) -> &Key {
        &self.0.name.key
    }

    fn item(&self) -> Option<&Row> {
        self.0.after.as_ref()
    }
}

/// The changes by rising key.
pub(crate) fn by_key<'a>(
    alloc: Global,
    changes: &'a [Change],
) -> Result<Vec<KeyedChange<'a>>, AllocError>
    requires { KeysDiffer changes.now }
    ensures rising { IfOk result (λ keyed. IsRising (λ one. changed_key (lent one)) key_cmp keyed.items) }
    ensures same { IfOk result (λ keyed. IsPermutation changes.now (map lent keyed.items)) }
{
    let mut keyed = Vec::with_capacity(alloc, changes.len())?;
    for change in changes {
        keyed.push(KeyedChange(change))?;
    }
    keyed.sort_unstable_by(|left, right| left.key().compare(right.key()));
    Ok(keyed)
}
