ghost use Rattle.std.specs.Prelude.{◌≡◌};
ghost use Rattle.owner_index.specs.Gathered.{is_counted};
ghost use Rattle.owner_index.specs.Held.{held};

use crate::index::OwnerIndex;
use crate::upper::Upper;
use own_base::{RowName, Subject};

/// Which of the two sets of a row.
#[derive(Clone, Copy, Debug)]
pub(crate) enum Which {
    /// Its owners: over owner edges alone.
    Owners,
    /// Those that reach it: over all edges.
    Reach,
}

impl Which {
    /// Whether an upper row counts for it.
    pub(crate) fn counts(self, upper: &Upper) -> bool
        ensures { result ≡ is_counted self upper.now }
    {
        match self {
            Which::Owners => upper.owner,
            Which::Reach => true,
        }
    }

    /// What an index holds as it. Takes no memory.
    pub(crate) fn held<'a>(self, index: &'a OwnerIndex, name: &RowName) -> &'a [Subject]
        ensures { result.now ≡ held self index.now name.now }
    {
        match self {
            Which::Owners => index.owners(name),
            Which::Reach => index.reach(name),
        }
    }
}
