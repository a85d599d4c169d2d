ghost use Rattle.std.specs.Prelude.{◌≡◌};

use own_model::Edge;

/// Which of the two sets of a row.
#[derive(Clone, Copy, Debug)]
pub(crate) enum Which {
    /// Its owners: over owner edges alone.
    Owners,
    /// Those that reach it: over all edges.
    Reach,
}

impl Which {
    ghost use Rattle.owner_sets.specs.WhichSets.{counts};

    /// Whether an edge counts for it.
    pub(crate) fn counts(self, edge: &Edge) -> bool
        ensures { result ≡ counts self edge.now }
    {
        match self {
            Which::Owners => edge.owner,
            Which::Reach => true,
        }
    }
}
