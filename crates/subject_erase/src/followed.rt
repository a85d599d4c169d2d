use anon_rules::strikes;
use own_model::Edge;

/// Which edges are followed from a row.
#[derive(Clone, Copy, Debug)]
pub(crate) enum Followed {
    /// Those that are ruled DELETE_ROW.
    Strikes,
    /// The owner edges.
    Owners,
}

impl Followed {
    ghost use Rattle.std.specs.Prelude.{◌≡◌};
    ghost use Rattle.subject_erase.specs.Followed.{counts};

    /// Whether an edge is followed.
    pub(crate) fn counts(self, edge: &Edge) -> bool
        ensures { result ≡ counts self edge.now }
    {
        match self {
            Followed::Strikes => strikes(edge),
            Followed::Owners => edge.owner,
        }
    }
}
