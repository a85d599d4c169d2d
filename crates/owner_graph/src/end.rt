ghost use Rattle.std.specs.Prelude.{◌≡◌};
ghost use Rattle.owner_graph.specs.Ends.{table_at};

use own_base::TableNo;
use own_model::Edge;

/// One of the two tables of an edge.
#[derive(Clone, Copy)]
pub(crate) enum End {
    Lower,
    Upper,
}

impl End {
    /// The table at that end of the edge.
    pub(crate) fn table(self, edge: &Edge) -> TableNo
        ensures { result ≡ table_at self edge.now }
    {
        match self {
            End::Lower => edge.lower,
            End::Upper => edge.upper,
        }
    }
}
