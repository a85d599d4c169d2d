ghost use Rattle.std.specs.Prelude.{◌≡◌};
ghost use Rattle.owner_model.specs.ColumnSets.{has_column};

use own_base::ColumnSet;

/// Whether a column is in a set. Takes no memory.
pub fn has_column(set: ColumnSet, column: usize) -> bool
    ensures { result ≡ has_column set column }
{
    column < u32::BITS as usize && (set.0 >> column) % 2 == 1
}
