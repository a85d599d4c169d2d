ghost use Rattle.std.specs.Prelude.{◌≡◌};
ghost use Rattle.own_base.specs.declared.row_name.RowName.{RowName as Seen};

use own_base::RowName;
use shelf_model::Shelved;

/// What is filed under a subject for a row.
pub(crate) trait OfRow {
    // The row's name.
    ghost name_of: { Self → Seen };

    /// Lends the row's name. Takes no memory.
    fn row_name(&self) -> &RowName
        ensures { result.now ≡ name_of self.now };
}

impl OfRow for Shelved {
    ghost name_of = { λ copy. copy.name };

    fn row_name(&self) -> &RowName {
        &self.name
    }
}

impl OfRow for RowName {
    ghost name_of = { λ own. own };

    fn row_name(&self) -> &RowName {
        self
    }
}
