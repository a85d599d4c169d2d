ghost use Rattle.std.specs.Prelude.{◌≡◌};
ghost use Rattle.link_model.specs.Whose.{owners_at, reach_at};

use crate::referring::Referring;
use own_base::{RowName, Subject};
use own_model::StoreView;

/// The rows of a store, who holds what in them, and whose they are. None of its calls takes memory.
pub trait Linked: StoreView + Referring {
    /// The subjects that own a row, by table, then by key; none where there is no row of the name.
    fn owners(&self, name: &RowName) -> &[Subject]
        ensures { result.now ≡ owners_at (Self.db self.now) name.now };

    /// The subjects that reach it, those that own it among them, in the same order.
    fn reach(&self, name: &RowName) -> &[Subject]
        ensures { result.now ≡ reach_at (Self.db self.now) name.now };

    // Both are of one database.
    ghost one: { (view : Self) → Self.linked view ≡ Self.db view };
}
