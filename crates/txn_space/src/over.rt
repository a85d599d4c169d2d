ghost use Rattle.std.specs.Prelude.{◌≡◌};
ghost use Rattle.txn_space.specs.Changed.{changed_db};
ghost use Rattle.txn_space.specs.OneProof.{sound-prop};
ghost use Rattle.txn_space.specs.Sound.{IsBase, IsSpaceOf};

use crate::space::Space;
use own_base::{Row, RowName, TableNo};
use own_model::{Schema, StoreView};

/// A base's rows as a transaction changes them.
#[derive(Drop)]
pub struct Over<'a, V: StoreView> {
    pub(crate) space: &'a Space,
    pub(crate) base: &'a V,
    pub(crate) ghost sound: { IsBase (V.db base.now).schema.tables (V.db base.now).rows × IsSpaceOf (V.db base.now).schema.tables space.now } by { sound-prop (V.db base.now).schema.tables (V.db base.now).rows space.now },
}

impl<'a, V: StoreView> Over<'a, V> {
    /// The rows of a base, with a transaction's changes. Takes no memory.
    pub(crate) fn new(space: &'a Space, base: &'a V) -> Over<'a, V>
        requires base { IsBase (V.db base.now).schema.tables (V.db base.now).rows }
        requires space { IsSpaceOf (V.db base.now).schema.tables space.now }
        ensures { ⟦<Over<'a, V> as StoreView>⟧.db result ≡ changed_db (V.db base.now) space.now }
    {
        Over { space, base }
    }
}

impl<'a, V: StoreView> StoreView for Over<'a, V> {
    ghost use Rattle.txn_space.specs.ChangedRise.{changed_ordered};

    ghost db = { λ over. changed_db (V.db over.base.now) over.space.now };

    fn schema(&self) -> &Schema {
        self.base.schema()
    }

    fn count(&self, table: TableNo) -> u64 {
        self.space.count(self.base, table)
    }

    fn row_at(&self, table: TableNo, at: u64) -> Option<&Row> {
        self.space.row_at(self.base, table, at)
    }

    fn row(&self, name: &RowName) -> Option<&Row> {
        self.space.row(self.base, name)
    }

    fn rows_from(&self, table: TableNo, at: u64) -> &[Row] {
        self.space.rows_from(self.base, table, at)
    }

    ghost ordered = { λ over. changed_ordered (V.db over.base.now) over.space.now over.sound };
}
