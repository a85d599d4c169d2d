ghost use Rattle.std.specs.Prelude.{◌≡◌, IfOk};
ghost use Rattle.view_deltas.specs.Tally.{shown_tally};

use crate::group_tally::GroupTally;
use own_base::{Key, MakeCopy, Row};
use std::alloc::{AllocError, Global};
use std::marker::Model;
use std::sync::Arc;

/// What is kept for a group that a view shows: what is counted for it, and the row that is shown of it. Copies share both.
#[derive(Drop)]
pub struct Group {
    kept: Arc<(GroupTally, Row), Global>,
}

impl Model for Group {
    ghost use Rattle.std.specs.Arc.{arc_value};
    ghost use Rattle.own_model.specs.Db.{Row as Values};
    ghost use Rattle.view_deltas.specs.Counted.{Counted};

    ghost Value = { Counted × Values };

    ghost view = { λ group. arc_value group.kept };
}

impl Group {
    /// That of a tally, of the group whose value this is.
    pub(crate) fn new(
        alloc: Global,
        side: &Option<Key>,
        tally: GroupTally,
    ) -> Result<Group, AllocError>
        ensures { IfOk result (λ group. group ≡ (tally, shown_tally side.now tally)) }
    {
        let row = tally.shown(alloc, side)?;
        Ok(Group {
            kept: Arc::new(alloc, (tally, row))?,
        })
    }

    /// What is counted for it. Takes no memory.
    pub(crate) fn tally(&self) -> &GroupTally
        ensures { result.now ≡ self.now.0 }
    {
        &self.kept.0
    }

    /// The row that is shown of it. Takes no memory.
    pub fn row(&self) -> &Row
        ensures { result.now ≡ self.now.1 }
    {
        &self.kept.1
    }
}

impl MakeCopy for Group {
    /// The same, which shares both. `AllocError` comes only where the count of those that share is full.
    fn copy(&self, _alloc: Global) -> Result<Group, AllocError> {
        Ok(Group {
            kept: Arc::try_clone(&self.kept)?,
        })
    }
}
