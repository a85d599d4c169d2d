ghost use Rattle.std.specs.Prelude.{◌≡◌, length, slice_get};
ghost use Rattle.std.specs.Option.{option_copied};
ghost use Rattle.view_deltas.specs.RunRows.{run_rows};

use crate::group::Group;
use crate::place::Place;
use own_base::Row;

/// Some rows of a view, one behind the other, each behind its place.
#[derive(Clone, Copy)]
pub enum ViewRun<'a> {
    /// Those of a view that isn't grouped.
    Rows(&'a [(Place, Row)]),
    /// Those of a grouped view, each with its group.
    Groups(&'a [(Place, Group)]),
}

impl<'a> ViewRun<'a> {
    /// How many there are. Takes no memory.
    pub fn len(&self) -> usize
        ensures { result ≡ length (run_rows self.now) }
    {
        match self {
            ViewRun::Rows(entries) => entries.len(),
            ViewRun::Groups(groups) => groups.len(),
        }
    }

    /// The first of them, where there is one. Takes no memory.
    pub fn first(&self) -> Option<&'a Row>
        ensures { option_copied result ≡ slice_get (run_rows self.now) 0 }
    {
        match self {
            ViewRun::Rows(entries) => Some(&entries.first()?.1),
            ViewRun::Groups(groups) => Some(groups.first()?.1.row()),
        }
    }
}
