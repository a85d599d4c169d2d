ghost use Rattle.std.specs.Prelude.{◌≡◌, ◌≤◌, [], IfOk, OnOk, drop, length, take};

use std::alloc::{AllocError, Global};

/// Items that become pages, and the hints of their keys beside them.
#[derive(Drop)]
pub(crate) struct Page<T> {
    pub(crate) items: Vec<T>,
    pub(crate) hints: Vec<u64>,
}

impl<T: Drop> Page<T> {
    /// No item, and room for so many.
    pub(crate) fn with_room(alloc: Global, room: usize) -> Result<Page<T>, AllocError>
        ensures { IfOk result (λ page. page.items.items ≡ []) }
    {
        let mut items = Vec::new(alloc);
        items.reserve_exact(room)?;
        let mut hints = Vec::new(alloc);
        hints.reserve_exact(room)?;
        Ok(Page { items, hints })
    }

    /// Takes away the items from a place on, and gives their room back.
    pub(crate) fn split_off(&mut self, place: usize) -> Result<Page<T>, AllocError>
        requires { place ≤ length self.old.items.items }
        ensures front { OnOk result (self.new.items.items ≡ take place self.old.items.items) }
        ensures back { IfOk result (λ others. others.items.items ≡ drop place self.old.items.items) }
    {
        let hints = self.hints.split_off(place.min(self.hints.len()))?;
        let items = self.items.split_off(place)?;
        self.hints.shrink_to_fit();
        self.items.shrink_to_fit();
        Ok(Page { items, hints })
    }
}
