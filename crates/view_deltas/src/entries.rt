ghost use Rattle.std.specs.Prelude.{◌≡◌, [], IfOk, IfSome, OnOk, length};
ghost use Rattle.std.specs.Option.{option_copied};
ghost use Rattle.page_model.specs.Rising.{IsRising};
ghost use Rattle.page_model.specs.Run.{IsRunFrom};
ghost use Rattle.view_deltas.specs.Entries.{PutsAt, item_of, kept_at};
ghost use Rattle.view_deltas.specs.Place.{place_cmp};

use crate::place::{ByPlace, Place};
use crate::putting::Putting;
use own_base::MakeCopy;
use page_tree::Pages;
use std::alloc::{AllocError, Global};
use std::marker::Model;

/// What is kept at places, in their order, once at each. Versions share their pages. Contracts see the list of it.
#[derive(Drop)]
pub(crate) struct Entries<T> {
    pages: Pages<(Place, T), ByPlace>,
}

impl<T> Model for Entries<T> {
    ghost use Rattle.std.specs.Prelude.{List};
    ghost use Rattle.page_model.specs.Paged.{items};
    ghost use Rattle.view_deltas.specs.Place.{Place as Seen};

    ghost Value = { List (Seen × T) };

    ghost view = { λ entries. items entries.pages };
}

impl<T> Entries<T> {
    /// Nothing. Takes no memory.
    pub(crate) fn new() -> Entries<T>
        ensures { result ≡ [] }
    {
        Entries {
            pages: Pages::new(ByPlace),
        }
    }

    /// How much there is. Takes no memory.
    pub(crate) fn len(&self) -> usize
        ensures count { result ≡ length self.now }
        ensures rising { IsRising (λ entry. entry.0) place_cmp self.now }
    {
        self.pages.len()
    }

    /// Lends what is kept at a place. Takes no memory.
    #[tactic(auto, unfolding(crate::specs::Entries::kept_at))]
    pub(crate) fn get(&self, place: &Place) -> Option<&T>
        ensures { option_copied result ≡ kept_at self.now place.now }
    {
        match self.pages.get(place) {
            None => None,
            Some(entry) => Some(&entry.1),
        }
    }

    /// Lends a run of it from the entry of a number on, counted from 0: something where there is something, and nothing past
    /// the end. Takes no memory.
    pub(crate) fn run_from(&self, at: usize) -> &[(Place, T)]
        ensures run { IsRunFrom self.now at result.now }
        ensures rising { IsRising (λ entry. entry.0) place_cmp self.now }
    {
        // By the clauses of `len` it rises.
        let _entries = self.pages.len();
        self.pages.run_from(at)
    }
}

/// Something behind its place.
fn entry_at<T: Drop>(
    alloc: Global,
    place: &Place,
    item: Option<T>,
) -> Result<Option<(Place, T)>, AllocError>
    ensures given { IfOk result (λ entry. item_of entry ≡ item) }
    ensures placed { IfOk result (λ entry. IfSome entry (λ it. it.0 ≡ place.now)) }
{
    match item {
        None => Ok(None),
        Some(item) => {
            let own = place.copy(alloc)?;
            Ok(Some((own, item)))
        }
    }
}

impl<T: MakeCopy + Drop> Entries<T> {
    /// Keeps something at a place, instead of what is there, or takes that away.
    pub(crate) fn put(
        &mut self,
        alloc: Global,
        place: Place,
        item: Option<T>,
    ) -> Result<(), AllocError>
        ensures { OnOk result (PutsAt place item self.old self.new) }
    {
        let entry = entry_at(alloc, &place, item)?;
        self.pages.change(alloc, &Putting { place, entry })
    }
}

impl<T> MakeCopy for Entries<T> {
    /// The same, which shares all pages. `AllocError` comes only where the count of those that share is full.
    fn copy(&self, alloc: Global) -> Result<Entries<T>, AllocError> {
        let pages = self.pages.copy(alloc)?;
        Ok(Entries { pages })
    }
}
