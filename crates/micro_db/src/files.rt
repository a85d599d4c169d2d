ghost use Rattle.std.specs.Prelude.{◌≡◌, [], IfOk, IfSome, OnOk, length, map};
ghost use Rattle.ordered_pairs.specs.RangeOf.{IsRangeOf};
ghost use Rattle.ordered_pairs.specs.RightsOf.{rights_of};
ghost use Rattle.owner_sets.specs.SubjectOrder.{subject_cmp};
ghost use Rattle.page_model.specs.Rising.{IsRising};
ghost use Rattle.page_model.specs.Run.{IsRunFrom};
ghost use Rattle.micro_db.specs.Filed.{PutsAt, item_of, place_of};
ghost use Rattle.micro_db.specs.FiledOrder.{place_cmp};

use crate::filing::Filing;
use crate::of_row::OfRow;
use crate::place::{Before, ByPlace, Upto};
use own_base::{MakeCopy, RowName, Subject};
use page_tree::Pages;
use std::alloc::{AllocError, Global};
use std::marker::Model;

/// What is filed under subjects for rows, by subject, then by the row's name, once for each. Versions share their pages.
/// Contracts see the list of it.
#[derive(Drop)]
pub(crate) struct Files<T: OfRow> {
    pages: Pages<(Subject, T), ByPlace>,
}

impl<T: OfRow> Model for Files<T> {
    ghost use Rattle.std.specs.Prelude.{List};
    ghost use Rattle.own_base.specs.declared.row_name.Subject.{Subject as Seen};
    ghost use Rattle.page_model.specs.Paged.{items};

    ghost Value = { List (Seen × T) };

    ghost view = { λ files. items files.pages };
}

impl<T: OfRow> Files<T> {
    /// Nothing. Takes no memory.
    pub(crate) fn new() -> Files<T>
        ensures { result ≡ [] }
    {
        Files {
            pages: Pages::new(ByPlace),
        }
    }

    /// Where what is filed under a subject begins, and where what is behind it. Takes no memory.
    fn range(&self, subject: &Subject) -> (usize, usize)
        ensures range { IsRangeOf subject_cmp self.now subject.now result.0 result.1 }
        ensures rising { IsRising (place_of T.name_of) place_cmp self.now }
    {
        // By the clauses of `len` it rises.
        let _filed = self.pages.len();
        let from = self.pages.place_of(&Before { subject });
        let upto = self.pages.place_of(&Upto { subject });
        (from, upto)
    }

    /// How much is filed under a subject. Takes no memory.
    pub(crate) fn count(&self, subject: &Subject) -> usize
        ensures count { result ≡ length (rights_of subject_cmp self.now subject.now) }
        ensures rising { IsRising (place_of T.name_of) place_cmp self.now }
    {
        let (from, upto) = self.range(subject);
        upto - from
    }

    /// Lends a run of what is filed under a subject, from a place of it on, counted from 0: something where there is something,
    /// and nothing past the end. Takes no memory.
    pub(crate) fn run_from(&self, subject: &Subject, place: usize) -> &[(Subject, T)]
        ensures run { IsRunFrom (rights_of subject_cmp self.now subject.now) place (map (λ filed. filed.1) result.now) }
        ensures rising { IsRising (place_of T.name_of) place_cmp self.now }
    {
        let (from, upto) = self.range(subject);
        if upto - from <= place {
            return &[];
        }
        let run = self.pages.run_from(from + place);
        &run[..run.len().min(upto - from - place)]
    }
}

impl<T: OfRow + MakeCopy + Drop> Files<T> {
    /// Files something under a subject for a row, in place of what is there, or takes that away. Where there is nothing to take
    /// away, no page is made new.
    pub(crate) fn put(
        &mut self,
        alloc: Global,
        subject: &Subject,
        name: &RowName,
        item: Option<T>,
    ) -> Result<(), AllocError>
        requires { IfSome item (λ own. T.name_of own ≡ name.now) }
        ensures { OnOk result (PutsAt T.name_of subject.now name.now item self.old self.new) }
    {
        let owner = subject.copy(alloc)?;
        let own = name.copy(alloc)?;
        let filed = filed_under(alloc, subject, item)?;
        let place = (owner, own);
        if filed.is_none() && self.pages.get(&place).is_none() {
            return Ok(());
        }
        self.pages.change(alloc, &Filing { place, filed })
    }
}

/// Something behind its subject.
fn filed_under<T: Drop>(
    alloc: Global,
    subject: &Subject,
    item: Option<T>,
) -> Result<Option<(Subject, T)>, AllocError>
    ensures given { IfOk result (λ filed. item_of filed ≡ item) }
    ensures under { IfOk result (λ filed. IfSome filed (λ it. it.0 ≡ subject.now)) }
{
    let owner = subject.copy(alloc)?;
    match item {
        None => Ok(None),
        Some(item) => Ok(Some((owner, item))),
    }
}

impl<T: OfRow> MakeCopy for Files<T> {
    /// The same, which shares all pages. `AllocError` comes only where the count of those that share is full.
    fn copy(&self, alloc: Global) -> Result<Files<T>, AllocError> {
        let pages = self.pages.copy(alloc)?;
        Ok(Files { pages })
    }
}
