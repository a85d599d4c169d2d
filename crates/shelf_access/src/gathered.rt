ghost use Rattle.std.specs.Prelude.{◌≡◌, [], ◌∷◌, OnOk, length, map};
ghost use Rattle.page_model.specs.Rising.{IsRising};
ghost use Rattle.page_model.specs.Run.{IsRunFrom};
ghost use Rattle.shelf_model.specs.Shelf.{shelf};
ghost use Rattle.subject_model.specs.NameOrder.{name_cmp};
ghost use Rattle.shelf_access.specs.Gathered.{Gathers, name_of_copy};

use crate::by_name::{ByName, Put};
use own_base::Subject;
use page_tree::Pages;
use shelf_model::{Shelved, Shelves};
use std::alloc::{AllocError, Global};
use std::marker::Model;

/// Copies of rows in the order of their names. Contracts see the list of them.
#[derive(Drop)]
pub(crate) struct Gathered {
    pages: Pages<Shelved, ByName>,
}

impl Model for Gathered {
    ghost use Rattle.std.specs.Prelude.{List};
    ghost use Rattle.page_model.specs.Paged.{items};
    ghost use Rattle.shelf_model.specs.declared.shelved.Shelved.{Shelved as Seen};

    ghost Value = { List Seen };

    ghost view = { λ gathered. items gathered.pages };
}

impl Gathered {
    /// None. Takes no memory.
    pub(crate) fn new() -> Gathered
        ensures { result ≡ [] }
    {
        Gathered {
            pages: Pages::new(ByName),
        }
    }

    /// How many there are. Takes no memory.
    pub(crate) fn len(&self) -> usize
        ensures count { result ≡ length self.now }
        ensures rising { IsRising name_of_copy name_cmp self.now }
    {
        self.pages.len()
    }

    /// Lends a run of them, from a place on. Takes no memory.
    pub(crate) fn run_from(&self, place: usize) -> &[Shelved]
        ensures { IsRunFrom self.now place result.now }
    {
        self.pages.run_from(place)
    }

    /// One more, in place of one of its name.
    fn add(&mut self, alloc: Global, copy: &Shelved) -> Result<(), AllocError>
        ensures { OnOk result (Gathers (copy.now ∷ []) self.old self.new) }
    {
        self.pages.change(alloc, &Put { copy })
    }

    /// Those of a list.
    pub(crate) fn add_all(&mut self, alloc: Global, copies: &[Shelved]) -> Result<(), AllocError>
        ensures { OnOk result (Gathers copies.now self.old self.new) }
    {
        for copy in copies {
            self.add(alloc, copy)?;
        }
        Ok(())
    }

    /// Those of a run of a shelf.
    fn add_run(&mut self, alloc: Global, run: &[(Subject, Shelved)]) -> Result<(), AllocError>
        ensures { OnOk result (Gathers (map (λ filed. filed.1) run.now) self.old self.new) }
    {
        for filed in run {
            self.add(alloc, &filed.1)?;
        }
        Ok(())
    }

    /// Those of a subject's shelf.
    pub(crate) fn add_shelf<S: Shelves>(
        &mut self,
        alloc: Global,
        shelves: &S,
        subject: &Subject,
    ) -> Result<(), AllocError>
        ensures { OnOk result (Gathers (shelf (S.shelved shelves.now) subject.now.0) self.old self.new) }
    {
        let count = shelves.shelf_count(subject);
        let mut at = 0;
        while at < count {
            let run = shelves.shelf_from(subject, at);
            self.add_run(alloc, run)?;
            at += run.len() as u64;
        }
        Ok(())
    }
}
