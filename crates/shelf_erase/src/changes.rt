ghost use Rattle.std.specs.Prelude.{◌≡◌, [], IfOk, OnOk, is_some};
ghost use Rattle.page_model.specs.Paged.{items};
ghost use Rattle.page_model.specs.Rising.{IsRising};
ghost use Rattle.shelf_erase.specs.Told.{Puts, told};
ghost use Rattle.subject_model.specs.NameOrder.{name_cmp};

use crate::by_name::{ByName, Put};
use own_base::{Change, List, MakeCopy, RowName};
use page_tree::Pages;
use std::alloc::{AllocError, Global};
use std::marker::Model;

/// Changes by the names of their rows, one of a name. Contracts see the list of them.
#[derive(Drop)]
pub(crate) struct Changes {
    by_name: Pages<Change, ByName>,
}

impl Model for Changes {
    ghost use Rattle.std.specs.Prelude.{List as Seq};
    ghost use Rattle.page_model.specs.Page.{joined};
    ghost use Rattle.own_base.specs.declared.change.Change.{Change as Seen};

    ghost Value = { Seq Seen };

    ghost view = { λ changes. joined changes.by_name.pages };
}

impl Changes {
    /// No change. Takes no memory.
    pub(crate) fn new() -> Changes
        ensures { result ≡ [] }
    {
        Changes {
            by_name: Pages::new(ByName),
        }
    }

    /// Whether there is one of a name. Takes no memory.
    pub(crate) fn has(&self, name: &RowName) -> bool
        ensures { result ≡ is_some (told self.now name.now) }
    {
        self.by_name.get(name).is_some()
    }

    /// Puts a copy of a change in place of the one of its name.
    pub(crate) fn put(&mut self, alloc: Global, change: &Change) -> Result<(), AllocError>
        ensures { OnOk result (Puts change.now self.old self.new) }
    {
        self.by_name.change(alloc, &Put { change })
    }

    /// Copies of them, by table, then by key.
    pub(crate) fn to_list(&self, alloc: Global) -> Result<List<Change>, AllocError>
        ensures all { IfOk result (λ list. list ≡ self.now) }
        ensures rising { IsRising (λ change. change.name) name_cmp self.now }
    {
        // By the clauses of `len` they rise.
        let _count = self.by_name.len();
        copies_of(alloc, &self.by_name)
    }
}

/// Copies of changes, in their order.
fn copies_of(alloc: Global, pages: &Pages<Change, ByName>) -> Result<List<Change>, AllocError>
    ensures { IfOk result (λ list. list ≡ items pages.now) }
{
    let mut list = List::new(alloc);
    for change in pages.iter() {
        list.add(change.copy(alloc)?)?;
    }
    Ok(list)
}
