ghost use Rattle.std.specs.Prelude.{◌≡◌, [], IfOk, length};
ghost use Rattle.std.specs.List.{AllByRecursion};
ghost use Rattle.own_model.specs.Db.{Db, IsOrdered};
ghost use Rattle.page_model.specs.Run.{IsRunFrom};
ghost use Rattle.query_model.specs.Query.{source_rows};
ghost use Rattle.state_model.specs.LeadTo.{LeadTo};
ghost use Rattle.view_deltas.specs.Kept.{AddsView, AreKept, StandsFor};
ghost use Rattle.view_deltas.specs.RunRows.{run_rows};
ghost use Rattle.view_deltas.specs.ViewOf.{AreViewsOf, HoldNoSums, IsViewOf};

use crate::kept_view::KeptView;
use crate::view_run::ViewRun;
use own_base::{Change, MakeCopy, ViewNo};
use own_model::{Source1, StoreView, ViewDef};
use std::alloc::{AllocError, Global};
use std::marker::Model;

/// The rows of the views of a store, by the views' numbers. Versions share pages. Contracts see what is kept for each view.
#[derive(Drop)]
pub struct Views {
    kept: Vec<KeptView>,
}

impl Model for Views {
    ghost use Rattle.std.specs.Prelude.{List};
    ghost use Rattle.view_deltas.specs.declared.kept_view.KeptView.{KeptView as Seen};

    ghost Value = { List Seen };

    ghost view = { λ views. views.kept.items };
}

/// Copies of what is kept for views, which share all pages.
fn copied(alloc: Global, kept: &[KeptView]) -> Result<Vec<KeptView>, AllocError>
    ensures { IfOk result (λ copy. copy.items ≡ kept.now) }
{
    let mut copy = Vec::new(alloc);
    copy.reserve_exact(kept.len())?;
    for one in kept {
        copy.push(one.copy(alloc)?)?;
    }
    Ok(copy)
}

/// What is kept for some views after changes.
fn followed<V: StoreView, N: StoreView>(
    alloc: Global,
    kept: &[KeptView],
    definitions: &[ViewDef],
    before: &V,
    after: &N,
    changes: &[Change],
) -> Result<Vec<KeptView>, AllocError>
    requires count { length kept.now ≡ length definitions.now }
    requires views { AllByRecursion (IsViewOf (V.db before.now).schema) definitions.now }
    requires same { (N.db after.now).schema ≡ (V.db before.now).schema }
    ensures { IfOk result (λ made. HoldNoSums (V.db before.now).rows → HoldNoSums (N.db after.now).rows → LeadTo (V.db before.now) (N.db after.now) changes.now
        → AreKept (V.db before.now) definitions.now kept.now → AreKept (N.db after.now) definitions.now made.items) }
{
    let mut made = Vec::new(alloc);
    made.reserve_exact(kept.len())?;
    for number in 0..kept.len() {
        let query = &definitions[number].query;
        let one = &kept[number];
        made.push(one.with_changes(alloc, query, before, after, changes)?)?;
    }
    Ok(made)
}

impl Views {
    /// Those of a store without views. Takes no memory.
    pub fn new(alloc: Global) -> Views
        ensures { result ≡ [] }
    {
        Views {
            kept: Vec::new(alloc),
        }
    }

    /// How many rows a view shows. Takes no memory.
    pub fn view_count(&self, view: ViewNo) -> u64
        ensures { (db : Db) → IsOrdered db → HoldNoSums db.rows → AreViewsOf db.schema → StandsFor db self.now → result ≡ length (source_rows db.schema db.rows (Source1.View view)) }
    {
        match self.kept.get(view.0 as usize) {
            Some(kept) => kept.len() as u64,
            None => 0,
        }
    }

    /// Lends a run of the rows of a view that begins at a place of the view's order, counted from 0: at
    /// least one where there is one, and none past the end. Called again behind each run, it goes over all rows. Takes no
    /// memory.
    pub fn view_from(&self, view: ViewNo, at: u64) -> ViewRun<'_>
        ensures { (db : Db) → IsOrdered db → HoldNoSums db.rows → AreViewsOf db.schema → StandsFor db self.now
            → IsRunFrom (source_rows db.schema db.rows (Source1.View view)) at (run_rows result) }
    {
        match self.kept.get(view.0 as usize) {
            Some(kept) => kept.run_from(at as usize),
            None => ViewRun::Rows(&[]),
        }
    }

    /// These and those of one view more, whose rows are computed from all rows of the store. These stay as they are.
    pub fn build<V: StoreView>(
        &self,
        alloc: Global,
        view: &V,
        definition: &ViewDef,
    ) -> Result<Views, AllocError>
        requires { IsViewOf (V.db view.now).schema definition.now }
        ensures { IfOk result (λ built. (new : Db) → HoldNoSums (V.db view.now).rows → AddsView (V.db view.now) definition.now new → StandsFor (V.db view.now) self.now → StandsFor new built) }
    {
        let mut kept = copied(alloc, self.kept.as_slice())?;
        let one = KeptView::of_view(alloc, view, &definition.query)?;
        kept.push(one)?;
        Ok(Views { kept })
    }

    /// These after changes of the store's rows. These stay as they are, and share the pages in which nothing changes. A change
    /// costs look-ups and puts in the views that read its table: in a view of one table one place, and in a join one for each
    /// row that the row before it or after it meets.
    pub fn with_changes<V: StoreView, N: StoreView>(
        &self,
        alloc: Global,
        before: &V,
        after: &N,
        changes: &[Change],
    ) -> Result<Views, AllocError>
        requires count { length self.now ≡ length (V.db before.now).schema.views }
        requires views { AreViewsOf (V.db before.now).schema }
        requires same { (N.db after.now).schema ≡ (V.db before.now).schema }
        // Where these are those of the state before, and the changes lead from it to the one after.
        ensures { IfOk result (λ kept. HoldNoSums (V.db before.now).rows → HoldNoSums (N.db after.now).rows → LeadTo (V.db before.now) (N.db after.now) changes.now
            → StandsFor (V.db before.now) self.now → StandsFor (N.db after.now) kept) }
    {
        let definitions = before.schema().views.items();
        let kept = followed(
            alloc,
            self.kept.as_slice(),
            definitions,
            before,
            after,
            changes,
        )?;
        Ok(Views { kept })
    }
}

impl MakeCopy for Views {
    /// The same, which share all pages. `AllocError` comes where memory for the list is refused, or the count of those that
    /// share is full.
    fn copy(&self, alloc: Global) -> Result<Views, AllocError> {
        let kept = copied(alloc, self.kept.as_slice())?;
        Ok(Views { kept })
    }
}
