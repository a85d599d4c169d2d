ghost use Rattle.std.specs.Prelude.{◌≡◌, ◌≢◌, ◌||◌, [], false, true, not, IfOk, OnErr};
ghost use Rattle.own_model.specs.declared.refusal.Refusal.TheVariants.{Memory};
ghost use Rattle.own_model.specs.declared.reply.Reply.TheVariants.{Refused};
ghost use Rattle.state_model.specs.Net.{net};
ghost use Rattle.state_model.specs.Rows.{AreRowsOf};
ghost use Rattle.txn_space.specs.Changed.{changed_db};
ghost use Rattle.txn_space.specs.Sound.{IsBase, IsSpaceOf};
ghost use Rattle.txn_core.specs.SessionStates.{IsQuiet, is_select};
ghost use Rattle.txn_core.specs.Runs.{HasRun, IsRowStatement, IsShownBy, IsStore};

use crate::running::run_in;
use link_model::Linked;
use own_base::{Change, List, MakeCopy};
use own_model::{Bound, Reply, StoreView};
use std::alloc::{AllocError, Global};
use txn_space::Space;
use view_deltas::Views;

/// Whether a bound statement is a SELECT. Takes no memory.
fn is_select(bound: &Bound) -> bool
    ensures { result ≡ is_select bound.now }
{
    matches!(bound, Bound::Select(_))
}

/// An open transaction: what it changed, and whether it has run a write.
#[derive(Drop)]
pub struct Txn {
    pub space: Space,
    pub wrote: bool,
}

impl MakeCopy for Txn {
    fn copy(&self, alloc: Global) -> Result<Txn, AllocError> {
        let space = self.space.copy(alloc)?;
        Ok(Txn {
            space,
            wrote: self.wrote,
        })
    }
}

impl Txn {
    /// One that has run no statement. Takes no memory.
    pub fn new(alloc: Global) -> Txn
        ensures nothing { result.space ≡ [] }
        ensures quiet { result.wrote ≡ false }
    {
        Txn {
            space: Space::new(alloc),
            wrote: false,
        }
    }

    /// Runs a bound SELECT, INSERT, UPDATE or DELETE over a version with what the transaction changed. The views are what the
    /// version keeps for its own.
    pub fn run<V: Linked>(
        &mut self,
        alloc: Global,
        version: &V,
        views: &Views,
        bound: &Bound,
    ) -> Result<Reply, AllocError>
        requires store { IsStore (V.db version.now) }
        requires space { IsSpaceOf (V.db version.now).schema.tables self.old.space }
        requires rows { AreRowsOf (V.db version.now).schema.tables (changed_db (V.db version.now) self.old.space).rows }
        requires bound { IsRowStatement (V.db version.now).schema bound.now }
        requires views { IsShownBy (V.db version.now) views.now }
        requires quiet { IsQuiet self.old }
        ensures ran { IfOk result (λ reply. HasRun (V.db version.now) bound.now self.old.space reply self.new.space) }
        ensures quiet { IsQuiet self.new }
        ensures wrote { self.new.wrote ≡ (self.old.wrote || not (is_select bound.now)) }
        ensures unchanged { OnErr result (self.new.space ≡ self.old.space) }
    {
        self.wrote = self.wrote | !is_select(bound);
        run_in(alloc, &mut self.space, version, views, bound)
    }

    /// What such a statement replies, and what the transaction is after it; the transaction itself stays as it is.
    pub(crate) fn run_in_copy<V: Linked>(
        &self,
        alloc: Global,
        version: &V,
        views: &Views,
        bound: &Bound,
    ) -> Result<(Reply, Txn), AllocError>
        requires store { IsStore (V.db version.now) }
        requires space { IsSpaceOf (V.db version.now).schema.tables self.now.space }
        requires rows { AreRowsOf (V.db version.now).schema.tables (changed_db (V.db version.now) self.now.space).rows }
        requires bound { IsRowStatement (V.db version.now).schema bound.now }
        requires views { IsShownBy (V.db version.now) views.now }
        requires quiet { IsQuiet self.now }
        ensures ran { IfOk result (λ after. HasRun (V.db version.now) bound.now self.now.space after.0 after.1.space) }
        ensures quiet { IfOk result (λ after. IsQuiet after.1) }
        ensures wrote { IfOk result (λ after. after.1.wrote ≡ (self.now.wrote || not (is_select bound.now))) }
        ensures told { IfOk result (λ after. after.0 ≢ Refused Memory) }
    {
        let mut txn = self.copy(alloc)?;
        let reply = txn.run(alloc, version, views, bound)?;
        Ok((reply, txn))
    }

    /// What the transaction changes in a version: the net. Where it has run no write that takes no memory.
    pub fn changes<V: StoreView>(
        &self,
        alloc: Global,
        version: &V,
    ) -> Result<List<Change>, AllocError>
        requires base { IsBase (V.db version.now).schema.tables (V.db version.now).rows }
        requires space { IsSpaceOf (V.db version.now).schema.tables self.now.space }
        requires quiet { IsQuiet self.now }
        ensures net { IfOk result (λ changes. changes ≡ net (V.db version.now) (changed_db (V.db version.now) self.now.space)) }
        ensures spared { self.now.wrote ≡ false → IfOk result (λ changes. changes ≡ []) }
        ensures given { OnErr result (self.now.wrote ≡ true) }
    {
        if !self.wrote {
            return Ok(List::new(alloc));
        }
        self.space.changes(alloc, version)
    }
}
