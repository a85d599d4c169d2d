ghost use Rattle.std.specs.Prelude.{◌≡◌, ◌≢◌, ◌<◌, ◌≤◌, ◌⊎◌, ℕ, List as Seq, [], None, false, true, IfErr, IfOk, OnErr, option_map};
ghost use Rattle.std.specs.List.{find};
ghost use Rattle.own_model.specs.declared.footprint.FootItem.{FootItem as Item};
ghost use Rattle.own_model.specs.declared.limit.TheConstants.{SESSIONS as COUNT};
ghost use Rattle.own_model.specs.declared.refusal.Refusal.TheVariants.{Memory};
ghost use Rattle.own_model.specs.declared.reply.Reply.TheVariants.{Refused};
ghost use Rattle.query_model.specs.Footprints.{footprint_of};
ghost use Rattle.state_model.specs.Net.{net};
ghost use Rattle.state_model.specs.Rows.{AreRowsOf};
ghost use Rattle.query_eval.specs.Tables.{AreTables};
ghost use Rattle.run_model.specs.Run.{run_bound};
ghost use Rattle.history_model.specs.Held.{others};
ghost use Rattle.history_model.specs.History.{lie_on};
ghost use Rattle.history_model.specs.Reply.{is_refusal};
ghost use Rattle.row_locks.specs.SessionItems.{items_by as held_by};
ghost use Rattle.row_locks.specs.RepresentsItems.{AreHeld, RepresentsItems, holder_among};
ghost use Rattle.txn_space.specs.Changed.{changed_db};
ghost use Rattle.txn_space.specs.Sound.{IsBase, IsSpaceOf};
ghost use Rattle.write_eval.specs.Write.{IsWrite};
ghost use Rattle.txn_core.specs.declared.session_state.SessionState.TheVariants.{Nothing, Open};
ghost use Rattle.txn_core.specs.SessionStates.{doom_of, is_open, state_by, told};
ghost use Rattle.txn_core.specs.Runs.{IsRowStatement, IsShownBy, IsStore};
ghost use Rattle.txn_core.specs.Single.{NetTo};
ghost use Rattle.txn_core.specs.Transactions.{AreItemsOf, AreOthersSame, AreSame, IsQuietState, IsSameOf, IsSingleRefusal, IsDoomedIf, Stated, conflict_of, space_of, wrote_of};

use crate::conflict::conflict;
use crate::session_state::SessionState;
use crate::sessions::Sessions;
use crate::single_write::single;
use link_model::Linked;
use own_base::{Change, List, Place, RowName, SessionNo};
use own_model::{Bound, Footprint, Refusal, Reply, SESSIONS, Schema, StoreView};
use plan_bind::footprint;
use row_locks::LockTable;
use std::alloc::{AllocError, Global};
use std::marker::Model;
use view_deltas::Views;

/// The transactions of all sessions. Contracts see how each session stands, and the items that it holds.
#[derive(Drop)]
pub struct Txns {
    sessions: Sessions,
    locks: LockTable,
}

impl Model for Txns {
    ghost use Rattle.txn_core.specs.Transactions.{Transactions};

    ghost Value = { Transactions };

    ghost view = { λ txns. record { states = txns.sessions; held = txns.locks } };
}

impl Txns {
    /// No session is in a transaction, and none holds anything.
    pub fn new(alloc: Global) -> Result<Txns, AllocError>
        ensures outside { IfOk result (λ txns. (session : ℕ) → state_by txns.states session ≡ Nothing) }
        ensures free { IfOk result (λ txns. (session : ℕ) → held_by txns.held session ≡ []) }
    {
        let sessions = Sessions::new(alloc)?;
        Ok(Txns {
            sessions,
            locks: LockTable::new(alloc),
        })
    }

    /// Whether a transaction of a session is open. Takes no memory.
    pub fn is_open(&self, session: SessionNo) -> bool
        requires { session.0 ≤ COUNT }
        ensures { result ≡ is_open (state_by self.now.states session.0) }
    {
        self.sessions.is_open(session)
    }

    /// The lowest other session with an open transaction. Takes no memory.
    pub fn lowest_other(&self, session: SessionNo) -> Option<SessionNo>
        ensures { option_map (λ other. other.0) result ≡ find (λ other. is_open (state_by self.now.states other)) (others session.0) }
    {
        self.sessions.lowest_other(session)
    }

    /// Opens a transaction of a session that is outside one. Takes no memory.
    pub fn begin(&mut self, alloc: Global, session: SessionNo)
        requires session { session.0 ≤ COUNT }
        requires outside { state_by self.old.states session.0 ≡ Nothing }
        ensures begun { state_by self.new.states session.0 ≡ Open (record { space = []; wrote = false }) }
        ensures held { held_by self.new.held session.0 ≡ held_by self.old.held session.0 }
        ensures others { AreOthersSame session.0 self.old self.new }
    {
        self.sessions.begin(alloc, session);
    }

    /// Why a statement is refused in whose way another session stands, where one does: the lowest such session, and the
    /// first item of the footprint that it holds.
    fn conflict(
        &self,
        alloc: Global,
        schema: &Schema,
        session: SessionNo,
        footprint: &Footprint,
    ) -> Result<Option<Refusal>, AllocError>
        requires there { AreItemsOf schema.now footprint.now }
        ensures { IfOk result (λ why. why ≡ option_map (conflict_of schema.now) (holder_among (held_by self.now.held) session.0 footprint.now)) }
    {
        match self.locks.first_holder(session, footprint) {
            None => Ok(None),
            Some(held) => Ok(Some(conflict(alloc, schema, held.session, held.item)?)),
        }
    }

    /// A statement in the open transaction of a session. It runs in a copy of the transaction, which comes in its place with
    /// the last step that may want memory.
    fn run<V: Linked>(
        &mut self,
        alloc: Global,
        version: &V,
        views: &Views,
        session: SessionNo,
        bound: &Bound,
    ) -> Result<Reply, AllocError>
        requires session { session.0 ≤ COUNT }
        requires open { is_open (state_by self.old.states session.0) ≡ true }
        requires store { IsStore (V.db version.now) }
        requires space { IsSpaceOf (V.db version.now).schema.tables (space_of (state_by self.old.states session.0)) }
        requires rows { AreRowsOf (V.db version.now).schema.tables (changed_db (V.db version.now) (space_of (state_by self.old.states session.0))).rows }
        requires quiet { IsQuietState (state_by self.old.states session.0) }
        requires bound { IsRowStatement (V.db version.now).schema bound.now }
        requires views { IsShownBy (V.db version.now) views.now }
        ensures stated { IfOk result (λ reply. Stated (holder_among (held_by self.old.held) session.0 (footprint_of (V.db version.now).schema bound.now)) (V.db version.now) bound.now session.0 self.old self.new reply) }
        ensures told { IfOk result (λ reply. reply ≢ Refused Memory) }
        ensures unmade { OnErr result (AreSame self.old self.new) }
    {
        let footprint = footprint(alloc, version.schema(), bound)?;
        let conflict = self.conflict(alloc, version.schema(), session, &footprint)?;
        if let Some(why) = conflict {
            return Ok(Reply::Refused(why));
        }
        let (reply, txn) = self
            .sessions
            .txn(session)
            .run_in_copy(alloc, version, views, bound)?;
        self.locks.grant(alloc, session, footprint)?;
        let _ = self.sessions.put(session, SessionState::Open(txn));
        Ok(reply)
    }

    /// Runs a bound SELECT, INSERT, UPDATE or DELETE in the open transaction of a session, which then holds the rows of its
    /// footprint besides. Where another session stands in the way it is refused with the conflict, and where memory is
    /// refused with `Memory`: nothing changes then. A statement that is refused as it runs is one of the transaction. The views
    /// are what the version keeps for its own; a SELECT from one whose tables the transaction left reads them.
    pub fn statement<V: Linked>(
        &mut self,
        alloc: Global,
        version: &V,
        views: &Views,
        session: SessionNo,
        bound: &Bound,
    ) -> Result<Reply, Refusal>
        requires session { session.0 ≤ COUNT }
        requires open { is_open (state_by self.old.states session.0) ≡ true }
        requires store { IsStore (V.db version.now) }
        requires space { IsSpaceOf (V.db version.now).schema.tables (space_of (state_by self.old.states session.0)) }
        requires rows { AreRowsOf (V.db version.now).schema.tables (changed_db (V.db version.now) (space_of (state_by self.old.states session.0))).rows }
        requires quiet { IsQuietState (state_by self.old.states session.0) }
        requires bound { IsRowStatement (V.db version.now).schema bound.now }
        requires views { IsShownBy (V.db version.now) views.now }
        ensures ok { IfOk result (λ reply. Stated (holder_among (held_by self.old.held) session.0 (footprint_of (V.db version.now).schema bound.now)) (V.db version.now) bound.now session.0 self.old self.new reply) }
        ensures accepted { IfOk result (λ reply. is_refusal reply ≡ false) }
        ensures err { IfErr result (λ why. why ≢ Memory → Stated (holder_among (held_by self.old.held) session.0 (footprint_of (V.db version.now).schema bound.now)) (V.db version.now) bound.now session.0 self.old self.new (Refused why)) }
        ensures unmade { IfErr result (λ why. why ≡ Memory → AreSame self.old self.new) }
    {
        match self.run(alloc, version, views, session, bound) {
            Ok(Reply::Refused(why)) => Err(why),
            Ok(reply) => Ok(reply),
            Err(AllocError) => Err(Refusal::Memory),
        }
    }

    /// The conflict of a bound statement, where another session stands in its way.
    fn conflict_with(
        &self,
        alloc: Global,
        schema: &Schema,
        session: SessionNo,
        bound: &Bound,
    ) -> Result<Option<Refusal>, AllocError>
        requires there { AreItemsOf schema.now (footprint_of schema.now bound.now) }
        ensures { IfOk result (λ why. why ≡ option_map (conflict_of schema.now) (holder_among (held_by self.now.held) session.0 (footprint_of schema.now bound.now))) }
    {
        let footprint = footprint(alloc, schema, bound)?;
        self.conflict(alloc, schema, session, &footprint)
    }

    /// A write of a session outside a transaction: the reply to it, and the net of what it changes, by table, then key; or
    /// why it is refused, with the conflict where a session stands in the way. Where memory is refused, it is `Memory`.
    pub fn single<V: Linked>(
        &self,
        alloc: Global,
        version: &V,
        session: SessionNo,
        bound: &Bound,
    ) -> Result<(Reply, List<Change>), Refusal>
        requires write { IsWrite (V.db version.now).schema bound.now }
        requires tables { AreTables (V.db version.now).schema (V.db version.now).rows }
        ensures ok { IfOk result (λ written. (holder_among (held_by self.now.held) session.0 (footprint_of (V.db version.now).schema bound.now) ≡ None)
            × (NetTo (V.db version.now) (run_bound (V.db version.now) bound.now) written.0 written.1)) }
        ensures accepted { IfOk result (λ written. is_refusal written.0 ≡ false) }
        ensures err { IfErr result (λ why. why ≢ Memory → IsSingleRefusal (holder_among (held_by self.now.held) session.0 (footprint_of (V.db version.now).schema bound.now)) (V.db version.now) bound.now why) }
    {
        match self.conflict_with(alloc, version.schema(), session, bound) {
            Ok(None) => single(alloc, version, bound),
            Ok(Some(why)) => Err(why),
            Err(AllocError) => Err(Refusal::Memory),
        }
    }

    /// What the open transaction of a session changes in a version: the net. Where it has run no write that takes no memory.
    pub fn changes<V: Linked>(
        &self,
        alloc: Global,
        version: &V,
        session: SessionNo,
    ) -> Result<List<Change>, AllocError>
        requires session { session.0 ≤ COUNT }
        requires open { is_open (state_by self.now.states session.0) ≡ true }
        requires base { IsBase (V.db version.now).schema.tables (V.db version.now).rows }
        requires space { IsSpaceOf (V.db version.now).schema.tables (space_of (state_by self.now.states session.0)) }
        requires quiet { IsQuietState (state_by self.now.states session.0) }
        ensures net { IfOk result (λ changes. changes ≡ net (V.db version.now) (changed_db (V.db version.now) (space_of (state_by self.now.states session.0)))) }
        ensures spared { wrote_of (state_by self.now.states session.0) ≡ false → IfOk result (λ changes. changes ≡ []) }
        ensures given { OnErr result (wrote_of (state_by self.now.states session.0) ≡ true) }
    {
        self.sessions.txn(session).changes(alloc, version)
    }

    /// Ends the transaction of a session: what it changed is forgotten, and it holds nothing. Takes no memory.
    pub fn finish(&mut self, session: SessionNo)
        requires { session.0 ≤ COUNT }
        ensures outside { state_by self.new.states session.0 ≡ Nothing }
        ensures free { held_by self.new.held session.0 ≡ [] }
        ensures others { AreOthersSame session.0 self.old self.new }
    {
        self.sessions.finish(session);
        self.locks.release(session);
    }

    /// Ends the transaction of a session by a FORGET at a place, where one of the names lies on an item that it holds; it
    /// holds nothing then. Takes no memory.
    fn doom_session(&mut self, session: SessionNo, names: &[RowName], place: Place)
        requires { session.0 ≤ COUNT }
        ensures once_doomed { (items : Seq Item) → RepresentsItems (held_by self.old.held session.0) items → IsDoomedIf (lie_on names.now items) place session.0 self.old self.new }
        ensures others { AreOthersSame session.0 self.old self.new }
    {
        if self.locks.overlaps(session, names) {
            self.sessions.doom_session(session, place);
            self.locks.release(session);
        }
    }

    /// Ends, by a FORGET at a place, the transaction of each session that holds an item on which one of the names lies; it
    /// holds nothing then. Takes no memory.
    pub fn doom(&mut self, names: &[RowName], place: Place)
        ensures doomed { (held : ℕ → Seq Item) → AreHeld self.old.held held → (session : ℕ) → 1 ≤ session → session ≤ COUNT → IsDoomedIf (lie_on names.now (held session)) place session self.old self.new }
        ensures others { (session : ℕ) → (session ≡ 0) ⊎ (COUNT < session) → IsSameOf session self.old self.new }
    {
        for number in 1..SESSIONS + 1 {
            self.doom_session(SessionNo(number), names, place);
        }
    }

    /// Gives the place of a session's doom, once. Takes no memory.
    pub fn tell_doom(&mut self, session: SessionNo) -> Option<Place>
        requires { session.0 ≤ COUNT }
        ensures told { result ≡ doom_of (state_by self.old.states session.0) }
        ensures once { state_by self.new.states session.0 ≡ told (state_by self.old.states session.0) }
        ensures held { held_by self.new.held session.0 ≡ held_by self.old.held session.0 }
        ensures others { AreOthersSame session.0 self.old self.new }
    {
        self.sessions.tell_doom(session)
    }
}
