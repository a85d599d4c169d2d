ghost use Rattle.std.specs.Prelude.{◌≡◌, ◌≢◌, ◌≤◌, ◌<◌, ◌^◌, ℕ, List, [], ◌-◌, ◌+◌, IsTrue, None, length, option_map, true, vec_len, IfErr, IfOk, IfSome, OnErr};
ghost use Rattle.std.specs.Vec.{vec_capacity};
ghost use Rattle.own_base.specs.declared.number.Area.{Area};
ghost use Rattle.own_base.specs.declared.number.Area.TheVariants.{A, B};
ghost use Rattle.own_model.specs.declared.history.Verdict.TheVariants.{Took};
ghost use Rattle.own_model.specs.declared.limit.TheConstants.{SESSIONS};
ghost use Rattle.outer_world.specs.FaultCount.{CountRose};
ghost use Rattle.outer_world.specs.LeavesOnly.{LeavesOnly};
ghost use Rattle.outer_world.specs.Stays.{Stays};
ghost use Rattle.state_model.specs.Sound.{Sound};
ghost use Rattle.grammar_model.specs.Readable.{IsReadable};
ghost use Rattle.own_base.specs.declared.number.Place.{Place};
ghost use Rattle.history_model.specs.AsksDisk as spec;
ghost use Rattle.history_model.specs.Commits.{commits};
ghost use Rattle.history_model.specs.History.{flat, world};
ghost use Rattle.history_model.specs.MayBeUnmade.{MayBeUnmadeFrom};
ghost use Rattle.history_model.specs.Serial.{IsEntry, IsHistory, Serial};
ghost use Rattle.disk_model.specs.Judged.{IsJudged};
ghost use Rattle.disk_model.specs.JudgedArea as found;
ghost use Rattle.crash_model.specs.Alone.{is_laid_behind};
ghost use Rattle.crash_model.specs.LeftBy.{IsLeftBy};
ghost use Rattle.crash_model.specs.MovesDisk.{MovesDisk};
ghost use Rattle.crash_model.specs.Room.{IsNoRoomExact};
ghost use Rattle.crash_model.specs.StoreIn.{IsStoreIn};
ghost use Rattle.crash_recover.specs.Opening.{IsLeft};
ghost use Rattle.crash_recover.specs.declared.open.OpenFault.TheVariants.{Damaged, DiskFault};
ghost use Rattle.store_disk.specs.OpensAt.{OpensAt};
ghost use Rattle.serve_model.specs.Ahead.{IsBoundAhead};
ghost use Rattle.engine_core.specs.Came.{ComesAs, reply_by};
ghost use Rattle.engine_core.specs.Made.{IsEndOf, IsMade};
ghost use Rattle.engine_core.specs.RepresentsWorld.{RepresentsWorld};
ghost use Rattle.engine_core.specs.Seen.{Answers, IsAloneBehind, Steps, disk_of, entry};
ghost use Rattle.engine_core.specs.Stored.{IsUp};

use crate::came::{Came, into_reply, step_of, verdict_by};
use crate::closed::Closed;
use crate::ready::serve_ahead;
use crate::state::State;
use crate::verdict::is_fault;
use commit_replay::Replayed;
use crash_recover::OpenFault;
use outer_world::Disk;
use own_base::{List, Place, SessionNo};
use own_model::{Entry, Refusal, Reply, Request, Verdict};
use serve_model::{Ahead, Step};
use std::alloc::{AllocError, Global};
use std::marker::Model;
use std::mem::drop;
use std::snapshot;
use store_disk::{StoreDisk, open_disk};
use store_snapshot::Snapshot;
use store_version::Version;
use txn_core::Txns;

/// An opened store: its state and the transactions of its sessions, the history that made them, and its disk. Contracts see the
/// database that it was opened with, how many commits had made it, where the journal stood then and the disk as it was then, the
/// history, for how many entries more there is room, and the disk of the store.
pub struct Engine<D: Disk> {
    alloc: Global,
    state: State,
    /// What shows the state, from the last look on until something may change.
    seen: Option<Snapshot>,
    history: Vec<Entry>,
    store: StoreDisk<D>,
    /// The store's disk as the opening left it, for clauses alone.
    opening: snapshot::Snapshot<StoreDisk<D>>,
    start: u64,
    epoch: u64,
    end: u64,
    down: Option<Place>,
}

impl<D: Disk> Model for Engine<D> {
    ghost use Rattle.std.specs.Prelude.{◌≡◌, ◌-◌, IfSome, vec_len};
    ghost use Rattle.std.specs.Vec.{vec_capacity};
    ghost use Rattle.engine_core.specs.Seen.{Seen};
    ghost use Rattle.own_model.specs.contracts.condition.Cond as cond;
    ghost use Rattle.own_model.specs.contracts.bound.BoundCond as bound;
    ghost use Rattle.std.specs.Coded.{codes};

    ghost Value = { Seen D };

    ghost coded = { Prim.hlevel (codes, cond.the_row.coded, bound.the_row.coded, D.code) };

    ghost view = { λ engine. record { base = engine.state.opened; start = engine.start; area = engine.opening.value.journal.area; journal = record { epoch = engine.epoch; end = engine.end }; opening = engine.opening.value.journal.disk; history = engine.history.items; spare = vec_capacity engine.history - vec_len engine.history; store = engine.store } };

    ghost use Rattle.engine_core.specs.Made.{Stands};

    ghost invariant = { λ engine. Stands D.holds D.leaves D.moment D.might_have_left D.honest D.faults engine.opening.value.journal.disk engine.start (record { epoch = engine.epoch; end = engine.end }) engine.state engine.store engine.down engine.history.items × IfSome engine.seen (λ shown. shown ≡ engine.state.version) };
}

impl<D: Disk> Engine<D> {
    /// Opens the store of a disk, or begins one where the disk has none, with room for so many entries.
    pub fn open_with_room(alloc: Global, disk: D, calls: u32) -> Result<Engine<D>, (OpenFault, D)>
        ensures base { IfOk result (λ engine. IsTrue (D.honest disk) → IsStoreIn (D.holds disk A) (D.holds disk B) engine.base engine.start) }
        ensures sound { IfOk result (λ engine. Sound engine.base) }
        ensures history { IfOk result (λ engine. engine.history ≡ []) }
        ensures journal { IfOk result (λ engine. IsEndOf engine.store.journal engine.journal) }
        ensures area { IfOk result (λ engine. engine.area ≡ engine.store.journal.area) }
        ensures opening { IfOk result (λ engine. engine.opening ≡ disk_of engine) }
        ensures start { IfOk result (λ engine. IsTrue (D.honest disk)
            → OpensAt (D.holds disk A) (D.holds disk B) engine.area engine.journal.epoch engine.journal.end) }
        ensures room { IfOk result (λ engine. calls ≤ engine.spare) }

        // What a crash leaves of the disk, at any moment of the call and after it.
        ensures left { IfOk result (λ engine. IsTrue (D.honest disk)
            → (a b : List ℕ) → D.leaves (disk_of engine) A a → D.leaves (disk_of engine) B b → IsStoreIn a b engine.base engine.start) }
        ensures moments { IfOk result (λ engine. IsTrue (D.honest disk)
            → LeavesOnly D.moment D.might_have_left (IsLeft D.holds D.leaves disk) disk (disk_of engine)) }
        ensures moments_err { IfErr result (λ back. IsTrue (D.honest disk)
            → LeavesOnly D.moment D.might_have_left (IsLeft D.holds D.leaves disk) disk back.1) }
        ensures honesty { IfOk result (λ engine. D.honest (disk_of engine) ≡ D.honest disk) }
        ensures honesty_err { IfErr result (λ back. D.honest back.1 ≡ D.honest disk) }
        ensures time { IfOk result (λ engine. D.moment disk ≤ D.moment (disk_of engine)) }
        ensures time_err { IfErr result (λ back. D.moment disk ≤ D.moment back.1) }

        // Damaged is told where what the disk holds is damaged, and then the disk is left as it was.
        ensures damaged { IfErr result (λ back. (area : Area) (offset : ℕ) → back.0 ≡ Damaged area offset
            → IsTrue (D.honest disk) → IsJudged (D.holds disk A) (D.holds disk B) (found.Damaged area offset)) }
        ensures kept_a { IfErr result (λ back. (area : Area) (offset : ℕ) → back.0 ≡ Damaged area offset → IsTrue (D.honest disk)
            → Stays D.holds D.leaves A disk back.1) }
        ensures kept_b { IfErr result (λ back. (area : Area) (offset : ℕ) → back.0 ≡ Damaged area offset → IsTrue (D.honest disk)
            → Stays D.holds D.leaves B disk back.1) }
        ensures fault { IfErr result (λ back. back.0 ≡ DiskFault → CountRose (D.faults disk) (D.faults back.1)) }
        ensures steady { IfOk result (λ engine. D.faults (disk_of engine) ≡ D.faults disk) }
        ensures steady_err { IfErr result (λ back. back.0 ≢ DiskFault → D.faults back.1 ≡ D.faults disk) }
        ensures risen { IfErr result (λ back. D.faults disk ≤ D.faults back.1) }
    {
        let (store, replayed) = open_disk(alloc, disk)?;
        match begun(alloc, replayed, calls) {
            Ok((state, history)) => {
                let start = store.commits();
                let epoch = store.epoch();
                let end = store.end();
                let opening = snapshot::Snapshot::of(&store);
                Ok(Engine {
                    alloc,
                    state,
                    seen: None,
                    history,
                    store,
                    opening,
                    start,
                    epoch,
                    end,
                    down: None,
                })
            }
            Err(AllocError) => Err((OpenFault::Memory, store.close())),
        }
    }

    /// Makes a call of a session: its entry comes into the history with what the disk said, and the state changes by it. A call
    /// that reads alone, outside a transaction, isn't answered but comes with what shows the database that it reads, which the
    /// store may move on from. Where memory is refused the call isn't made. Nobody waits: where sessions stand in each other's
    /// way, one of them is refused.
    pub fn step(&mut self, session: SessionNo, call: u32, request: Request) -> Step<Snapshot>
        requires first { 1 ≤ session.0 }
        requires last { session.0 ≤ SESSIONS }
        requires readable { IsReadable request }
        ensures steps { Steps D.holds D.leaves D.moment D.might_have_left D.honest D.faults self.old self.new (entry session call request Took) result }
        ensures serial { Serial self.new.base self.new.history }
        ensures count { self.new.store.commits ≡ self.new.start + length (commits self.new.base self.new.history) }
        ensures left { IsTrue (D.honest (disk_of self.new)) → (a b : List ℕ) → D.leaves (disk_of self.new) A a → D.leaves (disk_of self.new) B b
            → IsLeftBy self.new.base self.new.start self.new.history a b }
    {
        self.step_ahead(session, call, request, None)
    }

    /// Makes a call of a session as `step` does. Where the store has no more creates than what its statement was bound over ahead, a look
    /// takes that, and else the statement is bound here.
    pub fn step_ahead(
        &mut self,
        session: SessionNo,
        call: u32,
        request: Request,
        ahead: Option<Ahead>,
    ) -> Step<Snapshot>
        requires first { 1 ≤ session.0 }
        requires last { session.0 ≤ SESSIONS }
        requires readable { IsReadable request }
        requires ahead { IfSome ahead (IsBoundAhead self.old.base self.old.history request) }
        ensures steps { Steps D.holds D.leaves D.moment D.might_have_left D.honest D.faults self.old self.new (entry session call request Took) result }
        ensures serial { Serial self.new.base self.new.history }
        ensures count { self.new.store.commits ≡ self.new.start + length (commits self.new.base self.new.history) }
        ensures left { IsTrue (D.honest (disk_of self.new)) → (a b : List ℕ) → D.leaves (disk_of self.new) A a → D.leaves (disk_of self.new) B b
            → IsLeftBy self.new.base self.new.start self.new.history a b }
    {
        let entry = Entry {
            session,
            call,
            request,
            verdict: Verdict::Took,
        };
        match make(
            self.alloc,
            &mut self.state,
            &mut self.seen,
            &mut self.store,
            &mut self.down,
            &mut self.history,
            entry,
            ahead,
            false,
        ) {
            Ok((place, came)) => step_of(place, came),
            Err(AllocError) => Step::NoMemory,
        }
    }

    /// Makes a call of a session as `step` does, and answers it at once: one that reads alone is answered before its entry comes into
    /// the history. So where memory for what it shows is refused the call isn't made.
    pub fn answer(
        &mut self,
        session: SessionNo,
        call: u32,
        request: Request,
    ) -> Result<(Place, Reply), AllocError>
        requires first { 1 ≤ session.0 }
        requires last { session.0 ≤ SESSIONS }
        requires readable { IsReadable request }
        ensures answers { Answers D.holds D.leaves D.moment D.might_have_left D.honest D.faults self.old self.new (entry session call request Took) result }
        ensures serial { Serial self.new.base self.new.history }
        ensures count { self.new.store.commits ≡ self.new.start + length (commits self.new.base self.new.history) }
        ensures left { IsTrue (D.honest (disk_of self.new)) → (a b : List ℕ) → D.leaves (disk_of self.new) A a → D.leaves (disk_of self.new) B b
            → IsLeftBy self.new.base self.new.start self.new.history a b }
    {
        let entry = Entry {
            session,
            call,
            request,
            verdict: Verdict::Took,
        };
        match make(
            self.alloc,
            &mut self.state,
            &mut self.seen,
            &mut self.store,
            &mut self.down,
            &mut self.history,
            entry,
            None,
            true,
        ) {
            Ok((place, came)) => Ok((place, into_reply(came))),
            Err(AllocError) => Err(AllocError),
        }
    }

    /// Lends the history. Takes no memory.
    pub fn history(&self) -> &[Entry]
        ensures history { result.now ≡ self.now.history }
        ensures serial { Serial self.now.base result.now }
        ensures exact { IsNoRoomExact self.now.journal self.now.base self.now.start result.now }
    {
        &self.history
    }

    /// The state that the calls made so far have left; of one whose disk has failed nothing is said. Takes no memory.
    pub fn version(&self) -> &Version
        ensures { (world self.now.base self.now.history).down ≡ None → result.now ≡ flat self.now.base self.now.history }
    {
        &self.state.version
    }

    /// For how many entries more there is room, as far as 32 bits tell. Takes no memory.
    pub fn spare(&self) -> u32
        ensures all { self.now.spare < 2 ^ 32 → result ≡ self.now.spare }
        ensures most { 2 ^ 32 ≤ self.now.spare → result ≡ 4294967295 }
    {
        let spare = self.history.capacity() - self.history.len();
        u32::try_from(spare).unwrap_or(u32::MAX)
    }

    /// The state that the opening left, the history and the disk. Takes no memory.
    pub fn close(self) -> Closed<D>
        ensures opened { result.opened ≡ self.base }
        ensures history { result.history ≡ self.history }
        ensures disk { result.disk ≡ disk_of self }
        ensures serial { Serial self.base result.history }
        ensures left { IsTrue (D.honest result.disk) → (a b : List ℕ) → D.leaves result.disk A a → D.leaves result.disk B b
            → IsLeftBy self.base self.start result.history a b }
        // What the calls did to the disk since the opening, at any moment and in all.
        ensures moves { MovesDisk D.moment D.might_have_left D.honest D.faults self.base self.start result.history self.opening result.disk }
        // The limit `room` was told just where a call needed more of it than there was.
        ensures exact { IsNoRoomExact self.journal self.base self.start result.history }
        // Where the last call that wrote laid the store anew, as a CHECKPOINT and a FORGET do, nothing else is on the disk.
        ensures alone { is_laid_behind self.base result.history ≡ true → IsTrue (D.honest result.disk)
            → IsAloneBehind D.holds D.leaves result.disk self.journal self.base self.start result.history }
    {
        let Engine {
            alloc: _,
            state,
            seen,
            history,
            store,
            opening: _,
            start: _,
            epoch: _,
            end: _,
            down: _,
        } = self;
        let State {
            opened,
            version,
            weighs: _,
            txns,
        } = state;
        drop(seen);
        drop(version);
        drop(txns);
        Closed {
            opened,
            history: List::from_vec(history),
            disk: store.close(),
        }
    }
}

/// An entry of which the disk said this.
fn under(verdict: Verdict, entry: Entry) -> Entry
    ensures { result ≡ spec.under verdict entry }
{
    let Entry {
        session,
        call,
        request,
        verdict: _,
    } = entry;
    Entry {
        session,
        call,
        request,
        verdict,
    }
}

/// Makes a call: its entry is served, and comes into the history; once the disk has failed, that is told. Where memory is refused
/// nothing but the room for entries changes, which doesn't shrink. All that may fail for want of memory comes before the first
/// change.
fn make<D: Disk>(
    alloc: Global,
    state: &mut State,
    seen: &mut Option<Snapshot>,
    store: &mut StoreDisk<D>,
    down: &mut Option<Place>,
    history: &mut Vec<Entry>,
    entry: Entry,
    ahead: Option<Ahead>,
    at_once: bool,
) -> Result<(Place, Came), AllocError>
    requires entries { IsHistory history.old.items }
    requires begun { Sound state.old.opened }
    requires represents { down.old ≡ None → RepresentsWorld state.old (world state.old.opened history.old.items) }
    requires down { (world state.old.opened history.old.items).down ≡ option_map (λ (place : Place). place.0) down.old }
    requires store { down.old ≡ None → IsUp D.holds D.leaves D.honest store.old state.old.version }
    requires seen { IfSome seen.old (λ shown. shown ≡ state.old.version) }
    requires is_entry { IsEntry entry }
    requires took { entry.verdict ≡ Took }
    requires ahead { IfSome ahead (IsBoundAhead state.old.opened history.old.items entry.request) }
    ensures made { IfOk result (λ made. IsMade D.holds D.leaves D.moment D.might_have_left D.honest D.faults state.old.opened history.old.items history.new.items state.new
        store.old store.new down.old down.new entry made.0.0 (reply_by made.1)) }
    ensures comes { IfOk result (λ made. ComesAs at_once (world state.old.opened history.old.items) entry made.1) }
    ensures unmade { OnErr result ((history.new.items ≡ history.old.items) × (down.old ≡ None → RepresentsWorld state.new (world state.old.opened history.old.items)) × (store.new ≡ store.old) × (down.new ≡ down.old)) }
    ensures spared { OnErr result (0 < vec_capacity history.old - vec_len history.old
        → MayBeUnmadeFrom (world state.old.opened history.old.items).flat.schema ((world state.old.opened history.old.items).standing entry.session.0) entry.request) }
    ensures opened { state.new.opened ≡ state.old.opened }
    ensures seen { IfSome seen.new (λ shown. shown ≡ state.new.version) }
    ensures room { vec_capacity history.old - vec_len history.old ≤ vec_capacity history.new - vec_len history.new + 1 }
    ensures room_left { OnErr result (vec_capacity history.old - vec_len history.old ≤ vec_capacity history.new - vec_len history.new) }
{
    if history.reserve(1).is_err() {
        drop(entry);
        drop(ahead);
        return Err(AllocError);
    }
    let place = Place(history.len() as u64);
    if let Some(failed) = *down {
        drop(ahead);
        history.push_reserved(entry);
        let why = Refusal::Down(failed);
        return Ok((place, Came::Replied(Verdict::Took, Reply::Refused(why))));
    }
    match serve_ahead(alloc, state, seen, store, history, &entry, ahead, at_once) {
        Ok(came) => {
            let verdict = verdict_by(&came);
            if is_fault(verdict) {
                *down = Some(place);
            }
            history.push_reserved(under(verdict, entry));
            Ok((place, came))
        }
        Err(AllocError) => {
            drop(entry);
            Err(AllocError)
        }
    }
}

/// The state of a store that was opened, of which no call was made, and room for so many entries.
fn begun(alloc: Global, replayed: Replayed, calls: u32) -> Result<(State, Vec<Entry>), AllocError>
    ensures base { IfOk result (λ pair. pair.0.opened ≡ replayed) }
    ensures stands { IfOk result (λ pair. RepresentsWorld pair.0 (world pair.0.opened [])) }
    ensures sound { IfOk result (λ pair. Sound pair.0.opened) }
    ensures history { IfOk result (λ pair. pair.1.items ≡ []) }
    ensures room { IfOk result (λ pair. calls ≤ vec_capacity pair.1) }
{
    let history = Vec::with_capacity(alloc, calls as usize)?;
    let txns = Txns::new(alloc)?;
    let (version, weighs) = replayed.into_parts();
    let opened = Snapshot::taken(alloc, &version)?;
    let state = State {
        opened,
        version,
        weighs,
        txns,
    };
    Ok((state, history))
}
