ghost use Rattle.std.specs.Prelude.{◌≡◌, ◌<◌, ◌≤◌, ℕ, [], ◌∷◌, true, false, IfErr, IfOk, Some, length};
ghost use mathlib.Core.List.{IsPrefix};
ghost use Rattle.own_model.specs.declared.limit.TheConstants.{SESSIONS};
ghost use Rattle.commit_turn.specs.Passes.{IsFresh, IsHeldOf, IsPassOf, base, count_out, found_start, is_lead, kept, seen, start_of, view_of};
ghost use Rattle.commit_turn.specs.Rule.{first};
ghost use Rattle.commit_turn.specs.Steps.{HasTaken, MayCount, counted, holding, lead_with, lead_without, released, split_off};
ghost use Rattle.turn_model.specs.Places.{places_beyond};

use crate::held::Held;
use crate::law::Law;
use crate::pass::{NUMBERS, Pass};
use crate::steps::{
    Desk, Sitting, count, hear, part, release, sleep, unite, value_in, value_out, wake, won,
};
use crate::view::View;
use crate::waiting::Waiting;
use atomic_table::{Badge, Refused, Table};
use crossbeam_utils::Backoff;
use own_base::SessionNo;
use std::alloc::{AllocError, Global};
use std::marker::{Brand, Model};
use std::mem::replace;
use std::snapshot::Snapshot;
use std::sync::Wait;
use turn_model::Keeps;

/// The turn of threads, behind which a value lies that keeps a history. Contracts see which turn it is.
pub struct Turn<T: Keeps> {
    table: Table<Option<T>, View, Snapshot<T>, Law, Global>,
    waiting: Waiting,
}

impl<T: Keeps> Model for Turn<T> {
    ghost use Rattle.std.specs.Prelude.{◌≡◌};
    ghost use Rattle.atomic_table.specs.Seated.{TableId, table_id_coded};

    ghost Value = { TableId };

    ghost coded = { table_id_coded };

    ghost view = { λ turn. turn.table.shared.table_id };

    ghost invariant = { λ turn. (turn.table.shared.table_id.words ≡ 2) × (turn.table.shared.table_id.slots ≡ 1) };
}

/// The value of a table that was not made.
fn given_back<T>(mut slots: Vec<Option<T>>) -> T
    requires { (value : T) × (slots.items ≡ Some value ∷ []) }
    ensures { slots.items ≡ Some result ∷ [] }
{
    let last = slots.pop();
    slots.destroy_empty();
    let Some(slot) = last else { unreachable!() };
    let Some(value) = slot else { unreachable!() };
    value
}

/// Looks again and again until the turn is free, and takes it. After some looks the thread sleeps until it is woken.
fn wait_for<T: Keeps, R: Wait>(rt: &R, desk: &Desk<T>, waiting: &Waiting, seat: &mut Sitting<T>)
    requires shape { (desk.now.table_id.words ≡ 2) × (desk.now.table_id.slots ≡ 1) }
    requires seat { (seat.old.table_id ≡ desk.now.table_id) × (seat.old.me.1 ≡ []) }
    requires view { (seat.old.me.0.live ≡ true) × (seat.old.me.0.holds ≡ false) }
    ensures same { (seat.new.table_id ≡ seat.old.table_id) × (seat.new.id ≡ seat.old.id) }
    ensures taken { HasTaken T.history T.start seat.old.me seat.new.me }
{
    let backoff = Backoff::new();
    waiting.looks();
    for _ in rt.forever() {
        if won(desk, seat) {
            waiting.found();
            return;
        }
        if backoff.is_completed() {
            waiting.sleeps();
            sleep(rt, desk);
            waiting.wakes();
            backoff.reset();
        } else {
            backoff.snooze();
        }
    }
    unreachable!()
}

/// Takes the turn, as soon as nobody has it.
fn win<T: Keeps, R: Wait>(rt: &R, desk: &Desk<T>, waiting: &Waiting, seat: &mut Sitting<T>)
    requires shape { (desk.now.table_id.words ≡ 2) × (desk.now.table_id.slots ≡ 1) }
    requires seat { (seat.old.table_id ≡ desk.now.table_id) × (seat.old.me.1 ≡ []) }
    requires view { (seat.old.me.0.live ≡ true) × (seat.old.me.0.holds ≡ false) }
    ensures same { (seat.new.table_id ≡ seat.old.table_id) × (seat.new.id ≡ seat.old.id) }
    ensures taken { HasTaken T.history T.start seat.old.me seat.new.me }
{
    if !won(desk, seat) {
        wait_for(rt, desk, waiting, seat);
    }
}

impl<T: Keeps> Turn<T> {
    /// Makes a turn with a value, and the lead's pass, which has seen its entries and has no session. Where memory is refused
    /// the value comes back.
    pub fn new(alloc: Global, value: T) -> Result<(Turn<T>, Pass), (AllocError, T)>
        ensures pass { IfOk result (λ made. IsPassOf made.0 made.1) }
        ensures view { IfOk result (λ made. view_of made.1 ≡ first (T.history value) (T.start value)) }
        ensures given_back { IfErr result (λ refused. refused.1 ≡ value) }
    {
        let entries = value.entries().len() as u64;
        let about = Snapshot::of(&value);
        let mut slots = Vec::new(alloc);
        if slots.reserve(1).is_err() {
            slots.destroy_empty();
            return Err((AllocError, value));
        }
        slots.push_reserved(Some(value));
        match Table::new(alloc, &[0, entries], slots, &about) {
            Ok((table, seat)) => {
                let lead = Pass {
                    badge: seat.into_badge(),
                    session: SessionNo(0),
                    out: [false; NUMBERS],
                };
                Ok((
                    Turn {
                        table,
                        waiting: Waiting::new(),
                    },
                    lead,
                ))
            }
            Err(Refused { slots }) => Err((AllocError, given_back(slots))),
        }
    }

    /// Splits a pass of a session off the lead. It has seen what the lead has, which has a place for the session. Takes no
    /// memory.
    pub fn split(&self, lead: &mut Pass, session: SessionNo) -> Pass
        requires lead { IsPassOf self.now lead.old × (is_lead lead.old ≡ true) }
        requires number { session.0 ≤ SESSIONS }
        requires fresh { IsFresh lead.old session.0 }
        ensures lead { IsPassOf self.now lead.new × (view_of lead.new ≡ lead_without session.0 (view_of lead.old)) }
        ensures pass { IsPassOf self.now result × (view_of result ≡ split_off session.0 (view_of lead.old)) }
        ensures place { session.0 < length (view_of lead.old).stages }
    {
        let mut seat: Sitting<T> = replace(&mut lead.badge, Badge::blank()).into_seat();
        let other = part::<T, Brand>(&self.table.shared, &mut seat, session);
        lead.badge = seat.into_badge();
        lead.out[usize::from(session.0)] = true;
        Pass {
            badge: other.into_badge(),
            session,
            out: [false; NUMBERS],
        }
    }

    /// Takes the turn, as soon as nobody has it: that it comes isn't claimed. The value's entries begin with those that the pass
    /// has seen. Takes no memory.
    pub fn take<R: Wait>(&self, rt: &R, pass: &mut Pass) -> Held<T>
        requires { IsPassOf self.now pass.old }
        ensures held { IsHeldOf self.now result pass.new }
        ensures view { result.seat.me.0 ≡ holding (view_of pass.old) (T.history result.value) }
        ensures begins { IsPrefix (seen pass.old) (T.history result.value) }
        ensures start { T.start result.value ≡ start_of pass.old }
    {
        let mut seat: Sitting<T> = replace(&mut pass.badge, Badge::blank()).into_seat();
        win(rt, &self.table.shared, &self.waiting, &mut seat);
        let value = value_out(&self.table.shared, &mut seat);
        Held { seat, value }
    }

    /// Gives the turn back, and wakes a thread that sleeps until then where none looks for itself. The entries are those that were
    /// found with it, or one more, of the pass's session. Takes no memory.
    pub fn give(&self, held: Held<T>, pass: &mut Pass)
        requires held { IsHeldOf self.now held pass.old }
        requires entries { MayCount held.seat.me.0 (T.history held.value) }
        requires start { T.start held.value ≡ found_start held }
        ensures pass { IsPassOf self.now pass.new }
        ensures view { view_of pass.new ≡ released (counted held.seat.me.0 (T.history held.value)) }
    {
        let Held { mut seat, value } = held;
        let entries = value.entries().len() as u64;
        value_in(&self.table.shared, &mut seat, value);
        count(&self.table.shared, &mut seat, entries);
        release(&self.table.shared, &mut seat);
        if self.waiting.is_left_asleep() {
            wake(&self.table.shared);
        }
        pass.badge = seat.into_badge();
    }

    /// Joins a pass to the lead, which keeps its session and its places. What the lead has seen then is the longer of what the
    /// two had, and begins with both. Takes no memory.
    pub fn join(&self, lead: &mut Pass, done: Pass)
        requires lead { IsPassOf self.now lead.old × (is_lead lead.old ≡ true) }
        requires done { IsPassOf self.now done }
        ensures pass { IsPassOf self.now lead.new }
        ensures view { view_of lead.new ≡ lead_with (view_of lead.old) (view_of done) }
        ensures heard { IsPrefix (seen lead.old) (seen lead.new) × IsPrefix (seen done) (seen lead.new) }
    {
        let Pass {
            badge,
            session,
            out: _,
        } = done;
        let mut seat: Sitting<T> = replace(&mut lead.badge, Badge::blank()).into_seat();
        unite(&self.table.shared, &mut seat, badge.into_seat());
        hear(&self.table.shared, &mut seat);
        lead.badge = seat.into_badge();
        lead.out[usize::from(session.0)] = false;
    }

    /// Ends the turn, and gives the value back: its entries are those that the lead has seen. Those beyond the ones that the turn was made
    /// with stand at the places that the lead has kept of each session, and nowhere else. Takes no memory.
    pub fn close(self, lead: Pass) -> T
        requires lead { IsPassOf self lead × (is_lead lead ≡ true) }
        requires joined { count_out lead ≡ 0 }
        ensures entries { T.history result ≡ seen lead }
        ensures start { T.start result ≡ start_of lead }
        ensures places { (session : ℕ) → places_beyond (base lead) session (T.history result) ≡ kept lead session }
    {
        let Turn { table, waiting: _ } = self;
        let Pass { badge, .. } = lead;
        let mut closed = table.close_with(badge.into_seat());
        let slot = closed.take(0);
        closed.free();
        let Some(value) = slot else { unreachable!() };
        value
    }
}
