ghost use Rattle.std.specs.Prelude.{◌≡◌, ◌<◌, ◌≢◌, ℕ, [], ◌∷◌, true, false, Some, None, MatchBool, length};
ghost use mathlib.Core.List.{IsPrefix};
ghost use Rattle.commit_turn.specs.Rule.{stage_of};
ghost use Rattle.commit_turn.specs.Steps.{HasTaken, MayCount, counted, lead_with, lead_without, released, split_off};
ghost use Rattle.commit_turn.specs.declared.view.Stage.TheVariants.{Fresh};

use crate::law::{Chosen, Count, Hear, Law, Part, Release, Take, Unite};
use crate::view::View;
use atomic_table::{Seat, Shared};
use own_base::SessionNo;
use std::snapshot::Snapshot;
use std::sync::Wait;
use turn_model::Keeps;

/// The words and the slot of a turn, and a seat at them.
pub(crate) type Desk<T> = Shared<Option<T>, View, Snapshot<T>, Law>;

pub(crate) type Sitting<T> = Seat<Option<T>, View>;

/// The word of the turn: 0 where nobody has it.
const TURN: usize = 0;

/// The word with the number of entries.
const ENTRIES: usize = 1;

/// The slot of the value.
const VALUE: usize = 0;

/// Takes the turn, if nobody has it.
pub(crate) fn won<T: Keeps>(desk: &Desk<T>, seat: &mut Sitting<T>) -> bool
    requires shape { (desk.now.table_id.words ≡ 2) × (desk.now.table_id.slots ≡ 1) }
    requires seat { (seat.old.table_id ≡ desk.now.table_id) × (seat.old.me.1 ≡ []) }
    requires view { (seat.old.me.0.live ≡ true) × (seat.old.me.0.holds ≡ false) }
    ensures same { (seat.new.table_id ≡ seat.old.table_id) × (seat.new.id ≡ seat.old.id) }
    ensures won { MatchBool result (HasTaken T.history T.start seat.old.me seat.new.me) (seat.new.me ≡ seat.old.me) }
{
    desk.compare_exchange::<Take>(seat, TURN, 0, 1) == 0
}

/// Takes the value out of the slot.
pub(crate) fn value_out<T: Keeps>(desk: &Desk<T>, seat: &mut Sitting<T>) -> T
    requires seat { seat.old.table_id ≡ desk.now.table_id }
    requires there { (value : T) × (seat.old.me.1 ≡ (0, Some value) ∷ []) }
    ensures same { (seat.new.table_id ≡ seat.old.table_id) × (seat.new.id ≡ seat.old.id) }
    ensures value { seat.old.me.1 ≡ (0, Some result) ∷ [] }
    ensures left { seat.new.me ≡ (seat.old.me.0, (0, None) ∷ []) }
{
    let Some(value) = desk.exchange(seat, VALUE, None) else {
        unreachable!()
    };
    value
}

/// Puts the value back into the slot.
pub(crate) fn value_in<T: Keeps>(desk: &Desk<T>, seat: &mut Sitting<T>, value: T)
    requires seat { seat.old.table_id ≡ desk.now.table_id }
    requires away { seat.old.me.1 ≡ (0, None) ∷ [] }
    ensures same { (seat.new.table_id ≡ seat.old.table_id) × (seat.new.id ≡ seat.old.id) }
    ensures back { seat.new.me ≡ (seat.old.me.0, (0, Some value) ∷ []) }
{
    let before = desk.exchange(seat, VALUE, Some(value));
    let None = before else { unreachable!() };
}

/// Tells how many entries the value in the slot has.
pub(crate) fn count<T: Keeps>(desk: &Desk<T>, seat: &mut Sitting<T>, entries: u64)
    requires shape { (desk.now.table_id.words ≡ 2) × (desk.now.table_id.slots ≡ 1) }
    requires seat { seat.old.table_id ≡ desk.now.table_id }
    requires view { (seat.old.me.0.live ≡ true) × (seat.old.me.0.holds ≡ true) }
    requires counts { (value : T) × (seat.old.me.1 ≡ (0, Some value) ∷ []) × MayCount seat.old.me.0 (T.history value) × (entries ≡ length (T.history value)) }
    ensures same { (seat.new.table_id ≡ seat.old.table_id) × (seat.new.id ≡ seat.old.id) }
    ensures counted { (value : T) → seat.old.me.1 ≡ (0, Some value) ∷ [] → seat.new.me ≡ (counted seat.old.me.0 (T.history value), seat.old.me.1) }
{
    desk.store::<Count>(seat, ENTRIES, entries);
}

/// Gives the turn back, and the value with it.
pub(crate) fn release<T: Keeps>(desk: &Desk<T>, seat: &mut Sitting<T>)
    requires shape { (desk.now.table_id.words ≡ 2) × (desk.now.table_id.slots ≡ 1) }
    requires seat { seat.old.table_id ≡ desk.now.table_id }
    requires view { (seat.old.me.0.live ≡ true) × (seat.old.me.0.holds ≡ true) }
    requires counted { (value : T) × (seat.old.me.1 ≡ (0, Some value) ∷ []) × (T.history value ≡ seat.old.me.0.seen) × (T.start value ≡ seat.old.me.0.start) }
    ensures same { (seat.new.table_id ≡ seat.old.table_id) × (seat.new.id ≡ seat.old.id) }
    ensures released { seat.new.me ≡ (released seat.old.me.0, []) }
{
    desk.store::<Release>(seat, TURN, 0);
}

/// Sleeps where somebody has the turn, until it is woken; or for no time, without a cause.
pub(crate) fn sleep<T: Keeps, R: Wait>(rt: &R, desk: &Desk<T>)
    requires shape { (desk.now.table_id.words ≡ 2) × (desk.now.table_id.slots ≡ 1) }
{
    desk.park(rt, TURN, 1);
}

/// Wakes a thread that sleeps until the turn is given back.
pub(crate) fn wake<T: Keeps>(desk: &Desk<T>)
    requires shape { (desk.now.table_id.words ≡ 2) × (desk.now.table_id.slots ≡ 1) }
{
    desk.wake_one(TURN);
}

/// Splits a seat for a session off the lead's.
pub(crate) fn part<T: Keeps, N: Chosen>(
    desk: &Desk<T>,
    seat: &mut Sitting<T>,
    session: SessionNo,
) -> Sitting<T>
    requires shape { (desk.now.table_id.words ≡ 2) × (desk.now.table_id.slots ≡ 1) }
    requires seat { seat.old.table_id ≡ desk.now.table_id }
    requires lead { (seat.old.me.0.live ≡ true) × (seat.old.me.0.lead ≡ true) × (seat.old.me.0.holds ≡ false) }
    requires fresh { (stage_of seat.old.me.0 session.0 ≡ Fresh) × (session.0 < length seat.old.me.0.stages) }
    requires chosen { session.0 ≡ N.session }
    ensures same { (seat.new.table_id ≡ seat.old.table_id) × (seat.new.id ≡ seat.old.id) }
    ensures lead { seat.new.me ≡ (lead_without session.0 seat.old.me.0, seat.old.me.1) }
    ensures pass { (result.table_id ≡ seat.old.table_id) × (result.me ≡ (split_off session.0 seat.old.me.0, [])) }
{
    let _ = session;
    desk.split_seat::<Part<N>>(seat)
}

/// Joins a seat to the lead's.
pub(crate) fn unite<T: Keeps>(desk: &Desk<T>, seat: &mut Sitting<T>, done: Sitting<T>)
    requires shape { (desk.now.table_id.words ≡ 2) × (desk.now.table_id.slots ≡ 1) }
    requires seats { (seat.old.table_id ≡ desk.now.table_id) × (done.table_id ≡ desk.now.table_id) × (done.me.1 ≡ []) }
    requires lead { (seat.old.me.0.live ≡ true) × (seat.old.me.0.lead ≡ true) × (seat.old.me.0.holds ≡ false) }
    requires done { (done.me.0.live ≡ true) × (done.me.0.holds ≡ false) }
    ensures same { (seat.new.table_id ≡ seat.old.table_id) × (seat.new.id ≡ seat.old.id) }
    ensures lead { seat.new.me ≡ (lead_with seat.old.me.0 done.me.0, seat.old.me.1) }
{
    desk.join_seat::<Unite>(seat, done);
}

/// Compares what the lead has seen with what it and the pass had seen that it joined last.
pub(crate) fn hear<T: Keeps>(desk: &Desk<T>, seat: &mut Sitting<T>)
    requires shape { (desk.now.table_id.words ≡ 2) × (desk.now.table_id.slots ≡ 1) }
    requires seat { seat.old.table_id ≡ desk.now.table_id }
    requires live { seat.old.me.0.live ≡ true }
    ensures same { (seat.new.table_id ≡ seat.old.table_id) × (seat.new.id ≡ seat.old.id) × (seat.new.me ≡ seat.old.me) }
    ensures heard { IsPrefix seat.old.me.0.was seat.old.me.0.seen × IsPrefix seat.old.me.0.heard seat.old.me.0.seen }
{
    desk.load::<Hear>(seat, TURN);
}
