ghost use Rattle.std.specs.Prelude.{◌≡◌, false};
ghost use Rattle.commit_turn.specs.Passes.{IsPassOf, is_lead, view_of};

use crate::log::Adds;
use commit_turn::{Pass, Turn};
use crossbeam_utils::Backoff;
use own_base::SessionNo;
use std::hint::spin_loop;
use std::sync::Wait;
use std::sync::atomic::{AtomicU64, Ordering};

/// How often a thread looks whether another has come so far, before it gives up.
const LOOKS: u32 = 20_000_000;

/// What a thread that looks says once it has given the turn back.
const LOOKING: u64 = 1;

/// What a thread that commits says once its entries are added.
const COMMITTED: u64 = 2;

/// For how many pauses of the processor a turn is kept that is kept for long: some hundred microseconds.
const LINGER: u32 = 2_500;

/// Keeps the turn for long at every tenth call: for longer than a thread looks whether it is free, so the other sleeps then, and has
/// to be woken.
fn linger(call: u32) {
    if call % 10 == 9 {
        for _ in 0..LINGER {
            spin_loop();
        }
    }
}

/// Adds an entry under the turn, and says how many it found.
fn add_one<T: Adds, R: Wait>(
    rt: &R,
    turn: &Turn<T>,
    pass: &mut Pass,
    session: SessionNo,
    call: u32,
) -> usize
    requires pass { IsPassOf turn.now pass.old }
    requires session { (is_lead pass.old ≡ false) × ((view_of pass.old).session ≡ session.0) }
    ensures pass { IsPassOf turn.now pass.new }
    ensures session { (is_lead pass.new ≡ false) × ((view_of pass.new).session ≡ session.0) }
{
    let mut held = turn.take(rt, pass);
    let value = held.value();
    let found = value.entries().len();
    linger(call);
    value.add(session, call);
    turn.give(held, pass);
    found
}

/// Adds so many entries of a session, one at a turn, and says whether what it found never shrank.
pub(crate) fn add_all<T: Adds, R: Wait>(
    rt: &R,
    turn: &Turn<T>,
    pass: Pass,
    session: SessionNo,
    calls: u32,
) -> (Pass, bool)
    requires pass { IsPassOf turn.now pass }
    requires session { (is_lead pass ≡ false) × ((view_of pass).session ≡ session.0) }
    ensures { IsPassOf turn.now result.0 }
{
    let mut pass = pass;
    let mut seen = 0;
    let mut grows = true;
    for call in 0..calls {
        let found = add_one(rt, turn, &mut pass, session, call);
        grows = grows && seen <= found;
        seen = found;
    }
    (pass, grows)
}

/// Waits until the word is this, and says whether it was.
fn comes(word: &AtomicU64, wanted: u64) -> bool {
    let backoff = Backoff::new();
    for _ in 0..LOOKS {
        if word.load(Ordering::SeqCst) == wanted {
            return true;
        }
        backoff.snooze();
    }
    false
}

/// Adds an entry, gives the turn back, and then looks until the other has committed: whether that came.
pub(crate) fn look<T: Adds, R: Wait>(
    rt: &R,
    turn: &Turn<T>,
    pass: Pass,
    session: SessionNo,
    word: &AtomicU64,
) -> (Pass, bool)
    requires pass { IsPassOf turn.now pass }
    requires session { (is_lead pass ≡ false) × ((view_of pass).session ≡ session.0) }
    ensures { IsPassOf turn.now result.0 }
{
    let mut pass = pass;
    add_one(rt, turn, &mut pass, session, 0);
    word.store(LOOKING, Ordering::SeqCst);
    let came = comes(word, COMMITTED);
    (pass, came)
}

/// Adds so many entries while the other looks: whether it looked.
pub(crate) fn commit<T: Adds, R: Wait>(
    rt: &R,
    turn: &Turn<T>,
    pass: Pass,
    session: SessionNo,
    calls: u32,
    word: &AtomicU64,
) -> (Pass, bool)
    requires pass { IsPassOf turn.now pass }
    requires session { (is_lead pass ≡ false) × ((view_of pass).session ≡ session.0) }
    ensures { IsPassOf turn.now result.0 }
{
    let looks = comes(word, LOOKING);
    let (pass, grows) = add_all(rt, turn, pass, session, calls);
    word.store(COMMITTED, Ordering::SeqCst);
    (pass, looks && grows)
}
