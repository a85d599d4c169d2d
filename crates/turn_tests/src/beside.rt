ghost use Rattle.std.specs.Prelude.{◌≡◌, false};
ghost use Rattle.std.specs.Thread.{IsSync};
ghost use Rattle.commit_turn.specs.Passes.{IsPassOf, is_lead, view_of};

use crate::adding::{add_all, commit, look};
use crate::log::Adds;
use commit_turn::{Pass, Turn};
use own_base::SessionNo;
use std::sync::Wait;
use std::sync::atomic::AtomicU64;
use std::thread::{Threads, join};

/// Two threads add beside each other, each so many entries of its session. Each says whether what it found never shrank.
pub(crate) fn add_beside<T: Adds + Send, R: Threads + Wait + Sync>(
    rt: &R,
    turn: &Turn<T>,
    one: (Pass, SessionNo, u32),
    two: (Pass, SessionNo, u32),
) -> ((Pass, bool), (Pass, bool))
    requires one { IsPassOf turn.now one.0 × (is_lead one.0 ≡ false) × ((view_of one.0).session ≡ one.1.0) }
    requires two { IsPassOf turn.now two.0 × (is_lead two.0 ≡ false) × ((view_of two.0).session ≡ two.1.0) }
    ensures { IsPassOf turn.now result.0.0 × IsPassOf turn.now result.1.0 }
{
    let (first, first_session, first_calls) = one;
    let (second, second_session, second_calls) = two;
    join(
        rt,
        || -> (Pass, bool)
            requires { IsSync R.row × IsPassOf turn.now first × (is_lead first ≡ false) × ((view_of first).session ≡ first_session.0) }
            ensures { IsPassOf turn.entry.now result.0 }
        { add_all(rt, turn, first, first_session, first_calls) },
        || -> (Pass, bool)
            requires { IsPassOf turn.now second × (is_lead second ≡ false) × ((view_of second).session ≡ second_session.0) }
            ensures { IsPassOf turn.entry.now result.0 }
        { add_all(rt, turn, second, second_session, second_calls) },
    )
}

/// One thread looks for as long as the other takes to commit so many entries. Each says whether the other came so far.
pub(crate) fn look_beside<T: Adds + Send, R: Threads + Wait + Sync>(
    rt: &R,
    turn: &Turn<T>,
    one: (Pass, SessionNo),
    two: (Pass, SessionNo, u32),
) -> ((Pass, bool), (Pass, bool))
    requires one { IsPassOf turn.now one.0 × (is_lead one.0 ≡ false) × ((view_of one.0).session ≡ one.1.0) }
    requires two { IsPassOf turn.now two.0 × (is_lead two.0 ≡ false) × ((view_of two.0).session ≡ two.1.0) }
    ensures { IsPassOf turn.now result.0.0 × IsPassOf turn.now result.1.0 }
{
    let word = AtomicU64::new(0);
    let (first, first_session) = one;
    let (second, second_session, second_calls) = two;
    join(
        rt,
        || -> (Pass, bool)
            requires { IsSync R.row × IsPassOf turn.now first × (is_lead first ≡ false) × ((view_of first).session ≡ first_session.0) }
            ensures { IsPassOf turn.entry.now result.0 }
        { look(rt, turn, first, first_session, &word) },
        || -> (Pass, bool)
            requires { IsPassOf turn.now second × (is_lead second ≡ false) × ((view_of second).session ≡ second_session.0) }
            ensures { IsPassOf turn.entry.now result.0 }
        { commit(rt, turn, second, second_session, second_calls, &word) },
    )
}
