ghost use Rattle.std.specs.Prelude.{◌≡◌, ◌≤◌, [], vec_capacity, vec_len};
ghost use Rattle.std.specs.List.{AllByRecursion};
ghost use Rattle.own_model.specs.declared.limit.TheConstants.{SESSIONS};
ghost use Rattle.commit_turn.specs.Passes.{IsPassOf};
ghost use Rattle.session_run.specs.Serving.{AreReadable, ServesCalls, WorksFor};

use crate::calling::serve_one;
use crate::replies::Told;
use commit_turn::{Pass, Turn};
use outer_world::Gate;
use own_base::SessionNo;
use own_model::Request;
use serve_model::Serves;
use std::alloc::Global;
use std::mem::drop;
use std::sync::Wait;

/// Makes the calls of a session in their order, and tells each. The room for what is told is there.
pub(crate) fn serve_calls<S: Serves, Rt: Wait, G: Gate>(
    rt: &Rt,
    alloc: Global,
    turn: &Turn<S>,
    pass: &mut Pass,
    session: SessionNo,
    calls: Vec<(u32, Request)>,
    tolds: &mut Vec<Told>,
    gate: &G,
)
where
    S::Snap: Drop,
    requires pass { IsPassOf turn.now pass.old }
    requires worker { WorksFor pass.old session.0 }
    requires first { 1 ≤ session.0 }
    requires last { session.0 ≤ SESSIONS }
    requires readable { AreReadable calls.items }
    requires none { tolds.old.items ≡ [] }
    requires room { vec_len calls ≤ vec_capacity tolds.old }
    ensures pass { IsPassOf turn.now pass.new }
    ensures served { ServesCalls pass.old pass.new session calls.items tolds.new.items }
{
    let mut learnt = None;
    for asked in calls {
        let told = serve_one(rt, alloc, turn, pass, session, asked, &mut learnt, gate);
        tolds.push_reserved(told);
    }
    drop(learnt);
}
