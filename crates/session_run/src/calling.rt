ghost use Rattle.std.specs.Prelude.{◌≤◌, [], ◌∷◌, IfSome};
ghost use Rattle.own_model.specs.declared.limit.TheConstants.{SESSIONS};
ghost use Rattle.grammar_model.specs.Readable.{IsReadable};
ghost use Rattle.serve_model.specs.Ahead.{IsBoundAhead};
ghost use Rattle.serve_model.specs.Steps.{entry};
ghost use Rattle.commit_turn.specs.Passes.{IsPassOf, seen};
ghost use Rattle.session_run.specs.Learning.{IsLearnt};
ghost use Rattle.session_run.specs.Serving.{MakesByPass, ServesCalls, WorksFor, base_of};

use crate::learning::{Learnt, bound_ahead, learn_by};
use crate::replies::Told;
use crate::telling::tell_step;
use commit_turn::{Pass, Turn};
use outer_world::Gate;
use own_base::SessionNo;
use own_model::Request;
use serve_model::{Ahead, Serves, Step};
use std::alloc::Global;
use std::sync::Wait;

/// Makes a call under the turn.
fn make_call<S: Serves, Rt: Wait>(
    rt: &Rt,
    turn: &Turn<S>,
    pass: &mut Pass,
    session: SessionNo,
    call: u32,
    request: Request,
    ahead: Option<Ahead>,
) -> Step<S::Snap>
    requires pass { IsPassOf turn.now pass.old }
    requires worker { WorksFor pass.old session.0 }
    requires first { 1 ≤ session.0 }
    requires last { session.0 ≤ SESSIONS }
    requires readable { IsReadable request }
    requires ahead { IfSome ahead (IsBoundAhead (base_of pass.old) (seen pass.old) request) }
    ensures pass { IsPassOf turn.now pass.new }
    ensures made { MakesByPass S.Snap.db pass.old pass.new (entry session call request) result }
{
    let mut held = turn.take(rt, pass);
    let step = held.value().serve(session, call, request, ahead);
    turn.give(held, pass);
    step
}

/// Makes a call, and tells it. The gate is asked before, and told after. Its statement is bound before the turn over the schema that is
/// known, and what a look shows is learnt of.
pub(crate) fn serve_one<S: Serves, Rt: Wait, G: Gate>(
    rt: &Rt,
    alloc: Global,
    turn: &Turn<S>,
    pass: &mut Pass,
    session: SessionNo,
    asked: (u32, Request),
    learnt: &mut Option<Learnt>,
    gate: &G,
) -> Told
where
    S::Snap: Drop,
    requires pass { IsPassOf turn.now pass.old }
    requires worker { WorksFor pass.old session.0 }
    requires first { 1 ≤ session.0 }
    requires last { session.0 ≤ SESSIONS }
    requires readable { IsReadable asked.1 }
    requires learnt { IfSome learnt.old (IsLearnt (base_of pass.old) (seen pass.old)) }
    ensures pass { IsPassOf turn.now pass.new }
    ensures served { ServesCalls pass.old pass.new session (asked ∷ []) (result ∷ []) }
    ensures learnt { IfSome learnt.new (IsLearnt (base_of pass.new) (seen pass.new)) }
{
    let (call, request) = asked;
    let _ = gate.before(session, call);
    let ahead = bound_ahead(alloc, learnt, &request);
    let step = make_call(rt, turn, pass, session, call, request, ahead);
    learn_by(alloc, learnt, &step);
    let told = tell_step(alloc, session, call, step);
    gate.after(session, call);
    told
}
