ghost use Rattle.std.specs.Prelude.{◌≡◌, ◌≢◌, ◌⊎◌, [], true, Err, IfOk};
ghost use Rattle.std.specs.List.{AllByRecursion, list_any};
ghost use Rattle.outer_world.specs.FaultCount.{CountRose};
ghost use Rattle.outer_world.specs.LastCall.{EndsInFault};
ghost use Rattle.history_model.specs.Fails.{TellsFailure};
ghost use Rattle.commit_turn.specs.Passes.{IsPassOf, is_lead, start_of, view_of};
ghost use Rattle.commit_turn.specs.Rule.{first};
ghost use Rattle.session_run.specs.Serving.{base_of};
ghost use Rattle.session_run.specs.Sessions.{IsServable, AreOwnNumbers, StandOnce, numbers_of};
ghost use Rattle.session_run.specs.Written.{IsUncalled, MakesTogether, WritesLines, WritesText, is_failed_some, lines_by_session};

use crate::printing::{RunFault, print_sessions};
use crate::replies::SessionReplies;
use crate::running::run_threads;
use commit_turn::{Pass, Turn};
use outer_world::{Gate, Sink};
use own_base::List;
use own_model::SessionCalls;
use serve_model::Serves;
use std::alloc::{AllocError, Global};
use std::mem::drop;
use std::sync::Wait;
use std::thread::Threads;

/// Whether a call of a session was answered with a fault of the disk.
fn has_failed(own: &SessionReplies) -> bool
    ensures { result ≡ list_any (λ told. told.failed) own.now.replies }
{
    own.replies.items().iter().any(|told| told.failed)
}

/// Whether a call of sessions was.
fn have_failed(replies: &List<SessionReplies>) -> bool
    ensures { result ≡ is_failed_some replies.now }
{
    replies.items().iter().any(|own| has_failed(own))
}

/// Writes what sessions were told, and gives it up: whether some call was answered with a fault of the disk.
fn tell_sessions<W: Sink>(replies: List<SessionReplies>, sink: &mut W) -> Result<bool, RunFault>
    ensures written { WritesLines (W.written sink.old) (W.written sink.new) (lines_by_session replies) result }
    ensures failed { IfOk result (λ failed. failed ≡ is_failed_some replies) }
    ensures fault { result ≡ Err RunFault.Write → CountRose (W.faults sink.old) (W.faults sink.new) }
    ensures last { result ≡ Err RunFault.Write → EndsInFault W.faults W.fails sink.old sink.new }
    ensures steady { result ≢ Err RunFault.Write → W.faults sink.new ≡ W.faults sink.old }
{
    let failed = have_failed(&replies);
    let told = print_sessions(&replies, sink);
    drop(replies);
    match told {
        Ok(()) => Ok(failed),
        Err(fault) => Err(fault),
    }
}

/// Serves sessions side by side under a turn, of whose value no call was made yet, and ends the turn; then it writes each call's lines,
/// session by session, until the first fault of the sink, or the first call whose lines are missing. The value comes back, with whether
/// some call was answered with a fault of the disk. Memory for what is told is taken before the first call; where that is refused no
/// call is made.
pub fn serve_sessions<Rt: Threads + Wait + Sync, S: Serves + Send, W: Sink, G: Gate + Sync>(
    rt: &Rt,
    alloc: Global,
    turn: Turn<S>,
    lead: Pass,
    sessions: List<SessionCalls>,
    sink: &mut W,
    gate: &G,
) -> (S, Result<bool, RunFault>)
where
    S::Snap: Drop + Send,
    requires lead { IsPassOf turn lead × (is_lead lead ≡ true) }
    requires fresh { view_of lead ≡ first [] (start_of lead) }
    requires servable { AllByRecursion IsServable sessions }
    requires once { StandOnce (numbers_of sessions) }
    requires numbered { AllByRecursion AreOwnNumbers sessions }
    ensures start { S.start result.0 ≡ start_of lead }
    ensures served { IsUncalled sink.old sink.new (S.history result.0) result.1
        ⊎ MakesTogether (base_of lead) sessions (S.history result.0) (λ text. WritesText (W.written sink.old) (W.written sink.new) text result.1) }
    ensures failed { IfOk result.1 (λ failed. TellsFailure failed (base_of lead) (S.history result.0)) }
    ensures fault { result.1 ≡ Err RunFault.Write → CountRose (W.faults sink.old) (W.faults sink.new) }
    ensures last { result.1 ≡ Err RunFault.Write → EndsInFault W.faults W.fails sink.old sink.new }
    ensures steady { result.1 ≢ Err RunFault.Write → W.faults sink.new ≡ W.faults sink.old }
{
    let mut lead = lead;
    match run_threads(rt, alloc, &turn, &mut lead, sessions, gate) {
        Ok(replies) => {
            let serves = turn.close(lead);
            let told = tell_sessions(replies, sink);
            (serves, told)
        }
        Err(AllocError) => {
            let serves = turn.close(lead);
            (serves, Err(RunFault::Memory))
        }
    }
}
