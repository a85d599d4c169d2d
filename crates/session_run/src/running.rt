ghost use Rattle.std.specs.Prelude.{◌≡◌, ℕ, true, IfOk, OnErr, OnOk};
ghost use Rattle.std.specs.List.{AllByRecursion};
ghost use Rattle.std.specs.Thread.{IsSync};
ghost use mathlib.Core.List.{IsPrefix};
ghost use Rattle.history_model.specs.Serial.{Serial};
ghost use Rattle.commit_turn.specs.Passes.{IsFresh, IsPassOf, base, count_out, is_lead, kept, seen, start_of};
ghost use Rattle.session_run.specs.Jobs.{DoesJob, IsReady};
ghost use Rattle.session_run.specs.Serving.{base_of};
ghost use Rattle.session_run.specs.Sessions.{IsElsewhere, IsServable, IsServed, Pairwise, StandOnce, numbers_of};

use crate::replies::SessionReplies;
use crate::sessions::{Job, join_all, plan_sessions, send_out};
use crate::working::serve_calls;
use commit_turn::{Pass, Turn};
use outer_world::Gate;
use own_base::List;
use own_model::SessionCalls;
use serve_model::Serves;
use std::alloc::{AllocError, Global};
use std::mem::replace;
use std::sync::Wait;
use std::thread;
use std::thread::Threads;

/// Does a worker's job.
fn do_job<S: Serves, Rt: Wait, G: Gate>(
    rt: &Rt,
    alloc: Global,
    turn: &Turn<S>,
    job: &mut Job,
    gate: &G,
)
where
    S::Snap: Drop,
    requires { IsReady turn.now job.old }
    ensures { DoesJob turn.now job.old job.new }
{
    let session = job.plan.calls.session;
    let calls = replace(&mut job.plan.calls.calls, List::new(alloc)).into_vec();
    serve_calls(
        rt,
        alloc,
        turn,
        &mut job.pass,
        session,
        calls,
        &mut job.plan.tolds,
        gate,
    );
}

/// Does the jobs side by side, a worker for each.
fn do_jobs<S: Serves + Send, Rt: Threads + Wait + Sync, G: Gate + Sync>(
    rt: &Rt,
    alloc: Global,
    turn: &Turn<S>,
    jobs: &mut [Job],
    gate: &G,
)
where
    S::Snap: Drop + Send,
    requires { AllByRecursion (IsReady turn.now) jobs.old }
    ensures { Pairwise (DoesJob turn.now) jobs.old jobs.new }
{
    let threads = jobs.len().max(1);
    thread::for_each_mut(
        rt,
        jobs,
        threads,
        &|_, job: &mut Job|
            requires { IsSync Rt.row × IsReady turn.now job.now }
            ensures { DoesJob turn.entry.now job.entry.now job.exit.now }
        { do_job(rt, alloc, turn, job, gate) },
    );
}

/// Serves sessions side by side, a worker for each, which makes the session's calls in their order, each under the turn, and
/// tells it before the next. The room for what is told is taken before the first call; where that is refused no call is made.
/// A look is answered, and each call's lines are written, after the turn is given back.
pub fn run_threads<Rt: Threads + Wait + Sync, S: Serves + Send, G: Gate + Sync>(
    rt: &Rt,
    alloc: Global,
    turn: &Turn<S>,
    lead: &mut Pass,
    sessions: List<SessionCalls>,
    gate: &G,
) -> Result<List<SessionReplies>, AllocError>
where
    S::Snap: Drop + Send,
    requires lead { IsPassOf turn.now lead.old × (is_lead lead.old ≡ true) }
    requires calls { AllByRecursion IsServable sessions }
    requires once { StandOnce (numbers_of sessions) }
    requires fresh { AllByRecursion (λ calls. IsFresh lead.old calls.session.0) sessions }
    ensures served { IfOk result (λ replies. Pairwise (IsServed lead.new) sessions replies) }
    ensures lead { OnOk result (IsPassOf turn.now lead.new × (is_lead lead.new ≡ true)) }
    ensures base { OnOk result (base lead.new ≡ base lead.old) }
    ensures start { OnOk result (start_of lead.new ≡ start_of lead.old) }
    ensures grows { OnOk result (IsPrefix (seen lead.old) (seen lead.new)) }
    ensures serial { OnOk result (Serial (base_of lead.old) (seen lead.old) → Serial (base_of lead.new) (seen lead.new)) }
    ensures others { OnOk result ((session : ℕ) → IsElsewhere session (numbers_of sessions) → kept lead.new session ≡ kept lead.old session) }
    ensures out { OnOk result (count_out lead.new ≡ count_out lead.old) }
    ensures refused { OnErr result (lead.new ≡ lead.old) }
{
    let plans = plan_sessions(alloc, sessions)?;
    let jobs = Vec::with_capacity(alloc, plans.len())?;
    let replies = Vec::with_capacity(alloc, plans.len())?;
    let mut jobs = send_out(turn, lead, plans, jobs);
    do_jobs(rt, alloc, turn, jobs.as_mut_slice(), gate);
    Ok(List::from_vec(join_all(turn, lead, jobs, replies)))
}
